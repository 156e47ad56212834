//! Sessions of RELP.

/// Sessions over a new spool, and what is listed then.
pub(crate) const SESSIONS: &str = r#"1 7 8192
- one event
device 20480
call format 2 4096
out text 2 slots of 4096 bytes%0a
ends 0
call replay relp
open
in text 2 syslog 5 hello%0a3 close 0%0a
out text 2 rsp 6 200 OK%0a3 rsp 0%0a0 serverclose 0%0a
ends 0
call list
out text 0 4294967296 0 2 relp 5%0a
ends 0
same
call list --as json
out text {"message":"hello"}%0a
ends 0
same
call list --as hec
out text {"event":"hello"}%0a
ends 0
same
call list --as relp
out text hello%0a
ends 0
same

- an empty event
device 20480
call format 2 4096
out text 2 slots of 4096 bytes%0a
ends 0
call replay relp
open
in text 002 syslog 0 %0a
out text 2 rsp 6 200 OK%0a
ends 0
call list
out text 0 4294967296 0 2 relp 0%0a
ends 0
same
call list --as relp
out text %0a
ends 0
same
call list --as json
out text {"message":""}%0a
ends 0
same
call list --as hec
out text {"event":"-"}%0a
ends 0
same

- too long an event
device 20480
call format 2 4096
out text 2 slots of 4096 bytes%0a
ends 0
call replay relp
open
in text 2 syslog 131073
ends 66 fault at 75: too long
call list
ends 0
same

- no line end after an event
device 20480
call format 2 4096
out text 2 slots of 4096 bytes%0a
ends 0
call replay relp
open
in text 2 syslog 5 helloX
ends 66 fault at 77: trailer
call list
ends 0
same

- an input that ends in a frame
device 20480
call format 2 4096
out text 2 slots of 4096 bytes%0a
ends 0
call replay relp
open
in text 2 syslog 
ends 75 input ended in a frame at 61
call list
ends 0
same

- frames that ask for nothing
device 20480
call format 2 4096
out text 2 slots of 4096 bytes%0a
ends 0
call replay relp
in text 1 syslog 1 x%0a
out text 1 rsp 12 500 not open%0a
open
in text 2 foo 0%0a3 open 0%0a
out text 2 rsp 19 500 unknown command%0a3 rsp 16 500 already open%0a
ends 0
call list
ends 0
same

- rsyslog
device 20480
call format 2 4096
out text 2 slots of 4096 bytes%0a
ends 0
call replay relp
open
in text 2 syslog 37 <13>Jan  1 00:00:00 host app: started%0a
out text 2 rsp 6 200 OK%0a
ends 0
call list
out text 0 4294967296 0 2 relp 37%0a
ends 0
same
call list --as relp
out text <13>Jan  1 00:00:00 host app: started%0a
ends 0
same

- bytes after a close
device 20480
call format 2 4096
out text 2 slots of 4096 bytes%0a
ends 0
call replay relp
open
in text 2 close 0%0ano frame
out text 2 rsp 0%0a0 serverclose 0%0a
ends 0
call list
ends 0
same

- an open alone
device 20480
call format 2 4096
out text 2 slots of 4096 bytes%0a
ends 0
call replay relp
open
ends 0
call list
ends 0
same"#;

/// What stands on the device: the first event is stored as the layout says, whatever the pieces.
pub(crate) const LAYOUT: &str =
    r#"- the first event: a cell of the register with the gate, the ordinal and the length, the version, the run, the
- cursor and the count of stretches; a slot with the gate, the ordinal and the first number; a group with the
- gate, the length and the count; an entry with origin, connection, index, unit, length and text; a closed gate
device 16384
call format 1 4096
out text 1 slots of 4096 bytes%0a
ends 0
call replay relp
open
in text 2 syslog 5 hello%0a3 close 0%0a
out text 2 rsp 6 200 OK%0a3 rsp 0%0a0 serverclose 0%0a
ends 0
holds 8192 text %01%00%00%00%00%00%00%00%02%00%00%00%13
holds 8205 text %02%00%00%00%00%00%00%00%01%00%00%00%00%00%00%00%00%00%00
holds 12288 text %01%00%00%00%00%00%00%00%01%00%00%00%00%00%00%00%00
holds 12305 text %01%00%00%00%22%00%00%00%01
holds 12314 text %01%00%00%00%01%00%00%00%00%00%00%00%00%00%00%00%00%00%00%00%00%00%00%00%02
holds 12339 text %00%00%00%05hello%00
call list
out text 0 4294967296 0 2 relp 5%0a
ends 0
same"#;

/// An empty input, and the longest event.
pub(crate) const NO_INPUT: &str = r#"8192
- no input by RELP: the run is raised, and nothing else changes
device 20480
call format 2 4096
out text 2 slots of 4096 bytes%0a
ends 0
call replay relp
ends 0
keeps 0 8192
keeps 12288 20480
holds 8192 text %01%00%00%00%00%00%00%00%02%00%00%00%13
holds 8205 text %02%00%00%00%00%00%00%00%01%00%00%00%00%00%00%00%00%00%00
call list
ends 0
same

- no input by Lumberjack: the run is raised, and nothing else changes
device 20480
call format 2 4096
out text 2 slots of 4096 bytes%0a
ends 0
call replay lumberjack
ends 0
keeps 0 8192
keeps 12288 20480
holds 8192 text %01%00%00%00%00%00%00%00%02%00%00%00%13
holds 8205 text %02%00%00%00%00%00%00%00%01%00%00%00%00%00%00%00%00%00%00
call list
ends 0
same

- no input by the collector: the run is raised, and nothing else changes
device 20480
call format 2 4096
out text 2 slots of 4096 bytes%0a
ends 0
call replay hec --token 11111111-2222-3333-4444-555555555555
ends 0
keeps 0 8192
keeps 12288 20480
holds 8192 text %01%00%00%00%00%00%00%00%02%00%00%00%13
holds 8205 text %02%00%00%00%00%00%00%00%01%00%00%00%00%00%00%00%00%00%00
call list
ends 0
same

- the longest event
device 4206592
call format 2 2097152
out text 2 slots of 2097152 bytes%0a
ends 0
call replay relp
open
in text 2 syslog 131072 
in times 131072 x
in text %0a
out text 2 rsp 6 200 OK%0a
ends 0
call list
out text 0 4294967296 0 2 relp 131072%0a
ends 0
same
call list --as relp
out times 131072 x
out text %0a
ends 0
same"#;
