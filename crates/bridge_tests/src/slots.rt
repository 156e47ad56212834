//! Events of RELP that fill the slots of a spool.

/// Which events are stored, where, and what is answered.
pub(crate) const SLOTS: &str = r#"8192
- one slot that is full
device 16384
call format 1 4096
out text 1 slots of 4096 bytes%0a
ends 0
call replay relp
open
in text 2 syslog 2000 
in times 2000 a
in text %0a
in text 3 syslog 2003 
in times 2003 b
in text %0a
out text 2 rsp 6 200 OK%0a
out text 0 serverclose 0%0a
ends 67 spool full: 2041 needed, 2040 free
call list
out text 0 4294967296 0 2 relp 2000%0a
ends 0
same
call list --as relp
out times 2000 a
out text %0a
ends 0
same

- an exact fit: the last byte of the slot is the closed gate
device 20480
call format 2 4096
out text 2 slots of 4096 bytes%0a
ends 0
call replay relp
open
in text 2 syslog 2000 
in times 2000 a
in text %0a
in text 3 syslog 2002 
in times 2002 b
in text %0a
out text 2 rsp 6 200 OK%0a3 rsp 6 200 OK%0a
ends 0
holds 16383 text %00%00
call list
out text 0 4294967296 0 2 relp 2000%0a1 4294967296 1 3 relp 2002%0a
ends 0
same
call list --as relp
out times 2000 a
out text %0a
out times 2002 b
out text %0a
ends 0
same

- two slots; once the first event is confirmed, another one is taken into its slot, and the first is gone
device 20480
call format 2 4096
out text 2 slots of 4096 bytes%0a
ends 0
call replay relp
open
in text 2 syslog 2000 
in times 2000 a
in text %0a
in text 3 syslog 2003 
in times 2003 b
in text %0a
out text 2 rsp 6 200 OK%0a3 rsp 6 200 OK%0a
ends 0
holds 16383 text %00%01
call list
out text 0 4294967296 0 2 relp 2000%0a1 4294967296 1 3 relp 2003%0a
ends 0
same
call list --as relp
out times 2000 a
out text %0a
out times 2003 b
out text %0a
ends 0
same
put 4096 text %01%00%00%00%00%00%00%00%03%00%00%00%13
put 4109 text %02%00%00%00%00%00%00%00%01%00%00%00%00%00%00%00%01%00%00
call list
out text 1 4294967296 1 3 relp 2003%0a
ends 0
same
call replay relp
open
in text 2 syslog 2000 
in times 2000 a
in text %0a
out text 2 rsp 6 200 OK%0a
ends 0
call list
out text 1 4294967296 1 3 relp 2003%0a2 8589934592 0 2 relp 2000%0a
ends 0
same

- two slots that are full
device 20480
call format 2 4096
out text 2 slots of 4096 bytes%0a
ends 0
call replay relp
open
in text 2 syslog 2000 
in times 2000 a
in text %0a
in text 3 syslog 2003 
in times 2003 b
in text %0a
in text 4 syslog 2000 
in times 2000 c
in text %0a
out text 2 rsp 6 200 OK%0a3 rsp 6 200 OK%0a
out text 0 serverclose 0%0a
ends 67 spool full: 2038 needed, 2037 free
call list
out text 0 4294967296 0 2 relp 2000%0a1 4294967296 1 3 relp 2003%0a
ends 0
same
call list --as relp
out times 2000 a
out text %0a
out times 2003 b
out text %0a
ends 0
same

- the largest group
device 20480
call format 2 4096
out text 2 slots of 4096 bytes%0a
ends 0
call replay relp
open
in text 2 syslog 4040 
in times 4040 a
in text %0a
out text 2 rsp 6 200 OK%0a
ends 0
call list
out text 0 4294967296 0 2 relp 4040%0a
ends 0
same
call list --as relp
out times 4040 a
out text %0a
ends 0
same

- too large a group
device 20480
call format 2 4096
out text 2 slots of 4096 bytes%0a
ends 0
call replay relp
open
in text 2 syslog 4041 
in times 4041 a
in text %0a
out text 0 serverclose 0%0a
ends 67 group too large: 4079 needed, 4078 at most
call list
ends 0
same
call list --as relp
ends 0
same

- two groups in one slot, one in each of two others, and one of the next run
device 24576
call format 3 4096
out text 3 slots of 4096 bytes%0a
ends 0
call replay relp
open
in text 2 syslog 2000 
in times 2000 a
in text %0a
in text 3 syslog 2000 
in times 2000 b
in text %0a
in text 4 syslog 4000 
in times 4000 c
in text %0a
in text 5 syslog 4000 
in times 4000 d
in text %0a
out text 2 rsp 6 200 OK%0a3 rsp 6 200 OK%0a4 rsp 6 200 OK%0a5 rsp 6 200 OK%0a
ends 0
call replay relp
open
in text 2 syslog 1 a%0a
out text 2 rsp 6 200 OK%0a
ends 0
call list
out text 0 4294967296 0 2 relp 2000%0a1 4294967296 1 3 relp 2000%0a
out text 2 4294967296 2 4 relp 4000%0a3 4294967296 3 5 relp 4000%0a
out text 4 8589934592 0 2 relp 1%0a
ends 0
same

- more entries than are read at a time, and a write that fails after the first of them
device 28672
call format 1 16384
out text 1 slots of 16384 bytes%0a
ends 0
call replay relp
open
in times 300 %n2 syslog 1 a%0a
out times 300 %n2 rsp 6 200 OK%0a
ends 0
call list
out times 300 %n0 4294967296 %n0 %n2 relp 1%0a
ends 0
same
call list
write 1
out times 256 %n0 4294967296 %n0 %n2 relp 1%0a
ends 72 write fault
same"#;
