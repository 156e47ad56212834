//! Devices and words that are refused, devices that are made spools, and streams that fail.

/// What is refused: nothing is read, written or changed.
pub(crate) const REFUSALS: &str = r#"8192
- zeros: nothing is read, written or changed
device 20480
call
in text 1 open 0%0a
read 0
ends 64 usage: bridge FILE format|replay|list|drain|serve|load|move
same
call format 0 4096
in text 1 open 0%0a
read 0
ends 64 usage: bridge FILE format|replay|list|drain|serve|load|move
same
call replay hec --token 1
in text 1 open 0%0a
read 0
ends 64 usage: bridge FILE format|replay|list|drain|serve|load|move
same
call replay lumber
in text 1 open 0%0a
read 0
ends 64 usage: bridge FILE format|replay|list|drain|serve|load|move
same
call list
in text 1 open 0%0a
read 0
ends 65 not a spool at 0
same
call replay relp
in text 1 open 0%0a
read 0
ends 65 not a spool at 0
same
call replay lumberjack
in text 1 open 0%0a
read 0
ends 65 not a spool at 0
same

- another length than that of the slots
device 100
call format 2 4096
in text 1 open 0%0a
read 0
ends 65 device has 100 bytes, 20480 wanted
same

- a byte too few for the slots that the head names
device 20479
put 0 text RLBSPOOL%00%00%00%02%00%00%00%00%00%00%10%00
put 4096 text %01%00%00%00%00%00%00%00%01%00%00%00%13%02
put 12288 text %01%00%00%00%00%00%00%00%01
call list
in text 1 open 0%0a
read 0
ends 65 not a spool at 8
same

- the last run
device 20480
call format 2 4096
out text 2 slots of 4096 bytes%0a
ends 0
put 4110 text %00%00%00%00%00%1f%ff%ff
call replay relp
in text 1 open 0%0a
read 0
ends 76 run 2097151 was the last
same
call list
in text 1 open 0%0a
read 0
ends 0
same

- a register that is spent
device 20480
call format 2 4096
out text 2 slots of 4096 bytes%0a
ends 0
put 4097 text %80%00%00%00%00%00%00%00
call replay relp
in text 1 open 0%0a
read 0
ends 77 register spent at 9223372036854775808
same
call list
in text 1 open 0%0a
read 0
ends 0
same

- other words of list
device 16384
call format 1 4096
out text 1 slots of 4096 bytes%0a
ends 0
call replay relp
open
in text 2 syslog 5 hello%0a
out text 2 rsp 6 200 OK%0a
ends 0
call list --as lumberjack
in text 1 open 0%0a
read 0
ends 64 usage: bridge FILE format|replay|list|drain|serve|load|move
same
call list --as
in text 1 open 0%0a
read 0
ends 64 usage: bridge FILE format|replay|list|drain|serve|load|move
same
call list json
in text 1 open 0%0a
read 0
ends 64 usage: bridge FILE format|replay|list|drain|serve|load|move
same
call list --as json hec
in text 1 open 0%0a
read 0
ends 64 usage: bridge FILE format|replay|list|drain|serve|load|move
same"#;

/// What stands before a `format` is gone after it; a write fails.
pub(crate) const STREAMS: &str = r#"1 8192
- a spool made anew whatever stood there, where its line is not printed too
device 20480
call format 2 4096
out text 2 slots of 4096 bytes%0a
ends 0
call replay relp
open
in text 2 syslog 5 hello%0a3 close 0%0a
out text 2 rsp 6 200 OK%0a3 rsp 0%0a0 serverclose 0%0a
ends 0
call format 02 4096
in text 1 open 0%0a
out text 2 slots of 4096 bytes%0a
ends 0
call list
ends 0
same
call replay relp
open
in text 2 syslog 5 hello%0a3 close 0%0a
out text 2 rsp 6 200 OK%0a3 rsp 0%0a0 serverclose 0%0a
ends 0
call list
out text 0 4294967296 0 2 relp 5%0a
ends 0
same
call format 02 4096
in text 1 open 0%0a
write 0
ends 72 write fault
call list
ends 0
same
put 0 times 20480 %01
call format 02 4096
in text 1 open 0%0a
out text 2 slots of 4096 bytes%0a
ends 0
call list
ends 0
same
put 0 times 20480 %01
call format 02 4096
in text 1 open 0%0a
write 0
ends 72 write fault
call list
ends 0
same

- the second write fails
device 16384
call format 1 4096
out text 1 slots of 4096 bytes%0a
ends 0
call replay relp
open
in text 2 syslog 5 hello%0a3 close 0%0a
write 1
ends 72 write fault
call list
out text 0 4294967296 0 2 relp 5%0a
ends 0
same"#;

/// A read fails, with reads of one byte.
pub(crate) const SECOND_READ: &str = r#"1
- the second read of one byte fails
device 16384
call format 1 4096
out text 1 slots of 4096 bytes%0a
ends 0
call replay relp
in text 1 open 50 relp_version=0%0a
read 1
ends 71 read fault
call list
ends 0
same"#;

/// A spool with no number left for an entry: how a connection of each protocol ends. Nothing is stored.
pub(crate) const SPENT: &str = r#"8192
- the cursor is 2^63, and so is the first number of the slot
device 16384
call format 1 4096
out text 1 slots of 4096 bytes%0a
ends 0
put 4118 text %80
put 12297 text %80
call list
ends 0
same
call replay relp
open
in text 2 syslog 5 hello%0a
out text 0 serverclose 0%0a
ends 77 history spent at 9223372036854775808
keeps 12288 16384
call replay lumberjack
in text 2J%00%00%00%01%00%00%00%02{}
ends 77 history spent at 9223372036854775808
keeps 12288 16384
call replay hec --token 11111111-2222-3333-4444-555555555555
event {"event":"a"}
ends_busy {"text":"Server is busy","code":9}
ends 77 history spent at 9223372036854775808
keeps 12288 16384
call list
ends 0
same"#;
