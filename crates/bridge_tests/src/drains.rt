//! Forwarding: over the input and the output, and to a place.

/// What is sent of one event, and of none, and how each ending is told.
pub(crate) const DRAINS: &str = r#"1 8192
- one event by RELP, and then none
device 20480
call format 2 4096
out text 2 slots of 4096 bytes%0a
ends 0
call replay relp
open
in text 2 syslog 5 hello%0a
out text 2 rsp 6 200 OK%0a
ends 0
call drain relp
in text 1 rsp 6 200 OK%0a2 rsp 6 200 OK%0a
out text 1 open 59 relp_version=0%0arelp_software=bridge,1,local%0acommands=syslog%0a2 syslog 5 hello%0a3 close 0%0a
ends 0
call list
ends 0
same
call drain relp
ends 0
same
call drain lumberjack
ends 0
same
call drain relp there
out text 0 confirmed, 0 left%0a
ends 0
same
call drain lumberjack nowhere
out text 0 confirmed, 0 left%0a
ends 0
same
call drain relp there
write 0
ends 72 write fault
same

- one event by Lumberjack
device 20480
call format 2 4096
out text 2 slots of 4096 bytes%0a
ends 0
call replay relp
open
in text 2 syslog 5 hello%0a
out text 2 rsp 6 200 OK%0a
ends 0
call drain lumberjack
in text 2A%00%00%00%01
out text 2W%00%00%00%012J%00%00%00%01%00%00%00%13{"message":"hello"}
ends 0
call list
ends 0
same

- an acknowledgment of what was not sent
device 20480
call format 2 4096
out text 2 slots of 4096 bytes%0a
ends 0
call replay relp
open
in text 2 syslog 5 hello%0a
out text 2 rsp 6 200 OK%0a
ends 0
call drain lumberjack
in text 2A%00%00%00%02
out text 2W%00%00%00%012J%00%00%00%01%00%00%00%13{"message":"hello"}
ends 66 fault at 0: bad reply
same
call drain relp
in text 1 rsp 6 200 OK%0a2 rsp 9 500 error%0a
out text 1 open 59 relp_version=0%0arelp_software=bridge,1,local%0acommands=syslog%0a2 syslog 5 hello%0a
ends 68 peer refused 2 with 500
same
call drain relp
in text 1 rsp 9 500 error%0a
out text 1 open 59 relp_version=0%0arelp_software=bridge,1,local%0acommands=syslog%0a
ends 68 peer refused 1 with 500
same
call drain relp
in text 1 rsp 6 200 OK%0a0 serverclose 0%0a2 rsp 6 200 OK%0a
out text 1 open 59 relp_version=0%0arelp_software=bridge,1,local%0acommands=syslog%0a2 syslog 5 hello%0a
ends 68 peer closed
same
call drain relp
in text 1 rsp 6 200 OK%0aX
out text 1 open 59 relp_version=0%0arelp_software=bridge,1,local%0acommands=syslog%0a2 syslog 5 hello%0a
ends 66 fault at 15: digits
same
call drain relp
out text 1 open 59 relp_version=0%0arelp_software=bridge,1,local%0acommands=syslog%0a
ends 68 peer closed
same
call drain relp
in text 1 rsp 6 200 OK%0a2 rsp 6 200 OK%0a
read 0
out text 1 open 59 relp_version=0%0arelp_software=bridge,1,local%0acommands=syslog%0a
ends 71 read fault
same
call drain relp
write 0
ends 72 write fault
same
call drain relp
in text 1 rsp 6 200 OK%0a2 rsp 6 200 OK%0a
write 1
out text 1 open 59 relp_version=0%0arelp_software=bridge,1,local%0acommands=syslog%0a
ends 72 write fault
same

- an empty spool
device 20480
call format 2 4096
out text 2 slots of 4096 bytes%0a
ends 0
call drain relp
ends 0
same
call drain lumberjack there
out text 0 confirmed, 0 left%0a
ends 0
same

- no spool
device 20480
call drain relp
ends 65 not a spool at 0
same
call drain lumberjack there
ends 65 not a spool at 0
same
"#;

/// Forwarding to a place that is dialed.
pub(crate) const PLACES: &str = r#"8192
- one event by RELP
device 20480
call format 2 4096
out text 2 slots of 4096 bytes%0a
ends 0
call replay relp
open
in text 2 syslog 5 hello%0a
out text 2 rsp 6 200 OK%0a
ends 0
call drain relp nowhere
ends 74 net fault
same
call drain relp there
dial 0
ends 74 net fault
same
call drain relp there
sent text 1 open 59 relp_version=0%0arelp_software=bridge,1,local%0acommands=syslog%0a
out text 0 confirmed, 1 left%0a
ends 68 peer closed
same
call drain relp there
replies text 1 rsp 6 200 OK%0a2 rsp 6 200 OK%0a
peer_read 0
sent text 1 open 59 relp_version=0%0arelp_software=bridge,1,local%0acommands=syslog%0a
out text 0 confirmed, 1 left%0a
ends 71 read fault
same
call drain relp there
peer_write 0
sent text 
out text 0 confirmed, 1 left%0a
ends 72 write fault
same
call drain relp there
replies text 1 rsp 6 200 OK%0a2 rsp 9 500 error%0a
sent text 1 open 59 relp_version=0%0arelp_software=bridge,1,local%0acommands=syslog%0a2 syslog 5 hello%0a
write 0
ends 68 peer refused 2 with 500
same
call drain relp there
in text 1 rsp 6 200 OK%0a2 rsp 6 200 OK%0a
read 0
replies text 1 rsp 6 200 OK%0a2 rsp 6 200 OK%0a
sent text 1 open 59 relp_version=0%0arelp_software=bridge,1,local%0acommands=syslog%0a2 syslog 5 hello%0a3 close 0%0a
out text 1 confirmed, 0 left%0a
ends 0
call list
ends 0
same

- three events by RELP, of which the second alone is acknowledged, and then the others
device 20480
call format 2 4096
out text 2 slots of 4096 bytes%0a
ends 0
call replay relp
open
in text 2 syslog 1 a%0a3 syslog 1 b%0a4 syslog 1 c%0a
out text 2 rsp 6 200 OK%0a3 rsp 6 200 OK%0a4 rsp 6 200 OK%0a
ends 0
call drain relp there
replies text 1 rsp 6 200 OK%0a3 rsp 6 200 OK%0a
sent text 1 open 59 relp_version=0%0arelp_software=bridge,1,local%0acommands=syslog%0a
sent text 2 syslog 1 a%0a3 syslog 1 b%0a4 syslog 1 c%0a
out text 1 confirmed, 2 left%0a
ends 68 peer closed
call list
out text 0 4294967296 0 2 relp 1%0a2 4294967296 2 4 relp 1%0a
ends 0
same
call drain relp there
replies text 1 rsp 6 200 OK%0a2 rsp 6 200 OK%0a3 rsp 6 200 OK%0a
sent text 1 open 59 relp_version=0%0arelp_software=bridge,1,local%0acommands=syslog%0a
sent text 2 syslog 1 a%0a3 syslog 1 c%0a4 close 0%0a
out text 2 confirmed, 0 left%0a
ends 0
call list
ends 0
same

- one event by Lumberjack, and a print that fails
device 20480
call format 2 4096
out text 2 slots of 4096 bytes%0a
ends 0
call replay relp
open
in text 2 syslog 5 hello%0a
out text 2 rsp 6 200 OK%0a
ends 0
call drain lumberjack there
replies text 2A%00%00%00%01
sent text 2W%00%00%00%012J%00%00%00%01%00%00%00%13{"message":"hello"}
write 0
ends 72 write fault
call list
ends 0
same
"#;

/// What is sent of 1,026 entries while the second one alone is acknowledged, and then of those that are left, in order.
pub(crate) const WINDOW: &str = r#"8192
- 1,026 entries
device 4206592
call format 2 2097152
out text 2 slots of 2097152 bytes%0a
ends 0
call replay lumberjack
in text 2W%00%00%04%02
in times 1026 2J%w1%00%00%00%02{}
out text 2A%00%00%01%002A%00%00%02%002A%00%00%03%002A%00%00%04%002A%00%00%04%02
ends 0
call drain relp
in text 1 rsp 6 200 OK%0a3 rsp 6 200 OK%0a
out text 1 open 59 relp_version=0%0arelp_software=bridge,1,local%0acommands=syslog%0a
out times 1025 %n2 syslog 2 {}%0a
ends 68 peer closed
call drain relp
in text 1 rsp 6 200 OK%0a
in times 1025 %n2 rsp 6 200 OK%0a
out text 1 open 59 relp_version=0%0arelp_software=bridge,1,local%0acommands=syslog%0a
out times 1025 %n2 syslog 2 {}%0a
out text 1027 close 0%0a
ends 0
call list
ends 0
same
"#;
