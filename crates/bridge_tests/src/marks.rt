//! What is known after a session, also where the disk or the link fails.

/// A slot whose entries are confirmed is used again.
pub(crate) const FREED: &str = r#"7 8192
- two slots that are full, until a peer acknowledges the entry of the first; four calls of the disk begin the second one
device 20480
call format 2 4096
out text 2 slots of 4096 bytes%0a
ends 0
call replay relp
open
in text 2 syslog 2000 
in times 2000 a
in text %0a3 syslog 2003 
in times 2003 b
in text %0a
out text 2 rsp 6 200 OK%0a3 rsp 6 200 OK%0a
outcome 0 text
outcome 76 text
outcome 76 text 0 4294967296 0 2 relp 2000%0a
outcome 91 text 0 4294967296 0 2 relp 2000%0a
outcome 91 text 0 4294967296 0 2 relp 2000%0a1 4294967296 1 3 relp 2003%0a
outcome 106 text 0 4294967296 0 2 relp 2000%0a1 4294967296 1 3 relp 2003%0a
fails disk 0 1 1 1 2 7*3 4
stops
call replay relp
open
in text 2 syslog 2000 
in times 2000 a
in text %0a3 syslog 2003 
in times 2003 b
in text %0a4 syslog 2000 
in times 2000 c
in text %0a
out text 2 rsp 6 200 OK%0a3 rsp 6 200 OK%0a0 serverclose 0%0a
ends 67 spool full: 2038 needed, 2037 free
call drain relp
in text 1 rsp 6 200 OK%0a2 rsp 6 200 OK%0a
out text 1 open 59 relp_version=0%0arelp_software=bridge,1,local%0acommands=syslog%0a
out text 2 syslog 2000 
out times 2000 a
out text %0a3 syslog 2003 
out times 2003 b
out text %0a
leaves text 0 4294967296 0 2 relp 2000%0a1 4294967296 1 3 relp 2003%0a
leaves text 1 4294967296 1 3 relp 2003%0a
stops
fails disk 0 1
ends 68 peer closed
call list
out text 1 4294967296 1 3 relp 2003%0a
ends 0
same
call replay relp
open
in text 2 syslog 2000 
in times 2000 c
in text %0a
out text 2 rsp 6 200 OK%0a
outcome 0 text 1 4294967296 1 3 relp 2003%0a
outcome 76 text 1 4294967296 1 3 relp 2003%0a
outcome 76 text 1 4294967296 1 3 relp 2003%0a2 8589934592 0 2 relp 2000%0a
outcome 91 text 1 4294967296 1 3 relp 2003%0a2 8589934592 0 2 relp 2000%0a
stops
ends 0
holds 12288 text %01%00%00%00%00%00%00%00%03%00%00%00%00%00%00%00%02%01
call list
out text 1 4294967296 1 3 relp 2003%0a2 8589934592 0 2 relp 2000%0a
ends 0
same
"#;

/// Sessions whose disk fails or stops at each of its calls, and whose link fails at each of its own.
pub(crate) const FAULTS: &str = r#"1 8192
- an entry that is acknowledged is pending still, or known
device 20480
call format 2 4096
out text 2 slots of 4096 bytes%0a
ends 0
call replay relp
open
in text 2 syslog 5 hello%0a
out text 2 rsp 6 200 OK%0a
ends 0
call drain relp there
replies text 1 rsp 6 200 OK%0a2 rsp 6 200 OK%0a
leaves text 0 4294967296 0 2 relp 5%0a
leaves text
stops
fails disk 0 1
fails peer_read 0
fails peer_write 0 0 1
fails dial 0
fails output 1
call drain relp there
replies text 1 rsp 6 200 OK%0a2 rsp 6 200 OK%0a
peer_write 1
sent text 1 open 59 relp_version=0%0arelp_software=bridge,1,local%0acommands=syslog%0a
out text 0 confirmed, 1 left%0a
ends 72 write fault
same
call drain relp there
replies text 1 rsp 6 200 OK%0a2 rsp 6 200 OK%0a
peer_write 2
sent text 1 open 59 relp_version=0%0arelp_software=bridge,1,local%0acommands=syslog%0a2 syslog 5 hello%0a
out text 1 confirmed, 0 left%0a
ends 72 write fault
call list
ends 0
same

- a register of the first version, with its cells of ordinal 1 and 2: it is listed without a write, and marks are written in
- cells of the second
device 20480
call format 2 4096
out text 2 slots of 4096 bytes%0a
ends 0
call replay relp
open
in text 2 syslog 5 hello%0a
out text 2 rsp 6 200 OK%0a
ends 0
put 4096 text %01%00%00%00%00%00%00%00%01%00%00%00%11%01%00%00%00%00%00%00%00%00
put 4118 times 8 %00
put 8192 text %01%00%00%00%00%00%00%00%02%00%00%00%11%01%00%00%00%00%00%00%00%01
put 8214 times 8 %00
call list
out text 0 4294967296 0 2 relp 5%0a
ends 0
same
call drain relp
in text 1 rsp 6 200 OK%0a2 rsp 6 200 OK%0a
out text 1 open 59 relp_version=0%0arelp_software=bridge,1,local%0acommands=syslog%0a2 syslog 5 hello%0a3 close 0%0a
leaves text 0 4294967296 0 2 relp 5%0a
leaves text
stops
fails disk 0 1
ends 0
holds 4096 text %01%00%00%00%00%00%00%00%03%00%00%00%13%02%00%00%00%00%00%00%00%01%00%00%00%00%00%00%00%01%00%00
holds 8192 text %01%00%00%00%00%00%00%00%02%00%00%00%11%01%00%00%00%00%00%00%00%01
call list
ends 0
same

- the same of sessions of Lumberjack and with a collector
device 20480
call format 2 4096
out text 2 slots of 4096 bytes%0a
ends 0
call replay relp
open
in text 2 syslog 5 hello%0a
out text 2 rsp 6 200 OK%0a
ends 0
call drain lumberjack there
replies text 2A%00%00%00%01
leaves text 0 4294967296 0 2 relp 5%0a
leaves text
fails disk 0 1
fails peer_read 0
fails peer_write 0
fails dial 0
fails output 1
call drain hec there --out-token 11111111-2222-3333-4444-555555555555 --out-channel cccccccc-2222-3333-4444-555555555555
replies text HTTP/1.1 200 OK%0d%0aContent-Length: 37%0d%0a%0d%0a{"text":"Success","code":0,"ackId":7}
replies text HTTP/1.1 200 OK%0d%0aContent-Length: 19%0d%0a%0d%0a{"acks":{"7":true}}
leaves text 0 4294967296 0 2 relp 5%0a
leaves text
fails disk 0 1
fails peer_read 0
fails peer_write 0 0
fails dial 0
fails output 1
"#;
