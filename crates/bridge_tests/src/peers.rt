//! Frames of peers that are wrong, where bridge forwards to them.

/// Wrong frames, at least one for each reason that a reader of what a peer sends has: where it is found. Nothing becomes known.
pub(crate) const PEERS: &str = r#"1 8192
- one event
device 20480
call format 2 4096
out text 2 slots of 4096 bytes%0a
ends 0
call replay relp
open
in text 2 syslog 5 hello%0a
out text 2 rsp 6 200 OK%0a
ends 0

- RELP: what comes after the answer to the open, which has 15 bytes
call drain relp
in text 1 rsp 6 200 OK%0ax
out text 1 open 59 relp_version=0%0arelp_software=bridge,1,local%0acommands=syslog%0a2 syslog 5 hello%0a
ends 66 fault at 15: digits
same
call drain relp
in text 1 rsp 6 200 OK%0a2x
out text 1 open 59 relp_version=0%0arelp_software=bridge,1,local%0acommands=syslog%0a2 syslog 5 hello%0a
ends 66 fault at 16: space
same
call drain relp
in text 1 rsp 6 200 OK%0a2 1
out text 1 open 59 relp_version=0%0arelp_software=bridge,1,local%0acommands=syslog%0a2 syslog 5 hello%0a
ends 66 fault at 17: command
same
call drain relp
in text 1 rsp 6 200 OK%0a2 r1
out text 1 open 59 relp_version=0%0arelp_software=bridge,1,local%0acommands=syslog%0a2 syslog 5 hello%0a
ends 66 fault at 18: command
same
call drain relp
in text 1 rsp 6 200 OK%0a2 rsp x
out text 1 open 59 relp_version=0%0arelp_software=bridge,1,local%0acommands=syslog%0a2 syslog 5 hello%0a
ends 66 fault at 21: digits
same
call drain relp
in text 1 rsp 6 200 OK%0a2 rsp 0x
out text 1 open 59 relp_version=0%0arelp_software=bridge,1,local%0acommands=syslog%0a2 syslog 5 hello%0a
ends 66 fault at 22: space
same
call drain relp
in text 1 rsp 6 200 OK%0a2 rsp 131073
out text 1 open 59 relp_version=0%0arelp_software=bridge,1,local%0acommands=syslog%0a2 syslog 5 hello%0a
ends 66 fault at 26: too long
same
call drain relp
in text 1 rsp 6 200 OK%0a2 rsp 0 x
out text 1 open 59 relp_version=0%0arelp_software=bridge,1,local%0acommands=syslog%0a2 syslog 5 hello%0a
ends 66 fault at 23: trailer
same
call drain relp
in text 1 rsp 6 200 OK%0a2 rsp 2 OK%0a
out text 1 open 59 relp_version=0%0arelp_software=bridge,1,local%0acommands=syslog%0a2 syslog 5 hello%0a
ends 66 fault at 15: bad reply
same

- Lumberjack
call drain lumberjack
in text 1
out text 2W%00%00%00%012J%00%00%00%01%00%00%00%13{"message":"hello"}
ends 66 fault at 0: version
same
call drain lumberjack
in text 2W
out text 2W%00%00%00%012J%00%00%00%01%00%00%00%13{"message":"hello"}
ends 66 fault at 1: type
same
call drain lumberjack
in text 2C
out text 2W%00%00%00%012J%00%00%00%01%00%00%00%13{"message":"hello"}
ends 66 fault at 1: compressed
same
call drain lumberjack
in text 2A%00%00%00%02
out text 2W%00%00%00%012J%00%00%00%01%00%00%00%13{"message":"hello"}
ends 66 fault at 0: bad reply
same

- a collector
call drain hec --out-token 11111111-2222-3333-4444-555555555555 --out-channel cccccccc-2222-3333-4444-555555555555
in text HTTP/1.1 x
out text POST /services/collector/event HTTP/1.1%0d%0aHost: collector%0d%0a
out text Authorization: Splunk 11111111-2222-3333-4444-555555555555%0d%0a
out text X-Splunk-Request-Channel: cccccccc-2222-3333-4444-555555555555%0d%0aContent-Type: application/json%0d%0a
out text Content-Length: 17%0d%0a%0d%0a{"event":"hello"}
ends 66 fault at 0: bad head
same
call drain hec --out-token 11111111-2222-3333-4444-555555555555 --out-channel cccccccc-2222-3333-4444-555555555555
in text HTTP/1.1 200 OK%0d%0a
in times 65 X: y%0d%0a
out text POST /services/collector/event HTTP/1.1%0d%0aHost: collector%0d%0a
out text Authorization: Splunk 11111111-2222-3333-4444-555555555555%0d%0a
out text X-Splunk-Request-Channel: cccccccc-2222-3333-4444-555555555555%0d%0aContent-Type: application/json%0d%0a
out text Content-Length: 17%0d%0a%0d%0a{"event":"hello"}
ends 66 fault at 0: bad head
same
call drain hec --out-token 11111111-2222-3333-4444-555555555555 --out-channel cccccccc-2222-3333-4444-555555555555
in text HTTP/1.1 200 OK%0d%0aContent-Length: 1x%0d%0a%0d%0a
out text POST /services/collector/event HTTP/1.1%0d%0aHost: collector%0d%0a
out text Authorization: Splunk 11111111-2222-3333-4444-555555555555%0d%0a
out text X-Splunk-Request-Channel: cccccccc-2222-3333-4444-555555555555%0d%0aContent-Type: application/json%0d%0a
out text Content-Length: 17%0d%0a%0d%0a{"event":"hello"}
ends 66 fault at 0: bad length
same
call drain hec --out-token 11111111-2222-3333-4444-555555555555 --out-channel cccccccc-2222-3333-4444-555555555555
in text HTTP/1.1 200 OK%0d%0aContent-Length: 1048577%0d%0a%0d%0a
out text POST /services/collector/event HTTP/1.1%0d%0aHost: collector%0d%0a
out text Authorization: Splunk 11111111-2222-3333-4444-555555555555%0d%0a
out text X-Splunk-Request-Channel: cccccccc-2222-3333-4444-555555555555%0d%0aContent-Type: application/json%0d%0a
out text Content-Length: 17%0d%0a%0d%0a{"event":"hello"}
ends 66 fault at 0: too long
same
call drain hec --out-token 11111111-2222-3333-4444-555555555555 --out-channel cccccccc-2222-3333-4444-555555555555
in text HTTP/1.1 200 OK%0d%0aTransfer-Encoding: chunked%0d%0a%0d%0azz%0d%0a
out text POST /services/collector/event HTTP/1.1%0d%0aHost: collector%0d%0a
out text Authorization: Splunk 11111111-2222-3333-4444-555555555555%0d%0a
out text X-Splunk-Request-Channel: cccccccc-2222-3333-4444-555555555555%0d%0aContent-Type: application/json%0d%0a
out text Content-Length: 17%0d%0a%0d%0a{"event":"hello"}
ends 66 fault at 47: bad chunk
same
call drain hec --out-token 11111111-2222-3333-4444-555555555555 --out-channel cccccccc-2222-3333-4444-555555555555
in text HTTP/1.1 200 OK%0d%0aContent-Length: 2%0d%0a%0d%0a{}
out text POST /services/collector/event HTTP/1.1%0d%0aHost: collector%0d%0a
out text Authorization: Splunk 11111111-2222-3333-4444-555555555555%0d%0a
out text X-Splunk-Request-Channel: cccccccc-2222-3333-4444-555555555555%0d%0aContent-Type: application/json%0d%0a
out text Content-Length: 17%0d%0a%0d%0a{"event":"hello"}
ends 66 fault at 0: bad reply
same

- bodies of its replies: JSON that is cut, none, or no object; a code or an id that is none; and for a query no answer, one that is
- neither true nor false, and one for another id
call drain hec --out-token 11111111-2222-3333-4444-555555555555 --out-channel cccccccc-2222-3333-4444-555555555555
in text HTTP/1.1 200 OK%0d%0aContent-Length: 9%0d%0a%0d%0a{"code":0
out text POST /services/collector/event HTTP/1.1%0d%0aHost: collector%0d%0a
out text Authorization: Splunk 11111111-2222-3333-4444-555555555555%0d%0a
out text X-Splunk-Request-Channel: cccccccc-2222-3333-4444-555555555555%0d%0aContent-Type: application/json%0d%0a
out text Content-Length: 17%0d%0a%0d%0a{"event":"hello"}
ends 66 fault at 0: bad reply
same
call drain hec --out-token 11111111-2222-3333-4444-555555555555 --out-channel cccccccc-2222-3333-4444-555555555555
in text HTTP/1.1 200 OK%0d%0aContent-Length: 10%0d%0a%0d%0a{"code":x}
out text POST /services/collector/event HTTP/1.1%0d%0aHost: collector%0d%0a
out text Authorization: Splunk 11111111-2222-3333-4444-555555555555%0d%0a
out text X-Splunk-Request-Channel: cccccccc-2222-3333-4444-555555555555%0d%0aContent-Type: application/json%0d%0a
out text Content-Length: 17%0d%0a%0d%0a{"event":"hello"}
ends 66 fault at 0: bad reply
same
call drain hec --out-token 11111111-2222-3333-4444-555555555555 --out-channel cccccccc-2222-3333-4444-555555555555
in text HTTP/1.1 200 OK%0d%0aContent-Length: 12%0d%0a%0d%0a[{"code":0}]
out text POST /services/collector/event HTTP/1.1%0d%0aHost: collector%0d%0a
out text Authorization: Splunk 11111111-2222-3333-4444-555555555555%0d%0a
out text X-Splunk-Request-Channel: cccccccc-2222-3333-4444-555555555555%0d%0aContent-Type: application/json%0d%0a
out text Content-Length: 17%0d%0a%0d%0a{"event":"hello"}
ends 66 fault at 0: bad reply
same
call drain hec --out-token 11111111-2222-3333-4444-555555555555 --out-channel cccccccc-2222-3333-4444-555555555555
in text HTTP/1.1 200 OK%0d%0aContent-Length: 11%0d%0a%0d%0a{"code":-1}
out text POST /services/collector/event HTTP/1.1%0d%0aHost: collector%0d%0a
out text Authorization: Splunk 11111111-2222-3333-4444-555555555555%0d%0a
out text X-Splunk-Request-Channel: cccccccc-2222-3333-4444-555555555555%0d%0aContent-Type: application/json%0d%0a
out text Content-Length: 17%0d%0a%0d%0a{"event":"hello"}
ends 66 fault at 0: bad reply
same
call drain hec --out-token 11111111-2222-3333-4444-555555555555 --out-channel cccccccc-2222-3333-4444-555555555555
in text HTTP/1.1 200 OK%0d%0aContent-Length: 21%0d%0a%0d%0a{"code":0,"ackId":-1}
out text POST /services/collector/event HTTP/1.1%0d%0aHost: collector%0d%0a
out text Authorization: Splunk 11111111-2222-3333-4444-555555555555%0d%0a
out text X-Splunk-Request-Channel: cccccccc-2222-3333-4444-555555555555%0d%0aContent-Type: application/json%0d%0a
out text Content-Length: 17%0d%0a%0d%0a{"event":"hello"}
ends 66 fault at 0: bad reply
same
call drain hec --out-token 11111111-2222-3333-4444-555555555555 --out-channel cccccccc-2222-3333-4444-555555555555
in text HTTP/1.1 200 OK%0d%0aContent-Length: 20%0d%0a%0d%0a{"code":0,"ackId":7}
in text HTTP/1.1 200 OK%0d%0aContent-Length: 10%0d%0a%0d%0a{"code":0}
out text POST /services/collector/event HTTP/1.1%0d%0aHost: collector%0d%0a
out text Authorization: Splunk 11111111-2222-3333-4444-555555555555%0d%0a
out text X-Splunk-Request-Channel: cccccccc-2222-3333-4444-555555555555%0d%0aContent-Type: application/json%0d%0a
out text Content-Length: 17%0d%0a%0d%0a{"event":"hello"}
out text POST /services/collector/ack HTTP/1.1%0d%0aHost: collector%0d%0a
out text Authorization: Splunk 11111111-2222-3333-4444-555555555555%0d%0a
out text X-Splunk-Request-Channel: cccccccc-2222-3333-4444-555555555555%0d%0aContent-Type: application/json%0d%0a
out text Content-Length: 12%0d%0a%0d%0a{"acks":[7]}
ends 66 fault at 59: bad reply
same
call drain hec --out-token 11111111-2222-3333-4444-555555555555 --out-channel cccccccc-2222-3333-4444-555555555555
in text HTTP/1.1 200 OK%0d%0aContent-Length: 20%0d%0a%0d%0a{"code":0,"ackId":7}
in text HTTP/1.1 200 OK%0d%0aContent-Length: 16%0d%0a%0d%0a{"acks":{"7":1}}
out text POST /services/collector/event HTTP/1.1%0d%0aHost: collector%0d%0a
out text Authorization: Splunk 11111111-2222-3333-4444-555555555555%0d%0a
out text X-Splunk-Request-Channel: cccccccc-2222-3333-4444-555555555555%0d%0aContent-Type: application/json%0d%0a
out text Content-Length: 17%0d%0a%0d%0a{"event":"hello"}
out text POST /services/collector/ack HTTP/1.1%0d%0aHost: collector%0d%0a
out text Authorization: Splunk 11111111-2222-3333-4444-555555555555%0d%0a
out text X-Splunk-Request-Channel: cccccccc-2222-3333-4444-555555555555%0d%0aContent-Type: application/json%0d%0a
out text Content-Length: 12%0d%0a%0d%0a{"acks":[7]}
ends 66 fault at 59: bad reply
same
call drain hec --out-token 11111111-2222-3333-4444-555555555555 --out-channel cccccccc-2222-3333-4444-555555555555
in text HTTP/1.1 200 OK%0d%0aContent-Length: 20%0d%0a%0d%0a{"code":0,"ackId":7}
in text HTTP/1.1 200 OK%0d%0aContent-Length: 19%0d%0a%0d%0a{"acks":{"8":true}}
out text POST /services/collector/event HTTP/1.1%0d%0aHost: collector%0d%0a
out text Authorization: Splunk 11111111-2222-3333-4444-555555555555%0d%0a
out text X-Splunk-Request-Channel: cccccccc-2222-3333-4444-555555555555%0d%0aContent-Type: application/json%0d%0a
out text Content-Length: 17%0d%0a%0d%0a{"event":"hello"}
out text POST /services/collector/ack HTTP/1.1%0d%0aHost: collector%0d%0a
out text Authorization: Splunk 11111111-2222-3333-4444-555555555555%0d%0a
out text X-Splunk-Request-Channel: cccccccc-2222-3333-4444-555555555555%0d%0aContent-Type: application/json%0d%0a
out text Content-Length: 12%0d%0a%0d%0a{"acks":[7]}
ends 66 fault at 59: bad reply
same"#;

/// A reply's head without an end.
pub(crate) const LONG: &str = r#"1000 8192
- one event
device 20480
call format 2 4096
out text 2 slots of 4096 bytes%0a
ends 0
call replay relp
open
in text 2 syslog 5 hello%0a
out text 2 rsp 6 200 OK%0a
ends 0

- of 16,384 bytes
call drain hec --out-token 11111111-2222-3333-4444-555555555555 --out-channel cccccccc-2222-3333-4444-555555555555
in text HTTP/1.1 200 OK%0d%0aX: 
in times 16384 y
out text POST /services/collector/event HTTP/1.1%0d%0aHost: collector%0d%0a
out text Authorization: Splunk 11111111-2222-3333-4444-555555555555%0d%0a
out text X-Splunk-Request-Channel: cccccccc-2222-3333-4444-555555555555%0d%0aContent-Type: application/json%0d%0a
out text Content-Length: 17%0d%0a%0d%0a{"event":"hello"}
ends 66 fault at 0: too long
same"#;
