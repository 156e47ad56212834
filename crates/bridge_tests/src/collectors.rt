//! Forwarding to Splunk's HTTP Event Collector.

/// Forwarding to a collector.
pub(crate) const COLLECTOR: &str = r#"1 8192
- a collector that doesn't confirm, however often it is asked; then one that does
device 20480
call format 2 4096
out text 2 slots of 4096 bytes%0a
ends 0
call replay relp
open
in text 2 syslog 5 hello%0a
out text 2 rsp 6 200 OK%0a
ends 0
call drain hec --out-token 11111111-2222-3333-4444-555555555555 --polls 2 --out-channel cccccccc-2222-3333-4444-555555555555
in text HTTP/1.1 200 OK%0d%0aContent-Type: application/json%0d%0aContent-Length: 37%0d%0a%0d%0a{"text":"Success","code":0,"ackId":7}
in text HTTP/1.1 200 OK%0d%0aContent-Type: application/json%0d%0aContent-Length: 20%0d%0a%0d%0a{"acks":{"7":false}}
in text HTTP/1.1 200 OK%0d%0aContent-Type: application/json%0d%0aContent-Length: 20%0d%0a%0d%0a{"acks":{"7":false}}
out text POST /services/collector/event HTTP/1.1%0d%0aHost: collector%0d%0a
out text Authorization: Splunk 11111111-2222-3333-4444-555555555555%0d%0a
out text X-Splunk-Request-Channel: cccccccc-2222-3333-4444-555555555555%0d%0aContent-Type: application/json%0d%0a
out text Content-Length: 17%0d%0a%0d%0a{"event":"hello"}
out text POST /services/collector/ack HTTP/1.1%0d%0aHost: collector%0d%0a
out text Authorization: Splunk 11111111-2222-3333-4444-555555555555%0d%0a
out text X-Splunk-Request-Channel: cccccccc-2222-3333-4444-555555555555%0d%0aContent-Type: application/json%0d%0a
out text Content-Length: 12%0d%0a%0d%0a{"acks":[7]}
out text POST /services/collector/ack HTTP/1.1%0d%0aHost: collector%0d%0a
out text Authorization: Splunk 11111111-2222-3333-4444-555555555555%0d%0a
out text X-Splunk-Request-Channel: cccccccc-2222-3333-4444-555555555555%0d%0aContent-Type: application/json%0d%0a
out text Content-Length: 12%0d%0a%0d%0a{"acks":[7]}
ends 69 unconfirmed 7
same
call drain hec there --out-token=11111111-2222-3333-4444-555555555555 --out-channel=cccccccc-2222-3333-4444-555555555555 --polls=2
replies text HTTP/1.1 200 OK%0d%0aContent-Type: application/json%0d%0aContent-Length: 37%0d%0a%0d%0a{"text":"Success","code":0,"ackId":7}
replies text HTTP/1.1 200 OK%0d%0aContent-Type: application/json%0d%0aContent-Length: 20%0d%0a%0d%0a{"acks":{"7":false}}
replies text HTTP/1.1 200 OK%0d%0aContent-Type: application/json%0d%0aContent-Length: 20%0d%0a%0d%0a{"acks":{"7":false}}
sent text POST /services/collector/event HTTP/1.1%0d%0aHost: collector%0d%0a
sent text Authorization: Splunk 11111111-2222-3333-4444-555555555555%0d%0a
sent text X-Splunk-Request-Channel: cccccccc-2222-3333-4444-555555555555%0d%0aContent-Type: application/json%0d%0a
sent text Content-Length: 17%0d%0a%0d%0a{"event":"hello"}
sent text POST /services/collector/ack HTTP/1.1%0d%0aHost: collector%0d%0a
sent text Authorization: Splunk 11111111-2222-3333-4444-555555555555%0d%0a
sent text X-Splunk-Request-Channel: cccccccc-2222-3333-4444-555555555555%0d%0aContent-Type: application/json%0d%0a
sent text Content-Length: 12%0d%0a%0d%0a{"acks":[7]}
sent text POST /services/collector/ack HTTP/1.1%0d%0aHost: collector%0d%0a
sent text Authorization: Splunk 11111111-2222-3333-4444-555555555555%0d%0a
sent text X-Splunk-Request-Channel: cccccccc-2222-3333-4444-555555555555%0d%0aContent-Type: application/json%0d%0a
sent text Content-Length: 12%0d%0a%0d%0a{"acks":[7]}
out text 0 confirmed, 1 left%0a
ends 69 unconfirmed 7
same
call drain hec there --out-token=11111111-2222-3333-4444-555555555555 --out-channel=cccccccc-2222-3333-4444-555555555555
replies text HTTP/1.1 503 Service Unavailable%0d%0aContent-Length: 33%0d%0a%0d%0a{"text":"Server is busy","code":9}
sent text POST /services/collector/event HTTP/1.1%0d%0aHost: collector%0d%0a
sent text Authorization: Splunk 11111111-2222-3333-4444-555555555555%0d%0a
sent text X-Splunk-Request-Channel: cccccccc-2222-3333-4444-555555555555%0d%0aContent-Type: application/json%0d%0a
sent text Content-Length: 17%0d%0a%0d%0a{"event":"hello"}
out text 0 confirmed, 1 left%0a
ends 66 fault at 0: bad reply
same
call drain hec there --out-token=11111111-2222-3333-4444-555555555555 --out-channel=cccccccc-2222-3333-4444-555555555555
replies text HTTP/1.1 503 Service Unavailable%0d%0aContent-Length: 34%0d%0a%0d%0a{"text":"Server is busy","code":9}
sent text POST /services/collector/event HTTP/1.1%0d%0aHost: collector%0d%0a
sent text Authorization: Splunk 11111111-2222-3333-4444-555555555555%0d%0a
sent text X-Splunk-Request-Channel: cccccccc-2222-3333-4444-555555555555%0d%0aContent-Type: application/json%0d%0a
sent text Content-Length: 17%0d%0a%0d%0a{"event":"hello"}
out text 0 confirmed, 1 left%0a
ends 68 peer refused 0 with 9
same
call drain hec --out-channel cccccccc-2222-3333-4444-555555555555 --out-token 11111111-2222-3333-4444-555555555555 --polls 2
in text HTTP/1.1 200 OK%0d%0aContent-Type: application/json%0d%0aContent-Length: 37%0d%0a%0d%0a{"text":"Success","code":0,"ackId":7}
in text HTTP/1.1 200 OK%0d%0aContent-Type: application/json%0d%0aContent-Length: 20%0d%0a%0d%0a{"acks":{"7":false}}
in text HTTP/1.1 200 OK%0d%0aContent-Type: application/json%0d%0aContent-Length: 19%0d%0a%0d%0a{"acks":{"7":true}}
out text POST /services/collector/event HTTP/1.1%0d%0aHost: collector%0d%0a
out text Authorization: Splunk 11111111-2222-3333-4444-555555555555%0d%0a
out text X-Splunk-Request-Channel: cccccccc-2222-3333-4444-555555555555%0d%0aContent-Type: application/json%0d%0a
out text Content-Length: 17%0d%0a%0d%0a{"event":"hello"}
out text POST /services/collector/ack HTTP/1.1%0d%0aHost: collector%0d%0a
out text Authorization: Splunk 11111111-2222-3333-4444-555555555555%0d%0a
out text X-Splunk-Request-Channel: cccccccc-2222-3333-4444-555555555555%0d%0aContent-Type: application/json%0d%0a
out text Content-Length: 12%0d%0a%0d%0a{"acks":[7]}
out text POST /services/collector/ack HTTP/1.1%0d%0aHost: collector%0d%0a
out text Authorization: Splunk 11111111-2222-3333-4444-555555555555%0d%0a
out text X-Splunk-Request-Channel: cccccccc-2222-3333-4444-555555555555%0d%0aContent-Type: application/json%0d%0a
out text Content-Length: 12%0d%0a%0d%0a{"acks":[7]}
ends 0
call list
ends 0
same

- a collector that confirms without an id
device 20480
call format 2 4096
out text 2 slots of 4096 bytes%0a
ends 0
call replay relp
open
in text 2 syslog 5 hello%0a
out text 2 rsp 6 200 OK%0a
ends 0
call drain hec there --out-token 11111111-2222-3333-4444-555555555555 --out-channel cccccccc-2222-3333-4444-555555555555
replies text HTTP/1.1 200 OK%0d%0aContent-Type: application/json%0d%0aContent-Length: 27%0d%0a%0d%0a{"text":"Success","code":0}
sent text POST /services/collector/event HTTP/1.1%0d%0aHost: collector%0d%0a
sent text Authorization: Splunk 11111111-2222-3333-4444-555555555555%0d%0a
sent text X-Splunk-Request-Channel: cccccccc-2222-3333-4444-555555555555%0d%0aContent-Type: application/json%0d%0a
sent text Content-Length: 17%0d%0a%0d%0a{"event":"hello"}
out text 1 confirmed, 0 left%0a
ends 0
call list
ends 0
same

- without a token or a channel it is no command
device 20480
call format 2 4096
out text 2 slots of 4096 bytes%0a
ends 0
call replay relp
open
in text 2 syslog 5 hello%0a
out text 2 rsp 6 200 OK%0a
ends 0
call drain hec there --out-token 11111111-2222-3333-4444-555555555555
ends 64 usage: bridge FILE format|replay|list|drain|serve|load|move
same
call drain hec there --out-channel cccccccc-2222-3333-4444-555555555555
ends 64 usage: bridge FILE format|replay|list|drain|serve|load|move
same
"#;
