//! Inputs that end within a frame, and frames that are wrong.

/// A session of RELP whose input ends after each of its bytes: within a frame, or where one ends.
pub(crate) const CUTS: &str = r#"1 8192
- three frames
device 16384
call format 1 4096
out text 1 slots of 4096 bytes%0a
ends 0
call replay relp
open
in text 2 syslog 5 hello%0a3 close 0%0a
out text 2 rsp 6 200 OK%0a3 rsp 0%0a0 serverclose 0%0a
outcome 0 text
outcome 76 text
outcome 91 text 0 4294967296 0 2 relp 5%0a
outcome 115 text 0 4294967296 0 2 relp 5%0a
cuts 61 78 88"#;

/// Wrong frames, at least one for each reason that a reader of what senders send has: where it is found, and what is answered; and wrong
/// bodies of requests, at least one for each reason that a reader of these has: what is answered. Nothing is stored.
pub(crate) const WRONG: &str = r#"1 8192
- RELP
device 16384
call format 1 4096
out text 1 slots of 4096 bytes%0a
ends 0
call replay relp
in text 1234567890
ends 66 fault at 9: digits
call replay relp
in text 1 
in times 33 a
ends 66 fault at 34: command
call replay relp
in text 1 open x
ends 66 fault at 7: digits
call replay relp
in text 1 open 0x
ends 66 fault at 8: space
call replay relp
in text 1 open 0 x
ends 66 fault at 9: trailer
call replay relp
in text x
ends 66 fault at 0: digits
call replay relp
in text 1x
ends 66 fault at 1: space
call replay relp
in text 1 1
ends 66 fault at 2: command
call replay relp
in text 1 a1
ends 66 fault at 3: command
call replay relp
in text 1 open 0000000000
ends 66 fault at 16: digits
call replay relp
in text 1 syslog 131073
ends 66 fault at 14: too long
call replay relp
in text 1 open 1%0a
ends 66 fault at 8: space
call replay relp
in text 1 open 1 ax
ends 66 fault at 10: trailer
call list
ends 0
same

- Lumberjack
device 16384
call format 1 4096
out text 1 slots of 4096 bytes%0a
ends 0
call replay lumberjack
in text 1
ends 66 fault at 0: version
call replay lumberjack
in text 2X
ends 66 fault at 1: type
call replay lumberjack
in text 2C
ends 66 fault at 1: compressed
call replay lumberjack
in text 2A%00%00%00%01
ends 66 fault at 1: ack from writer
call replay lumberjack
in text 2W%00%01%00%01
ends 66 fault at 2: too many
call replay lumberjack
in text 2D%00%00%00%01%00%00%04%01
ends 66 fault at 6: too many
call replay lumberjack
in text 2J%00%00%00%01%00%02%00%01
ends 66 fault at 6: too long
call replay lumberjack
in text 2D%00%00%00%01%00%00%00%01%00%02%00%00
ends 66 fault at 10: too long
call replay lumberjack
in text 2D%00%00%00%01%00%00%00%01%00%00%00%00%00%01%ff%f9
ends 66 fault at 14: too long
call list
ends 0
same

- the collector
device 16384
call format 1 4096
out text 1 slots of 4096 bytes%0a
ends 0
call replay hec --token 11111111-2222-3333-4444-555555555555
in text POST /services/collector HTTP/1.1%0d%0aContent-Length: 1x%0d%0a%0d%0a
ends_malformed {"text":"Invalid data format","code":6}
ends 66 fault at 0: bad length
call replay hec --token 11111111-2222-3333-4444-555555555555
in text POST /services/collector HTTP/1.1%0d%0aContent-Length: 1048577%0d%0a%0d%0a
ends_malformed {"text":"Invalid data format","code":6}
ends 66 fault at 0: too long
call replay hec --token 11111111-2222-3333-4444-555555555555
in text POST /services/collector HTTP/1.1%0d%0aTransfer-Encoding: chunked%0d%0a%0d%0azz%0d%0a
ends_malformed {"text":"Invalid data format","code":6}
ends 66 fault at 65: bad chunk
call replay hec --token 11111111-2222-3333-4444-555555555555
in text GET / HTTP/1.1%0d%0a
in times 65 X: y%0d%0a
ends_malformed {"text":"Invalid data format","code":6}
ends 66 fault at 0: bad head
call replay hec --token 11111111-2222-3333-4444-555555555555
in text POST /services/collector HTTP/1.1%0d%0aContent-Length: 1%0d%0aContent-Length: 1%0d%0a%0d%0a
ends_malformed {"text":"Invalid data format","code":6}
ends 66 fault at 0: bad length
call replay hec --token 11111111-2222-3333-4444-555555555555
in text POST /services/collector HTTP/1.1%0d%0aContent-Length: 1%0d%0aTransfer-Encoding: chunked%0d%0a%0d%0a
ends_malformed {"text":"Invalid data format","code":6}
ends 66 fault at 0: bad length
call replay hec --token 11111111-2222-3333-4444-555555555555
in text POST /services/collector HTTP/1.1%0d%0aTransfer-Encoding: chunked%0d%0aTransfer-Encoding: chunked%0d%0a%0d%0a
ends_malformed {"text":"Invalid data format","code":6}
ends 66 fault at 0: bad length
call replay hec --token 11111111-2222-3333-4444-555555555555
in text POST /services/collector HTTP/1.0%0d%0aTransfer-Encoding: chunked%0d%0a%0d%0a
ends_malformed {"text":"Invalid data format","code":6}
ends 66 fault at 0: bad length
call replay hec --token 11111111-2222-3333-4444-555555555555
in text POST /services/collector HTTP/1.1%0d%0aTransfer-Encoding: gzip%0d%0a%0d%0a
ends_malformed {"text":"Invalid data format","code":6}
ends 66 fault at 0: bad length
call replay hec --token 11111111-2222-3333-4444-555555555555
in text POST /services/collector HTTP/1.1%0d%0aTransfer-Encoding: chunked%0d%0a%0d%0a100001%0d%0a
ends_malformed {"text":"Invalid data format","code":6}
ends 66 fault at 0: too long
call replay hec --token 11111111-2222-3333-4444-555555555555
in text POST /services/collector HTTP/1.1%0d%0aTransfer-Encoding: chunked%0d%0a%0d%0a1;
in times 1022 x
ends_malformed {"text":"Invalid data format","code":6}
ends 66 fault at 65: bad chunk
call replay hec --token 11111111-2222-3333-4444-555555555555
in text POST /services/collector HTTP/1.1%0d%0aTransfer-Encoding: chunked%0d%0a%0d%0a1%0d%0aaX
ends_malformed {"text":"Invalid data format","code":6}
ends 66 fault at 69: bad chunk
call replay hec --token 11111111-2222-3333-4444-555555555555
in text POST /services/collector HTTP/1.1%0d%0aTransfer-Encoding: chunked%0d%0a%0d%0a0%0d%0aa b%0d%0a%0d%0a
ends_malformed {"text":"Invalid data format","code":6}
ends 66 fault at 68: bad chunk
call replay hec --token 11111111-2222-3333-4444-555555555555
in text POST /services/collector HTTP/1.1%0d%0aTransfer-Encoding: chunked%0d%0a%0d%0a0%0d%0a
in times 65 X: y%0d%0a
ends_malformed {"text":"Invalid data format","code":6}
ends 66 fault at 68: bad chunk
call replay hec --token 11111111-2222-3333-4444-555555555555
in text GET /services/collector/health HTTP/1.1%0d%0a%0d%0aGET%0d%0a
says {"text":"HEC is healthy","code":17}
ends_malformed {"text":"Invalid data format","code":6}
ends 66 fault at 43: bad head
call list
ends 0
same

- bodies of events: none; a value that is cut, one that is none, one that is no object, and one too deep; an object without an event, and
- one whose event is blank; of lines: none; and of ids: a query that is cut, one that is no object, one without ids, and one of an id that
- is none. The connection goes on
device 16384
call format 1 4096
out text 1 slots of 4096 bytes%0a
ends 0
call replay hec --token 11111111-2222-3333-4444-555555555555 --ack-token aaaaaaaa-2222-3333-4444-555555555555
event 
refuses {"text":"No data","code":5}
event {"event":
refuses {"text":"Invalid data format","code":6,"invalid-event-number":0}
event {"event":1}{"event":x}
refuses {"text":"Invalid data format","code":6,"invalid-event-number":1}
event 1
refuses {"text":"Invalid data format","code":6,"invalid-event-number":0}
in text POST /services/collector/event HTTP/1.1%0d%0aAuthorization: Splunk 11111111-2222-3333-4444-555555555555%0d%0a
in text Content-Length: 264%0d%0a%0d%0a{"event":
in times 127 [
in times 127 ]
in text }
refuses {"text":"Invalid data format","code":6,"invalid-event-number":0}
event {"evnt":1}
refuses {"text":"Event field is required","code":12,"invalid-event-number":0}
event {"event":1}{"event":""}
refuses {"text":"Event field cannot be blank","code":13,"invalid-event-number":1}
event {"event":null}
refuses {"text":"Event field cannot be blank","code":13,"invalid-event-number":0}
in text POST /services/collector/raw HTTP/1.1%0d%0aAuthorization: Splunk 11111111-2222-3333-4444-555555555555%0d%0a
in text Content-Length: 2%0d%0a%0d%0a%0d%0a
refuses {"text":"No data","code":5}
ask {"acks":[1
refuses {"text":"Invalid data format","code":6}
ask [1]
refuses {"text":"Invalid data format","code":6}
ask {"ids":[1]}
refuses {"text":"Invalid data format","code":6}
ask {"acks":[-1]}
refuses {"text":"Invalid data format","code":6}
ends 0
call list
ends 0
same"#;

/// A head and a trailer without an end: the fault comes with the byte that is one too many, whatever the pieces. And bodies with an event
/// that is too long, or with one too many.
pub(crate) const LONG: &str = r#"1000 8192
- of 16,384 bytes
device 16384
call format 1 4096
out text 1 slots of 4096 bytes%0a
ends 0
call replay hec --token 11111111-2222-3333-4444-555555555555
in text GET / HTTP/1.1%0d%0aX: 
in times 16384 y
ends_malformed {"text":"Invalid data format","code":6}
ends 66 fault at 0: too long
call replay hec --token 11111111-2222-3333-4444-555555555555
in text POST /services/collector HTTP/1.1%0d%0aTransfer-Encoding: chunked%0d%0a%0d%0a0%0d%0aX: 
in times 16381 y
ends_malformed {"text":"Invalid data format","code":6}
ends 66 fault at 68: bad chunk
call list
ends 0
same

- bodies: an object of more than 131,072 bytes, one after 10,000, a line of more than 131,072 bytes, and one after 10,000
device 16384
call format 1 4096
out text 1 slots of 4096 bytes%0a
ends 0
call replay hec --token 11111111-2222-3333-4444-555555555555
in text POST /services/collector/event HTTP/1.1%0d%0aAuthorization: Splunk 11111111-2222-3333-4444-555555555555%0d%0a
in text Content-Length: 131073%0d%0a%0d%0a{"event":"
in times 131061 x
in text "}
refuses {"text":"Invalid data format","code":6,"invalid-event-number":0}
in text POST /services/collector/event HTTP/1.1%0d%0aAuthorization: Splunk 11111111-2222-3333-4444-555555555555%0d%0a
in text Content-Length: 110011%0d%0a%0d%0a
in times 10001 {"event":1}
refuses {"text":"Invalid data format","code":6,"invalid-event-number":10000}
in text POST /services/collector/raw HTTP/1.1%0d%0aAuthorization: Splunk 11111111-2222-3333-4444-555555555555%0d%0a
in text Content-Length: 131075%0d%0a%0d%0aa%0a
in times 131073 x
refuses {"text":"Invalid data format","code":6,"invalid-event-number":1}
in text POST /services/collector/raw HTTP/1.1%0d%0aAuthorization: Splunk 11111111-2222-3333-4444-555555555555%0d%0a
in text Content-Length: 20002%0d%0a%0d%0a
in times 10001 x%0a
refuses {"text":"Invalid data format","code":6,"invalid-event-number":10000}
ends 0
call list
ends 0
same"#;
