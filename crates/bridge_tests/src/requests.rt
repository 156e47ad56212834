//! Requests of the HTTP Event Collector. The token is 11111111-2222-3333-4444-555555555555, the one that uses acks
//! aaaaaaaa-2222-3333-4444-555555555555, and the channel cccccccc-2222-3333-4444-555555555555.

use crate::parts::MEMORY;
use crate::play::Play;
use std::alloc::Global;
use std::mem;
use std::process::Abort;

const EVENT: &str =
    "POST /services/collector/event HTTP/1.1\r\nAuthorization: Splunk 11111111-2222-3333-4444-555555555555";

const ACKED: &str =
    "POST /services/collector/event HTTP/1.1\r\nAuthorization: Splunk aaaaaaaa-2222-3333-4444-555555555555\r\n\
    X-Splunk-Request-Channel: cccccccc-2222-3333-4444-555555555555";

const ASK: &str =
    "POST /services/collector/ack HTTP/1.1\r\nAuthorization: Splunk aaaaaaaa-2222-3333-4444-555555555555\r\n\
    X-Splunk-Request-Channel: cccccccc-2222-3333-4444-555555555555";

const SAYS: &str = "HTTP/1.1 200 OK\r\nContent-Type: application/json";

const REFUSES: &str = "HTTP/1.1 400 Bad Request\r\nContent-Type: application/json";

const BUSY: &str = "HTTP/1.1 503 Service Unavailable\r\nContent-Type: application/json";

const CLOSE: &str = "Connection: close\r\n";

// Adds a request or a reply with a body of this text, by what stands before the body's length and what stands after it.
fn add_message(
    rt: &impl Abort,
    alloc: Global,
    bytes: &mut Vec<u8>,
    start: &str,
    end: &str,
    body: &str,
) {
    let length = body.len();
    let head = format!(in alloc; "{start}\r\nContent-Length: {length}\r\n{end}\r\n").expect(
        rt, MEMORY,
    );
    bytes.extend_from_slice(head.as_bytes()).expect(rt, MEMORY);
    bytes.extend_from_slice(body.as_bytes()).expect(rt, MEMORY);
}

/// Adds a request to the input, or a reply to the output that is wanted; or keeps both for later. Answers whether the step says so.
pub(crate) fn exchange(
    rt: &impl Abort,
    alloc: Global,
    play: &mut Play,
    step: &str,
    body: &str,
) -> bool {
    let (start, end) = match step {
        "event" => (EVENT, ""),
        "acked" => (ACKED, ""),
        "ask" => (ASK, ""),
        "says" => (SAYS, ""),
        "refuses" => (REFUSES, ""),
        "ends_busy" => (BUSY, CLOSE),
        "ends_malformed" => (REFUSES, CLOSE),
        "later" => {
            mem::swap(&mut play.input, &mut play.after);
            mem::swap(&mut play.output, &mut play.answer);
            return true;
        }
        _ => return false,
    };
    if start.starts_with("POST") {
        add_message(rt, alloc, &mut play.input, start, end, body);
    } else {
        add_message(rt, alloc, &mut play.output, start, end, body);
    }
    true
}

/// Requests with the token whose events are durable once they are answered.
pub(crate) const REQUESTS: &str = r#"1 7 8192
- two objects
device 20480
call format 2 4096
out text 2 slots of 4096 bytes%0a
ends 0
call replay hec --token 11111111-2222-3333-4444-555555555555
event {"event":"a"}{"event":{"b":1.50}}
says {"text":"Success","code":0}
ends 0
call list
out text 0 4294967296 0 0 event 13%0a1 4294967296 1 0 event 20%0a
ends 0
same
call list --as=hec
out text {"event":"a"}%0a{"event":{"b":1.50}}%0a
ends 0
same

- an object without an event: none is stored, and the connection goes on
device 20480
call format 2 4096
out text 2 slots of 4096 bytes%0a
ends 0
call replay hec --token=11111111222233334444555555555555
event {"event":"a"} {"evnt":1}
refuses {"text":"Event field is required","code":12,"invalid-event-number":1}
event {"event":"b"}
says {"text":"Success","code":0}
ends 0
call list --as hec
out text {"event":"b"}%0a
ends 0
same

- a body in chunks, with leave
device 20480
call format 2 4096
out text 2 slots of 4096 bytes%0a
ends 0
call replay hec --token 11111111-2222-3333-4444-555555555555
in text POST /services/collector/event HTTP/1.1%0d%0aAuthorization: Splunk 11111111-2222-3333-4444-555555555555%0d%0a
in text Transfer-Encoding: chunked%0d%0aExpect: 100-continue%0d%0a%0d%0a5%0d%0a{"eve%0d%0a8%0d%0ant":"a"}%0d%0a0%0d%0a%0d%0a
out text HTTP/1.1 100 Continue%0d%0a%0d%0a
says {"text":"Success","code":0}
ends 0
call list --as hec
out text {"event":"a"}%0a
ends 0
same

- lines, and none
device 20480
call format 2 4096
out text 2 slots of 4096 bytes%0a
ends 0
call replay hec --token 11111111-2222-3333-4444-555555555555
in text POST /services/collector/raw HTTP/1.1%0d%0aAuthorization: Splunk 11111111-2222-3333-4444-555555555555%0d%0a
in text Content-Length: 3%0d%0a%0d%0a%0d%0a%0a
refuses {"text":"No data","code":5}
in text POST /services/collector/raw HTTP/1.1%0d%0aAuthorization: Splunk 11111111-2222-3333-4444-555555555555%0d%0a
in text Content-Length: 4%0d%0a%0d%0aa%0d%0ab
says {"text":"Success","code":0}
ends 0
call list --as relp
out text a%0ab%0a
ends 0
same

- a head that is none
device 20480
call format 2 4096
out text 2 slots of 4096 bytes%0a
ends 0
call replay hec --token 11111111-2222-3333-4444-555555555555
in text GET%0d%0a
ends_malformed {"text":"Invalid data format","code":6}
ends 66 fault at 0: bad head
call list
ends 0
same"#;

/// Requests with the token that uses acks, and what their ids are told.
pub(crate) const IDS: &str = r#"1 8192
- an id is told true once, in the run that issued it
device 20480
call format 2 4096
out text 2 slots of 4096 bytes%0a
ends 0
call replay hec --ack-token aaaaaaaa-2222-3333-4444-555555555555 --token 11111111-2222-3333-4444-555555555555
acked {"event":"a"}
says {"text":"Success","code":0,"ackId":4294967296}
ask {"acks":[4294967296]}
says {"acks":{"4294967296":true}}
ask {"acks":[4294967296]}
says {"acks":{"4294967296":false}}
event {"event":"b"}
says {"text":"Success","code":0}
acked {"event":"c"}{"event":"d"}
says {"text":"Success","code":0,"ackId":4294967297}
ends 0
call list
out text 0 4294967296 0 4294967296 event 13%0a1 4294967296 1 0 event 13%0a
out text 2 4294967296 2 4294967297 event 13%0a3 4294967296 3 4294967297 event 13%0a
ends 0
same
call replay hec --ack-token aaaaaaaa-2222-3333-4444-555555555555
ask {"acks":[4294967296,4294967297]}
says {"acks":{"4294967296":false,"4294967297":false}}
acked {"event":"e"}
says {"text":"Success","code":0,"ackId":8589934592}
ends 0"#;

/// A spool with no room for a request: the last reply closes, and with an id none follows it.
pub(crate) const FULL: &str = r#"8192
- two events of RELP, and a request for which no slot is free
device 20480
call format 2 4096
out text 2 slots of 4096 bytes%0a
ends 0
call replay relp
open
in text 2 syslog 2000 
in times 2000 x
in text %0a3 syslog 2003 
in times 2003 x
in text %0a
out text 2 rsp 6 200 OK%0a3 rsp 6 200 OK%0a
ends 0
call replay hec --token 11111111-2222-3333-4444-555555555555
in text POST /services/collector/event HTTP/1.1%0d%0aAuthorization: Splunk 11111111-2222-3333-4444-555555555555%0d%0a
in text Content-Length: 2000%0d%0a%0d%0a{"event":"
in times 1988 x
in text "}
ends_busy {"text":"Server is busy","code":9}
ends 67 spool full: 2038 needed, 2037 free
call replay hec --ack-token aaaaaaaa-2222-3333-4444-555555555555
in text POST /services/collector/event HTTP/1.1%0d%0aAuthorization: Splunk aaaaaaaa-2222-3333-4444-555555555555%0d%0a
in text X-Splunk-Request-Channel: cccccccc-2222-3333-4444-555555555555%0d%0aContent-Length: 2000%0d%0a%0d%0a{"event":"
in times 1988 x
in text "}
says {"text":"Success","code":0,"ackId":12884901888}
ends 67 spool full: 2038 needed, 2037 free
call replay hec --ack-token aaaaaaaa-2222-3333-4444-555555555555
ask {"acks":[12884901888]}
says {"acks":{"12884901888":false}}
ends 0"#;

/// A disk that fails or stops at each of its calls while an id is issued, said and settled. In the next run it is unknown.
pub(crate) const STOPS: &str = r#"8192
- the id is said before its events are taken, and told true only after that
device 16384
call format 1 4096
out text 1 slots of 4096 bytes%0a
ends 0
call replay hec --ack-token aaaaaaaa-2222-3333-4444-555555555555
ask {"acks":[4294967296]}
says {"acks":{"4294967296":false}}
later
acked {"event":"a"}
says {"text":"Success","code":0,"ackId":4294967296}
ask {"acks":[4294967296]}
says {"acks":{"4294967296":true}}
outcome 0 text
outcome 117 text
outcome 117 text 0 4294967296 0 4294967296 event 13%0a
outcome 216 text 0 4294967296 0 4294967296 event 13%0a
fails disk 0 1 1 1 2
stops"#;
