//! Calls over a disk that fails or stops, and over streams that fail.

/// What is left of an event, of two batches, and of a register whose version is raised.
pub(crate) const FAULTS: &str = r#"8192
- an event is stored by four calls of the disk: where the third one fails, which writes the gate, it is not stored,
- and where the fourth fails, a sync, it is
device 16384
call format 1 4096
out text 1 slots of 4096 bytes%0a
ends 0
call replay relp
open
in text 2 syslog 5 hello%0a
out text 2 rsp 6 200 OK%0a
outcome 0 text
outcome 76 text
outcome 76 text 0 4294967296 0 2 relp 5%0a
outcome 91 text 0 4294967296 0 2 relp 5%0a
fails disk 0 1 1 1 2
stops

- a batch is one group
device 16384
call format 1 4096
out text 1 slots of 4096 bytes%0a
ends 0
call replay lumberjack
in text 2W%00%00%00%022J%00%00%00%01%00%00%00%02{}2J%00%00%00%02%00%00%00%02{}2J%00%00%00%03%00%00%00%02{}
out text 2A%00%00%00%022A%00%00%00%03
outcome 0 text
outcome 0 text 0 4294967296 0 1 json 2%0a1 4294967296 1 2 json 2%0a
outcome 6 text 0 4294967296 0 1 json 2%0a1 4294967296 1 2 json 2%0a
outcome 6 text 0 4294967296 0 1 json 2%0a1 4294967296 1 2 json 2%0a2 4294967296 2 3 json 2%0a
outcome 12 text 0 4294967296 0 1 json 2%0a1 4294967296 1 2 json 2%0a2 4294967296 2 3 json 2%0a
fails disk 0 0 0 1 2 2 2 3
stops

- a device as the first version left it after one event, with cells of version 1 of ordinal 1 and run 0, and of
- ordinal 2 and run 1; the next run writes a cell of version 2, of ordinal 3 and run 2
device 16384
call format 1 4096
out text 1 slots of 4096 bytes%0a
ends 0
call replay relp
open
in text 2 syslog 5 hello%0a
out text 2 rsp 6 200 OK%0a
ends 0
put 4096 text %01%00%00%00%00%00%00%00%01%00%00%00%11%01%00%00%00%00%00%00%00%00
put 4118 times 8 %00
put 8192 text %01%00%00%00%00%00%00%00%02%00%00%00%11%01%00%00%00%00%00%00%00%01
put 8214 times 8 %00
call list
out text 0 4294967296 0 2 relp 5%0a
ends 0
same
call replay relp
outcome 0 text 0 4294967296 0 2 relp 5%0a
fails disk 0
stops
call replay relp
open
in text 2 syslog 2 hi%0a
out text 2 rsp 6 200 OK%0a
ends 0
holds 4096 text %01%00%00%00%00%00%00%00%03%00%00%00%13%02%00%00%00%00%00%00%00%02
holds 4118 times 10 %00
holds 8192 text %01%00%00%00%00%00%00%00%02%00%00%00%11%01%00%00%00%00%00%00%00%01
holds 8214 times 8 %00
call list
out text 0 4294967296 0 2 relp 5%0a1 8589934592 0 2 relp 2%0a
ends 0
same"#;

/// One call of the disk, the input or the output fails, in a session of each protocol, with reads of one byte.
pub(crate) const STREAMS: &str = r#"1
- RELP: the frames end at 61, 78 and 88
device 16384
call format 1 4096
out text 1 slots of 4096 bytes%0a
ends 0
call replay relp
open
in text 2 syslog 5 hello%0a3 close 0%0a
out text 2 rsp 6 200 OK%0a3 rsp 0%0a0 serverclose 0%0a
outcome 0 text
outcome 76 text
outcome 76 text 0 4294967296 0 2 relp 5%0a
outcome 91 text 0 4294967296 0 2 relp 5%0a
outcome 115 text 0 4294967296 0 2 relp 5%0a
fails disk 0 1 1 1 2
fails input 61*0 17*1 10*3
fails output 0 2 3

- Lumberjack: the window ends at 35, and then its input
device 16384
call format 1 4096
out text 1 slots of 4096 bytes%0a
ends 0
call replay lumberjack
in text 2W%00%00%00%022J%00%00%00%01%00%00%00%07{"a":1}2J%00%00%00%02%00%00%00%02{}
out text 2A%00%00%00%02
outcome 0 text
outcome 0 text 0 4294967296 0 1 json 7%0a1 4294967296 1 2 json 2%0a
outcome 6 text 0 4294967296 0 1 json 7%0a1 4294967296 1 2 json 2%0a
fails disk 0 0 0 0 1
fails input 35*0 2
fails output 1

- the collector: the requests end at 200 and 406, and then the input; the reply with the id is written before the events are stored
device 16384
call format 1 4096
out text 1 slots of 4096 bytes%0a
ends 0
call replay hec --ack-token aaaaaaaa-2222-3333-4444-555555555555
ask {"acks":[4294967296]}
says {"acks":{"4294967296":false}}
later
acked {"event":"a"}
says {"text":"Success","code":0,"ackId":4294967296}
ask {"acks":[4294967296]}
says {"acks":{"4294967296":true}}
outcome 0 text
outcome 117 text
outcome 117 text 0 4294967296 0 4294967296 event 13%0a
outcome 216 text 0 4294967296 0 4294967296 event 13%0a
fails disk 0 1 1 1 2
fails input 200*0 206*2 3
fails output 0 2

- the same with an id that is asked for again, lines, and the id of these: the requests end at 200, 406, 612, 801 and 1,007, and then
- the input; where the disk fails as the lines are stored, their reply with the id was written before, and the one that answers for it isn't
device 16384
call format 1 4096
out text 1 slots of 4096 bytes%0a
ends 0
call replay hec --token 11111111-2222-3333-4444-555555555555 --ack-token aaaaaaaa-2222-3333-4444-555555555555
acked {"event":"a"}
says {"text":"Success","code":0,"ackId":4294967296}
ask {"acks":[4294967296]}
says {"acks":{"4294967296":true}}
ask {"acks":[4294967296]}
says {"acks":{"4294967296":false}}
in text POST /services/collector/raw HTTP/1.1%0d%0aAuthorization: Splunk aaaaaaaa-2222-3333-4444-555555555555%0d%0a
in text X-Splunk-Request-Channel: cccccccc-2222-3333-4444-555555555555%0d%0aContent-Length: 5%0d%0a%0d%0ap%0d%0a%0aq
says {"text":"Success","code":0,"ackId":4294967297}
ask {"acks":[4294967297]}
says {"acks":{"4294967297":true}}
outcome 0 text
outcome 117 text
outcome 117 text 0 4294967296 0 4294967296 event 13%0a
outcome 216 text 0 4294967296 0 4294967296 event 13%0a
outcome 316 text 0 4294967296 0 4294967296 event 13%0a
outcome 433 text 0 4294967296 0 4294967296 event 13%0a
outcome 433 text 0 4294967296 0 4294967296 event 13%0a1 4294967296 1 4294967297 raw 1%0a2 4294967296 2 4294967297 raw 1%0a
outcome 532 text 0 4294967296 0 4294967296 event 13%0a1 4294967296 1 4294967297 raw 1%0a2 4294967296 2 4294967297 raw 1%0a
fails disk 0 1 1 1 2 5 5 5 6
fails input 200*0 206*2 206*3 189*4 206*6 7
fails output 0 2 3 4 6
stops"#;
