//! The forms of `list`.

/// What is printed for events of each origin, and for long ones.
pub(crate) const LISTS: &str = r#"8192
- an event of each origin
device 16384
call format 1 4096
out text 1 slots of 4096 bytes%0a
ends 0
put 12305 text %01%00%00%001%00%00%00%01%02
put 12339 text %00%00%00%14%00%00%00%01a%00%00%00%01x%00%00%00%01a%00%00%00%01y
put 12363 text %01%00%00%00%1d%00%00%00%01%02
put 12397 text %00%00%00%00
put 12401 text %01%00%00%00$%00%00%00%01%01
put 12435 text %00%00%00%07a "b"%0a%ff
put 12446 text %01%00%00%00%1f%00%00%00%01%05
put 12480 text %00%00%00%02{}
put 12486 text %01%00%00%00&%00%00%00%01%03
put 12520 text %00%00%00%09 {"k": 1}
put 12533 text %01%00%00%00 %00%00%00%01%03
put 12567 text %00%00%00%03[1]
put 12574 text %01%00%00%004%00%00%00%01%04
put 12608 text %00%00%00%17{ "event":"x","time":1}
call list
out text 0 0 0 0 pairs 20%0a1 0 0 0 pairs 0%0a2 0 0 0 relp 7%0a3 0 0 0 raw 2%0a
out text 4 0 0 0 json 9%0a5 0 0 0 json 3%0a6 0 0 0 event 23%0a
ends 0
same
call list --as json
out text {"a":"x","a":"y"}%0a{}%0a{"message":"a \"b\"\n%ef%bf%bd"}%0a
out text {"message":"{}"}%0a {"k": 1}%0a{"message":"[1]"}%0a{ "event":"x","time":1}%0a
ends 0
same
call list --as hec
out text {"event":{"a":"x","a":"y"}}%0a{"event":{}}%0a{"event":"a \"b\"\n%ef%bf%bd"}%0a
out text {"event":"{}"}%0a{"event": {"k": 1}}%0a{"event":"[1]"}%0a{ "event":"x","time":1}%0a
ends 0
same
call list --as relp
out text {"a":"x","a":"y"}%0a{}%0aa "b"%0a%ff%0a{}%0a {"k": 1}%0a[1]%0a{ "event":"x","time":1}%0a
ends 0
same

- texts of the greatest length, of bytes that take six each in a JSON string: lines are written one by one, and
- where a write fails the lines before it stand
device 536576
call format 1 524288
out text 1 slots of 524288 bytes%0a
ends 0
call replay relp
open
in text 2 syslog 131072 
in times 131072 %01
in text %0a
in text 3 syslog 1 x%0a
in text 4 syslog 131072 
in times 131072 %01
in text %0a
out text 2 rsp 6 200 OK%0a3 rsp 6 200 OK%0a4 rsp 6 200 OK%0a
ends 0
call list --as json
out text {"message":"
out times 131072 \u0001
out text "}%0a{"message":"x"}%0a{"message":"
out times 131072 \u0001
out text "}%0a
ends 0
same
call list --as json
write 1
out text {"message":"
out times 131072 \u0001
out text "}%0a
ends 72 write fault
same"#;
