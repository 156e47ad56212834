//! Windows of Lumberjack.

/// Connections: what is answered, how they end, and what is listed then.
pub(crate) const WINDOWS: &str = r#"1 2 7 8192
- no byte
device 20480
call format 2 4096
out text 2 slots of 4096 bytes%0a
ends 0
call replay lumberjack
ends 0
call list
ends 0
same
call list --as json
ends 0
same

- a window of two
device 20480
call format 2 4096
out text 2 slots of 4096 bytes%0a
ends 0
call replay lumberjack
in text 2W%00%00%00%022J%00%00%00%01%00%00%00%07{"a":1}2J%00%00%00%02%00%00%00%02{}
out text 2A%00%00%00%02
ends 0
call list
out text 0 4294967296 0 1 json 7%0a1 4294967296 1 2 json 2%0a
ends 0
same
call list --as json
out text {"a":1}%0a{}%0a
ends 0
same

- a window that another one cuts short
device 20480
call format 2 4096
out text 2 slots of 4096 bytes%0a
ends 0
call replay lumberjack
in text 2W%00%00%00%032J%00%00%00%01%00%00%00%02{}2J%00%00%00%02%00%00%00%02{}2W%00%00%00%012J%00%00%00%01%00%00%00%02{}
out text 2A%00%00%00%022A%00%00%00%01
ends 0
call list
out text 0 4294967296 0 1 json 2%0a1 4294967296 1 2 json 2%0a2 4294967296 2 1 json 2%0a
ends 0
same
call list --as json
out text {}%0a{}%0a{}%0a
ends 0
same

- a window of none, and a frame outside a window
device 20480
call format 2 4096
out text 2 slots of 4096 bytes%0a
ends 0
call replay lumberjack
in text 2W%00%00%00%002J%00%00%00%09%00%00%00%02{}
out text 2A%00%00%00%09
ends 0
call list
out text 0 4294967296 0 9 json 2%0a
ends 0
same
call list --as json
out text {}%0a
ends 0
same

- pairs, with one key twice
device 20480
call format 2 4096
out text 2 slots of 4096 bytes%0a
ends 0
call replay lumberjack
in text 2D%00%00%00%01%00%00%00%02%00%00%00%01a%00%00%00%01x%00%00%00%01a%00%00%00%01y
out text 2A%00%00%00%01
ends 0
call list
out text 0 4294967296 0 1 pairs 20%0a
ends 0
same
call list --as json
out text {"a":"x","a":"y"}%0a
ends 0
same

- no pairs
device 20480
call format 2 4096
out text 2 slots of 4096 bytes%0a
ends 0
call replay lumberjack
in text 2D%00%00%00%01%00%00%00%00
out text 2A%00%00%00%01
ends 0
call list
out text 0 4294967296 0 1 pairs 0%0a
ends 0
same
call list --as json
out text {}%0a
ends 0
same

- a compressed frame after one that is staged
device 20480
call format 2 4096
out text 2 slots of 4096 bytes%0a
ends 0
call replay lumberjack
in text 2W%00%00%00%022J%00%00%00%01%00%00%00%02{}2C
out text 2A%00%00%00%01
ends 66 fault at 19: compressed
call list
out text 0 4294967296 0 1 json 2%0a
ends 0
same
call list --as json
out text {}%0a
ends 0
same

- the end of the input within a frame
device 20480
call format 2 4096
out text 2 slots of 4096 bytes%0a
ends 0
call replay lumberjack
in text 2W%00%00%00%012J%00%00%00%01%00%00%00%02{}2W%00%00%00
out text 2A%00%00%00%01
ends 75 input ended in a frame at 18
call list
out text 0 4294967296 0 1 json 2%0a
ends 0
same
call list --as json
out text {}%0a
ends 0
same

- RELP
device 20480
call format 2 4096
out text 2 slots of 4096 bytes%0a
ends 0
call replay lumberjack
in text 1 open 0%0a
ends 66 fault at 0: version
call list
ends 0
same
call list --as json
ends 0
same"#;

/// Batches: a large window, one without room, and a write that fails.
pub(crate) const BATCHES: &str = r#"8192
- a usual window of Beats: 2,048 frames of 100 bytes are stored and acknowledged as eight batches
device 4206592
call format 2 2097152
out text 2 slots of 2097152 bytes%0a
ends 0
call replay lumberjack
in text 2W%00%00%08%00
in times 2048 2J%w1%00%00%00d7777777777777777777777777777777777777777777777777777777777777777777777777777777777777777777777777777
out text 2A%00%00%01%002A%00%00%02%002A%00%00%03%002A%00%00%04%002A%00%00%05%002A%00%00%06%002A%00%00%07%002A%00%00%08%00
ends 0
call list
out times 2048 %n0 4294967296 %n0 %n1 json 100%0a
ends 0
same

- a batch without room is neither stored in part nor acknowledged
device 16384
call format 1 4096
out text 1 slots of 4096 bytes%0a
ends 0
call replay lumberjack
in text 2J%00%00%00%01%00%00%00%02{}2W%00%00%00%022J%00%00%00%01%00%00%00%02{}2J%00%00%00%02%00%00%0f%c0
in times 4032 7
out text 2A%00%00%00%01
ends 67 group too large: 4101 needed, 4078 at most
call list
out text 0 4294967296 0 1 json 2%0a
ends 0
same

- where a write fails the batch stands
device 16384
call format 1 4096
out text 1 slots of 4096 bytes%0a
ends 0
call replay lumberjack
in text 2W%00%00%00%022J%00%00%00%01%00%00%00%02{}2J%00%00%00%02%00%00%00%02{}2J%00%00%00%03%00%00%00%02{}
write 1
out text 2A%00%00%00%02
ends 72 write fault
call list
out text 0 4294967296 0 1 json 2%0a1 4294967296 1 2 json 2%0a2 4294967296 2 3 json 2%0a
ends 0
same"#;

/// A read fails, with reads of 18 bytes.
pub(crate) const STAGED: &str = r#"18
- where a read fails what is staged is given up
device 16384
call format 1 4096
out text 1 slots of 4096 bytes%0a
ends 0
call replay lumberjack
in text 2W%00%00%00%022J%00%00%00%01%00%00%00%02{}2J%00%00%00%02%00%00%00%02{}2J%00%00%00%03%00%00%00%02{}
read 1
ends 71 read fault
call list
ends 0
same"#;
