//! The writer.
ghost use Rattle.std.specs.Prelude.{◌≡◌, ◌<◌, ◌^◌, ◌∷◌, ◌++◌, length, OnOk, OnErr};
ghost use Rattle.std.specs.Int.{to_be_bytes};
ghost use mir.Syntax.{w32};
ghost use Rattle.lumber_frame.specs.Spelling.{AddsFrame, IsFrame, ack_text, json_text, window_text};

use crate::count::pair_count;
use crate::frame::LumberFrame;
use std::alloc::AllocError;

/// The bytes of a `W` frame of this window size. It takes no memory.
pub fn window_frame(size: u32) -> [u8; 6]
    ensures { result ≡ window_text size }
{
    let n = size.to_be_bytes();
    [b'2', b'W', n[0], n[1], n[2], n[3]]
}

/// The bytes of an `A` frame of this sequence number. It takes no memory.
pub fn ack_frame(seq: u32) -> [u8; 6]
    ensures { result ≡ ack_text seq }
{
    let n = seq.to_be_bytes();
    [b'2', b'A', n[0], n[1], n[2], n[3]]
}

/// Appends the version, a type, two numbers in network order, and a text.
fn append(kind: u8, seq: u32, number: u32, text: &[u8], out: &mut Vec<u8>) -> Result<(), AllocError>
    ensures ok { OnOk result (out.new.items ≡ out.old.items ++ 50 ∷ kind ∷ (to_be_bytes w32 seq ++ (to_be_bytes w32 number ++ text.now))) }
    ensures err { OnErr result (out.new.items ≡ out.old.items) }
{
    let before = out.len();
    let s = seq.to_be_bytes();
    let n = number.to_be_bytes();
    let head = [b'2', kind, s[0], s[1], s[2], s[3], n[0], n[1], n[2], n[3]];
    out.extend_from_slice(&head)?;
    if let Err(error) = out.extend_from_slice(text) {
        out.truncate(before);
        return Err(error);
    }
    Ok(())
}

/// Appends a `J` frame of this sequence number and payload. The payload may be longer than a reader
/// here takes, as long as four bytes write its length. After the error `out` is as before.
pub fn write_json(seq: u32, payload: &[u8], out: &mut Vec<u8>) -> Result<(), AllocError>
    requires { length payload.now < 2 ^ 32 }
    ensures ok { OnOk result (out.new.items ≡ out.old.items ++ json_text seq payload.now) }
    ensures err { OnErr result (out.new.items ≡ out.old.items) }
{
    append(b'J', seq, payload.len() as u32, payload, out)
}

/// Appends the frame, which keeps its limits: a window size of at most 65,536, a text of at most
/// 131,072 bytes, and that of a `D` frame at most 1,024 whole pairs, which are counted. After the error
/// `out` is as before.
pub fn write_frame(frame: &LumberFrame, out: &mut Vec<u8>) -> Result<(), AllocError>
    requires { IsFrame frame.now }
    ensures ok { OnOk result (AddsFrame frame.now out.old.items out.new.items) }
    ensures err { OnErr result (out.new.items ≡ out.old.items) }
{
    match frame {
        LumberFrame::Window { size } => out.extend_from_slice(&window_frame(*size)),
        LumberFrame::Pairs { seq, text } => {
            let text = text.bytes();
            append(b'D', *seq, pair_count(text), text, out)
        }
        LumberFrame::Json { seq, text } => write_json(*seq, text.bytes(), out),
        LumberFrame::Ack { seq } => out.extend_from_slice(&ack_frame(*seq)),
    }
}
