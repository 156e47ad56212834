//! A whole JSON frame, read at once.
ghost use Rattle.std.specs.Prelude.{◌≡◌, ◌≤◌, ◌+◌, ◌++◌, drop, length, IfSome};
ghost use Rattle.lumber_frame.specs.declared.field.Whole.TheVariants.{Json};
ghost use Rattle.lumber_frame.specs.declared.side.Side.TheVariants.{Receiver};
ghost use Rattle.lumber_frame.specs.Running.{Ended};

use crate::field::TEXT;
use crate::joined::number;
use crate::side::Side;
use event_form::MOST_TEXT;

/// The sequence number of the JSON frame that the bytes begin with, and how many bytes it has. Nothing
/// where not all of it is there, where it breaks a rule, or where another frame stands there.
fn first_json(bytes: &[u8]) -> Option<(u32, usize)>
    ensures { IfSome result (λ r. Ended Receiver bytes.now (Json r.0) r.1) }
{
    if bytes.len() < TEXT || bytes[0] != b'2' || bytes[1] != b'J' {
        return None;
    }
    let len = number(bytes, 6) as usize;
    if len > MOST_TEXT || len > bytes.len() - TEXT {
        return None;
    }
    Some((number(bytes, 2), TEXT + len))
}

/// The same of the bytes held and the piece, joined, from a place on, where that lies in the piece, on
/// the side that reads such frames.
pub fn json_at(side: Side, held: &[u8], piece: &[u8], begin: usize) -> Option<(u32, usize)>
    requires { begin ≤ length held.now + length piece.now }
    ensures { IfSome result (λ r. Ended side (drop begin (held.now ++ piece.now)) (Json r.0) r.1) }
{
    let Side::Receiver = side else {
        return None;
    };
    if begin < held.len() {
        return None;
    }
    first_json(&piece[begin - held.len()..])
}
