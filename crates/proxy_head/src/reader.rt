//! The head that bytes begin with.
ghost use Rattle.proxy_head.specs.Signs.{Agrees};
ghost use Rattle.proxy_head.specs.Head.{Reads};

use crate::block::read_block;
use crate::fault::{HeadFault, HeadWhy};
use crate::head::Reading;
use crate::limits::{LINE, SIGNATURE};
use crate::line::read_line;

/// How many bytes agree with a sign from the front on.
fn agreed(bytes: &[u8], sign: &[u8]) -> usize
    ensures { Agrees bytes.now sign.now result }
{
    let most = bytes.len().min(sign.len());
    for count in 0..most {
        if bytes[count] != sign[count] {
            return count;
        }
    }
    most
}

/// Reads the head of the PROXY protocol, version 1 or 2, that the bytes which came so far begin with: what it tells, and how many bytes it
/// has. Where more bytes could make them begin with one it says so, as of a line without its end or of no bytes at all; it never asks for
/// more than [`MOST_HEAD`](crate::MOST_HEAD) bytes. An error comes as soon as no bytes after these can do so, or their line is whole and tells
/// nothing.
pub fn read(bytes: &[u8]) -> Result<Reading, HeadFault>
    ensures { Reads bytes.now result }
{
    let line = agreed(bytes, &LINE);
    if line == LINE.len() {
        return read_line(bytes);
    }
    let block = agreed(bytes, &SIGNATURE);
    if block == SIGNATURE.len() {
        return read_block(bytes);
    }
    let at = line.max(block);
    if at == bytes.len() {
        return Ok(Reading::More);
    }
    let why = HeadWhy::Signature;
    Err(HeadFault { at, why })
}
