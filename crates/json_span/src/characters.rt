//! Runs of bytes that stand for themselves in a string, sixteen and sixty-four at a time.
ghost use Rattle.std.specs.Prelude.{◌≡◌, ◌+◌, ◌≤◌, ◌==◌, if◌then◌else◌, length};
ghost use Rattle.std.specs.Bool.{OnTrue};
ghost use Rattle.std.specs.Int.{w64, trailing_zeros};
ghost use Rattle.json_span.specs.Plain.{ArePlain, IsPlainRun};

use crate::bytes::plain;
use std::simd::prelude::*;

/// The place of the lowest bit that is set, or 16.
fn lowest_bit(mask: u64) -> usize
    ensures { result ≡ (if mask == 0 then 16 else trailing_zeros w64 mask) }
{
    if mask == 0 {
        16
    } else {
        mask.trailing_zeros() as usize
    }
}

/// How many of the sixteen bytes from `at` on come before the first that doesn't stand for itself.
#[inline(always)]
fn plain_lanes(bytes: &[u8], at: usize) -> usize
    requires { at + 16 ≤ length bytes.now }
    ensures { IsPlainRun bytes.now at (at + 16) (at + result) }
{
    let lanes = u8x16::from_slice(&bytes[at..]);
    let others = lanes.simd_lt(u8x16::splat(b' '))
        | lanes.simd_eq(u8x16::splat(b'"'))
        | lanes.simd_eq(u8x16::splat(b'\\'))
        | lanes.simd_ge(u8x16::splat(128));
    lowest_bit(others.to_bitmask())
}

/// Whether each of the sixty-four bytes from `at` on stands for itself.
#[inline(always)]
fn are_plain(bytes: &[u8], at: usize) -> bool
    requires { at + 64 ≤ length bytes.now }
    ensures { OnTrue result (ArePlain bytes.now at (at + 64)) }
{
    let lanes = u8x64::from_slice(&bytes[at..]);
    // The controls and the quotation mark are below 33 where this bit is turned round, and no other byte below 128 is.
    let others = (lanes ^ u8x64::splat(2)).simd_lt(u8x64::splat(33))
        | lanes.simd_eq(u8x64::splat(b'\\'))
        | lanes.simd_ge(u8x64::splat(128));
    others.to_bitmask() == 0
}

/// How many bytes from `at` on stand for themselves, in parts of sixty-four that all do.
fn plain_blocks(bytes: &[u8], at: usize) -> usize
    requires { at ≤ length bytes.now }
    ensures order { at ≤ result }
    ensures bound { result ≤ length bytes.now }
    ensures plain { ArePlain bytes.now at result }
{
    let mut end = at;
    while bytes.len() - end >= 64 && are_plain(bytes, end) {
        end += 64;
    }
    end
}

/// The first place from `at` on where a byte stands that doesn't stand for itself in a string.
pub(crate) fn after_plain(bytes: &[u8], at: usize) -> usize
    requires { at ≤ length bytes.now }
    ensures { IsPlainRun bytes.now at (length bytes.now) result }
{
    let mut end = at;
    while bytes.len() - end >= 16 {
        let run = plain_lanes(bytes, end);
        if run < 16 {
            return end + run;
        }
        // Short strings end before this; long ones are passed over faster.
        end = plain_blocks(bytes, end + 16);
    }
    for i in end..bytes.len() {
        if !plain(bytes[i]) {
            return i;
        }
    }
    bytes.len()
}
