//! A head of version 2.
ghost use Rattle.std.specs.Prelude.{◌≡◌, ◌+◌, ◌*◌, ◌<◌, ◌≤◌, ◌⊎◌, ◌↔◌, IsTrue, length, Some, slice_index};
ghost use Rattle.std.specs.Net.Addr.{HasPrefix};
ghost use Rattle.proxy_head.specs.Block.{family_kind, kind_of, least_of, number_at, BlockTells, TellsIpv4, TellsIpv6};
ghost use Rattle.proxy_head.specs.Head.{Reads};

use crate::fault::{HeadFault, HeadWhy};
use crate::head::{Head, Kind, Reading, Source};
use crate::limits::SIGNATURE;
use std::net::{IpAddr, Ipv4Addr, Ipv6Addr};

/// Which addresses a block has that was sent for another node, by its family.
#[tactic(auto, unfolding(crate::specs::Block::family_kind))]
fn family_kind(family: u8) -> Option<Kind>
    ensures { result ≡ family_kind family }
{
    match family {
        0x11 => Some(Kind::Ipv4),
        0x21 => Some(Kind::Ipv6),
        0x00 | 0x12 | 0x22 | 0x31 | 0x32 => Some(Kind::Skipped),
        _ => None,
    }
}

/// Which addresses a block has, by its command and its family.
#[tactic(auto, unfolding(crate::specs::Block::kind_of))]
fn kind_of(command: u8, family: u8) -> Option<Kind>
    ensures { result ≡ kind_of command family }
{
    match command {
        0x20 => Some(Kind::Skipped),
        0x21 => family_kind(family),
        _ => None,
    }
}

/// Whether the byte is that of version 2 and LOCAL, or of version 2 and PROXY.
fn is_command(command: u8) -> bool
    ensures { IsTrue result ↔ ((command ≡ 0x20) ⊎ (command ≡ 0x21)) }
{
    matches!(command, 0x20 | 0x21)
}

/// How many bytes the addresses take.
fn least_of(kind: Kind) -> usize
    ensures { result ≡ least_of kind }
{
    match kind {
        Kind::Ipv4 => 12,
        Kind::Ipv6 => 36,
        Kind::Skipped => 0,
    }
}

/// Two bytes as a number in network order.
fn number_at(bytes: &[u8], at: usize) -> u16
    requires { at + 1 < length bytes.now }
    ensures value { result ≡ number_at bytes.now at }
    ensures most { result ≤ slice_index bytes.now at * 256 + 255 }
{
    u16::from(bytes[at]) * 256 + u16::from(bytes[at + 1])
}

/// The source of a block of IPv4.
fn ipv4_source(bytes: &[u8]) -> Source
    requires { 28 ≤ length bytes.now }
    ensures { TellsIpv4 bytes.now result }
{
    let ip = Ipv4Addr::new(bytes[16], bytes[17], bytes[18], bytes[19]);
    let port = number_at(bytes, 24);
    Source {
        ip: IpAddr::V4(ip),
        port,
    }
}

/// The source of a block of IPv6.
fn ipv6_source(bytes: &[u8]) -> Source
    requires { 52 ≤ length bytes.now }
    ensures { TellsIpv6 bytes.now result }
{
    let ip = Ipv6Addr::new(
        number_at(bytes, 16),
        number_at(bytes, 18),
        number_at(bytes, 20),
        number_at(bytes, 22),
        number_at(bytes, 24),
        number_at(bytes, 26),
        number_at(bytes, 28),
        number_at(bytes, 30),
    );
    let port = number_at(bytes, 48);
    Source {
        ip: IpAddr::V6(ip),
        port,
    }
}

/// The source of a block, if it tells one.
fn told(kind: Kind, bytes: &[u8]) -> Option<Source>
    requires { 16 + least_of kind ≤ length bytes.now }
    ensures { BlockTells kind bytes.now result }
{
    match kind {
        Kind::Ipv4 => Some(ipv4_source(bytes)),
        Kind::Ipv6 => Some(ipv6_source(bytes)),
        Kind::Skipped => None,
    }
}

/// What bytes are that begin with a signature and two bytes that say which addresses follow, and have the length.
fn sized(bytes: &[u8], kind: Kind) -> Result<Reading, HeadFault>
    requires starts { HasPrefix bytes.now SIGNATURE }
    requires kind_is { kind_of (slice_index bytes.now 12) (slice_index bytes.now 13) ≡ Some kind }
    requires few { slice_index bytes.now 14 ≤ 15 }
    requires inside { 16 ≤ length bytes.now }
    ensures { Reads bytes.now result }
{
    let block = usize::from(number_at(bytes, 14));
    if block < least_of(kind) {
        let (at, why) = (15, HeadWhy::Short);
        return Err(HeadFault { at, why });
    }
    let len = block + 16;
    if bytes.len() < len {
        return Ok(Reading::More);
    }
    let source = told(kind, bytes);
    Ok(Reading::Whole(Head { source, len }))
}

/// What bytes are that begin with a signature and two bytes that say which addresses follow.
fn kinded(bytes: &[u8], kind: Kind) -> Result<Reading, HeadFault>
    requires starts { HasPrefix bytes.now SIGNATURE }
    requires kind_is { kind_of (slice_index bytes.now 12) (slice_index bytes.now 13) ≡ Some kind }
    requires inside { 14 ≤ length bytes.now }
    ensures { Reads bytes.now result }
{
    if bytes.len() < 15 {
        return Ok(Reading::More);
    }
    if bytes[14] > 15 {
        let (at, why) = (14, HeadWhy::TooLong);
        return Err(HeadFault { at, why });
    }
    if bytes.len() < 16 {
        return Ok(Reading::More);
    }
    sized(bytes, kind)
}

/// What bytes are that begin with a signature.
pub fn read_block(bytes: &[u8]) -> Result<Reading, HeadFault>
    requires { HasPrefix bytes.now SIGNATURE }
    ensures { Reads bytes.now result }
{
    if bytes.len() < 13 {
        return Ok(Reading::More);
    }
    if !is_command(bytes[12]) {
        let (at, why) = (12, HeadWhy::Command);
        return Err(HeadFault { at, why });
    }
    if bytes.len() < 14 {
        return Ok(Reading::More);
    }
    match kind_of(bytes[12], bytes[13]) {
        Some(kind) => kinded(bytes, kind),
        None => {
            let (at, why) = (13, HeadWhy::Family);
            Err(HeadFault { at, why })
        }
    }
}
