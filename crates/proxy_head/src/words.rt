//! The words of a line.
ghost use Rattle.std.specs.Prelude.{◌≡◌, ℕ, ◌+◌, ◌≤◌, length, MatchOption, MatchResult};
ghost use Rattle.proxy_head.specs.declared.limits.TheConstants.{LAST_CR};
ghost use Rattle.proxy_head.specs.Line.{first_word, more_words, IsAddress, IsNumberUpTo, IsPort, TellsAddresses, AddressFault, LineTells, LineFault};

use crate::fault::{HeadFault, HeadWhy};
use crate::head::{Family, Source};
use std::net::{IpAddr, Ipv4Addr, Ipv6Addr};

/// The word before the first space, or all where there is none, and what follows that space.
fn split(text: &[u8]) -> (&[u8], &[u8])
    ensures word { result.0.now ≡ first_word text.now }
    ensures rest { result.1.now ≡ more_words text.now }
    ensures fits { length result.0.now + length result.1.now ≤ length text.now }
{
    match text.iter().position(|&byte| byte == b' ') {
        Some(at) => (&text[..at], &text[at + 1..]),
        None => (text, &[]),
    }
}

/// The number that decimal digits write, where it is at most 65535.
fn number(text: &[u8]) -> Option<u16>
    ensures { MatchOption result ((n : ℕ) → IsNumberUpTo text.now n → ⊥) (λ n. IsNumberUpTo text.now n) }
{
    let mut value: u32 = 0;
    for byte in text {
        if !byte.is_ascii_digit() {
            return None;
        }
        value = value * 10 + u32::from(*byte - b'0');
        if value > 65_535 {
            return None;
        }
    }
    if text.is_empty() {
        None
    } else {
        Some(value as u16)
    }
}

/// The same, where the first digit of several isn't 0.
fn port(text: &[u8]) -> Option<u16>
    ensures { MatchOption result ((n : ℕ) → IsPort text.now n → ⊥) (λ n. IsPort text.now n) }
{
    if text.len() > 1 && text[0] == b'0' {
        return None;
    }
    number(text)
}

/// The address of the family that the text writes.
fn address(family: Family, text: &[u8]) -> Option<IpAddr>
    ensures { MatchOption result ((ip : IpAddr) → IsAddress family text.now ip → ⊥) (λ ip. IsAddress family text.now ip) }
{
    match family {
        Family::V4 => match Ipv4Addr::parse_ascii(text) {
            Ok(ip) => Some(IpAddr::V4(ip)),
            Err(_) => None,
        },
        Family::V6 => match Ipv6Addr::parse_ascii(text) {
            Ok(ip) => Some(IpAddr::V6(ip)),
            Err(_) => None,
        },
    }
}

/// The source that the words after the protocol tell. The fault is that of the first word that isn't what is due.
fn addresses(family: Family, words: &[u8]) -> Result<Source, HeadFault>
    requires { length words.now ≤ LAST_CR }
    ensures { MatchResult result (λ source. TellsAddresses family words.now source) (λ fault. AddressFault family words.now fault) }
{
    let (source, words) = split(words);
    let Some(ip) = address(family, source) else {
        let (at, why) = (11, HeadWhy::Source);
        return Err(HeadFault { at, why });
    };
    let (destination, words) = split(words);
    if address(family, destination).is_none() {
        let (at, why) = (source.len() + 12, HeadWhy::Destination);
        return Err(HeadFault { at, why });
    }
    let (source_port, last) = split(words);
    let at = source.len() + destination.len() + 13;
    let Some(port_number) = port(source_port) else {
        let why = HeadWhy::SourcePort;
        return Err(HeadFault { at, why });
    };
    if port(last).is_none() {
        let (at, why) = (at + source_port.len() + 1, HeadWhy::DestinationPort);
        return Err(HeadFault { at, why });
    }
    Ok(Source {
        ip,
        port: port_number,
    })
}

/// What the text of a line tells, which stands between `PROXY`, a space and the line's end: the source, or that the proxy doesn't tell it.
pub fn told(text: &[u8]) -> Result<Option<Source>, HeadFault>
    requires { length text.now ≤ LAST_CR }
    ensures { MatchResult result (λ source. LineTells text.now source) (λ fault. LineFault text.now fault) }
{
    let (protocol, words) = split(text);
    let family = if protocol == b"TCP4".as_slice() {
        Family::V4
    } else if protocol == b"TCP6".as_slice() {
        Family::V6
    } else if protocol == b"UNKNOWN".as_slice() {
        return Ok(None);
    } else {
        let (at, why) = (6, HeadWhy::Protocol);
        return Err(HeadFault { at, why });
    };
    match addresses(family, words) {
        Ok(source) => Ok(Some(source)),
        Err(fault) => Err(fault),
    }
}
