//! Addresses of proxies on the command line.
ghost use Rattle.std.specs.Prelude.{MatchOption};
ghost use Rattle.std.specs.Net.Grammar.{IsIpText};
ghost use Rattle.cli_parts.specs.ProxyWords.{AreNoProxies, AreProxies, IsNoAddress, NamesNext, NamesNoNext};

use edge_net::Proxies;
use std::net::IpAddr;

// The address that the word writes.
fn address_in(word: &str) -> Option<IpAddr>
    ensures { MatchOption result (IsNoAddress word.now) (λ address. IsIpText word.now address) }
{
    match word.parse::<IpAddr>() {
        Ok(address) => Some(address),
        Err(_) => None,
    }
}

// These proxies, and the one whose address the word writes.
fn with_address(proxies: Proxies, word: &str) -> Option<Proxies>
    ensures { MatchOption result (NamesNoNext proxies word.now) (λ more. NamesNext proxies word.now more) }
{
    match address_in(word) {
        Some(address) => proxies.with(address),
        None => None,
    }
}

/// The proxies whose addresses a word writes, of IPv4 or IPv6, with commas between them: one to eight.
pub(crate) fn proxies(word: &str) -> Option<Proxies>
    ensures { MatchOption result (AreNoProxies word.now) (λ proxies. AreProxies word.now proxies) }
{
    let mut named = Proxies::none();
    let mut left = word;
    while let Some((first, more)) = left.split_once(',') {
        match with_address(named, first) {
            Some(next) => named = next,
            None => return None,
        }
        left = more;
    }
    with_address(named, left)
}
