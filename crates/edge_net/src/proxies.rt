//! The proxies through which senders come.
ghost use Rattle.std.specs.Prelude.{◌≡◌, ◌↔◌, ◌<◌, [], ◌∷◌, ◌++◌, length, IsTrue, IsSome, IfSome};
ghost use Rattle.std.specs.List.{Contains};
ghost use Rattle.edge_net.specs.Proxies.{canonical, named};

use std::net::{IpAddr, Ipv4Addr};

/// How many proxies may be named.
pub const MOST_PROXIES: usize = 8;

// What stands in a place where no address does.
const NO_ADDRESS: IpAddr = IpAddr::V4(Ipv4Addr::UNSPECIFIED);

/// The addresses of the proxies through which all senders come, or none where senders come by themselves. A connection of such a proxy
/// begins with a head of the PROXY protocol, which is believed.
#[derive(Clone, Copy, PartialEq, Eq)]
pub struct Proxies {
    addresses: [IpAddr; MOST_PROXIES],
    // How many are named. The places behind them have no address.
    count: usize,
}

// The address in its one form.
fn canonical(address: IpAddr) -> IpAddr
    ensures { result ≡ canonical address }
{
    address.to_canonical()
}

// Whether both are one address.
fn is_same(one: IpAddr, other: IpAddr) -> bool
    ensures { IsTrue result ↔ (one ≡ other) }
{
    one == other
}

impl Proxies {
    /// None is named.
    pub fn none() -> Proxies
        ensures { named result ≡ [] }
    {
        Proxies {
            addresses: [NO_ADDRESS; MOST_PROXIES],
            count: 0,
        }
    }

    /// The same and this one, or none where eight are named.
    pub fn with(self, address: IpAddr) -> Option<Proxies>
        ensures named { IfSome result (λ more. named more ≡ named self ++ canonical address ∷ []) }
        ensures room { IsSome result ↔ (length (named self) < 8) }
    {
        let Proxies {
            mut addresses,
            count,
        } = self;
        if count >= MOST_PROXIES {
            return None;
        }
        addresses[count] = canonical(address);
        Some(Proxies {
            addresses,
            count: count + 1,
        })
    }

    /// Whether none is named.
    pub fn is_none(&self) -> bool
        ensures { IsTrue result ↔ (named self.now ≡ []) }
    {
        self.count == 0
    }

    /// Whether this address is named. One of IPv4 that is written as one of IPv6 is the same.
    pub fn have(&self, address: IpAddr) -> bool
        ensures { IsTrue result ↔ Contains (named self.now) (canonical address) }
    {
        let address = canonical(address);
        for at in 0..self.count.min(MOST_PROXIES) {
            if is_same(self.addresses[at], address) {
                return true;
            }
        }
        false
    }
}
