//! A request as the checks see it.

use http_edge::Fields;

/// A request that is lent, but for its version: what the checks look at.
#[derive(Clone, Copy)]
pub struct RequestRef<'a> {
    pub method: &'a [u8],
    pub target: &'a [u8],
    pub fields: &'a Fields,
    pub body: &'a [u8],
}
