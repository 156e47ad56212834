//! How a device is read: as a whole, and the entries of its slots.
pub(crate) mod bookmark;
pub(crate) mod device;
mod entries;
pub(crate) mod header;
mod judge;
mod pending;
mod slots;
