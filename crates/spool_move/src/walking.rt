//! The walk through the source's entries: a page of them is taken by the target, and then given up by the source.
mod course;
mod giving;
mod pages;
mod taking;

pub(crate) use pages::move_all;
pub use taking::take_one;
