//! Where JSON values stand in bytes: the first value after a place, whether some bytes are one
//! object, an object's members, and the value of one of them. JSON is as RFC 8259 has it, in UTF-8 as RFC 3629 has it, of at
//! most 127 levels of arrays and objects; an escape of a lone surrogate passes. Nothing is decoded and
//! nothing is copied: what the callers get are spans.
//!
//! The contract: each answer is the one that the RFC's grammar allows, which stands as a relation on whole byte
//! lists. A value is the longest at its place; where the bytes end inside one, it is cut, and more bytes could make
//! it a value; else the fault is at the first byte after which none can.
#![tactic(auto)]

mod bytes;
mod characters;
mod named;
mod object;
mod reading;
mod scan;
mod span;
mod token;

pub use named::{Named, named_value};
pub use object::{Member, is_object, members};
pub use scan::first_value;
pub use span::{JsonFault, Span};
