//! How a spool changes: groups of entries are added, and the register is written.
mod add;
mod begin;
mod mark;
mod register;
mod take;
mod target;
