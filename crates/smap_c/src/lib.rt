//! The C interface of the project: what `smap.h` declares.
//!
//! A handle is a struct of the caller's, all zero while it is closed. It owns what it opened, and each call
//! on it says by a code what it came to; nothing aborts. Texts go out into a buffer of the caller's, with
//! their whole length. Each export calls a function of the libraries and states its clauses again.
#![tactic(auto)]

mod building;
mod bytes;
mod codes;
mod composing;
mod faults;
mod handles;
mod laws;
mod links;
mod lists;
mod lookups;
mod maps;
mod named;
mod opened;
mod scripts;
mod sources;
mod spelling;
mod threads;
mod traces;
mod version;
mod within;
