//! The data environment for C, C++ and Rust: a table behind a handle, and each of its calls under a name of its own.
//! `include/lamwiest.h` declares them, and `docs/C.md` says how the library is built, linked and used.
//!
//! Each export takes the table out of its handle, makes one call of it, and puts it back. It returns the outcome: a
//! status, and the fields of a refusal. Its contract says what the call says. It takes a [`Global`](std::alloc::Global)
//! first, for which C passes nothing.
//!
//! Nothing here takes a lock: a handle is for one thread at a time.
#![tactic(auto)]

mod dids;
mod directives;
mod environments;
mod events;
mod handles;
mod holdings;
mod items;
mod loans;
mod lookups;
mod memories;
mod named;
mod pairs;
mod parts;
mod queries;
mod statuses;
mod tables;
mod texts;
mod versions;
