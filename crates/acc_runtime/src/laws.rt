//! What the lock guards, by the name of the laws that it keeps.

pub use crate::locked::Locked;
