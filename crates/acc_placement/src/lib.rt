//! Placement: which device addresses are free, and exact first fit in them.
#![tactic(auto)]

mod balances;
mod beside;
mod changes;
mod filling;
mod hole_iter;
mod nodes;
mod placement;
mod rounding;
mod tree;
mod walks;

pub use hole_iter::HoleIter;
pub use placement::Holes;
pub use rounding::rounded;
