//! What an open data region holds.

use crate::{Item, RegionClause};

/// What one item of an open data region counted on entry (OpenACC 3.3, sections 2.6.5 and 2.6.7). The region's exit
/// undoes that and nothing else.
#[derive(Clone, Copy, Debug, PartialEq, Eq)]
pub struct Holding {
    /// The item, as it stood in the region's clauses.
    pub item: Item<RegionClause>,
    /// The number of the block whose structured counter it raised, or `None` where it raised none.
    pub block: Option<u64>,
    /// The host address of the pointer that it attached, and the number of the block that holds it, or `None` where it
    /// attached none.
    pub aim: Option<(u64, u64)>,
}
