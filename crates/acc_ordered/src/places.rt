//! Where entries stand.

/// Where an entry may stand.
///
/// Any value may be handed in, and no contract speaks of it. A call that takes one and a key looks there first, or right
/// behind it. It searches where that is not the place of the key. No entry stands at the default, so with it such a call
/// searches at once.
#[derive(Clone, Copy, Debug, PartialEq, Eq)]
pub struct Place {
    pub(crate) row: usize,
    pub(crate) at: usize,
}

// One comparison tells that no row has this number.
impl Default for Place {
    fn default() -> Place {
        Place {
            row: usize::MAX,
            at: 0,
        }
    }
}

impl Place {
    /// The place right behind it.
    #[inline]
    pub fn behind(self) -> Place {
        Place {
            row: self.row,
            at: self.at.saturating_add(1),
        }
    }
}
