//! The arrays of a script by their addresses.

use crate::arrays::Array;
use crate::pages::Page;
use acc_base::Section;
use std::alloc::{AllocError, Global};

/// Where a host address lies: in an array, this many bytes behind its start.
#[derive(Clone, Copy)]
pub struct Spot<'a> {
    /// The name of the array.
    pub name: &'a [u8],
    /// The host addresses of the array.
    pub array: Array,
    /// How many bytes of the array lie before the address.
    pub offset: u64,
}

impl Spot<'_> {
    /// Puts the byte as scripts name it: `a[8]`.
    pub fn put_byte(self, page: &mut Page) {
        page.bytes(self.name);
        page.text("[");
        page.number(self.offset);
        page.text("]");
    }

    /// Puts `len` bytes from here on as scripts name them: `a[8:4]`, or `a` where they are the whole array.
    pub fn put_part(self, page: &mut Page, len: u64) {
        page.bytes(self.name);
        if self.offset == 0 && len == self.array.whole().len {
            return;
        }
        page.text("[");
        page.number(self.offset);
        page.text(":");
        page.number(len);
        page.text("]");
    }
}

/// The arrays that a script has declared, by rising addresses.
pub struct Names {
    arrays: Vec<Array>,
    // The name of each.
    names: Vec<Vec<u8>>,
}

// By hand, so that a crate above does not prove the drops of its parts again.
impl Drop for Names {
    fn drop(self) {
        let Names {
            arrays: _,
            names: _,
        } = self;
    }
}

impl Names {
    /// Returns names of no array yet.
    pub fn new(alloc: Global) -> Names {
        Names {
            arrays: Vec::new(alloc),
            names: Vec::new(alloc),
        }
    }

    /// Adds an array, which lies behind the others.
    ///
    /// # Errors
    ///
    /// [`AllocError`] where there is no memory. Nothing is added then.
    pub fn insert(&mut self, alloc: Global, name: &[u8], array: Array) -> Result<(), AllocError> {
        self.arrays.reserve(1)?;
        self.names.push(Vec::from_slice(alloc, name)?)?;
        Ok(self.arrays.push(array)?)
    }

    /// Returns where a host address lies; `None` where no array has it.
    pub fn spot(&self, address: u64) -> Option<Spot<'_>> {
        let begun = |array: &Array| u64::from(array.start) <= address;
        let place = self.arrays.partition_point(begun).checked_sub(1)?;
        let (name, array) = (self.names.get(place)?, *self.arrays.get(place)?);
        let offset = address.checked_sub(u64::from(array.start))?;
        let is_inside = address < u64::from(array.end);
        is_inside.then_some(Spot {
            name,
            array,
            offset,
        })
    }

    /// Returns where a section begins; `None` where it is empty or does not lie in one array.
    pub fn within(&self, section: Section) -> Option<Spot<'_>> {
        let spot = self.spot(section.start)?;
        let room = u64::from(spot.array.end).saturating_sub(section.start);
        (0 < section.len && section.len <= room).then_some(spot)
    }
}
