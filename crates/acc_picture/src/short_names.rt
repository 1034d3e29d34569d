//! Names of sections that are cut where they are long.

use crate::places::NAME_LIMIT;
use acc_base::Section;
use acc_read::{Names, Page};
use std::alloc::Global;

/// Puts the name of a section, cut to `NAME_LIMIT` letters; nothing where no one array has the section.
pub fn put_short_name(page: &mut Page, alloc: Global, names: &Names, section: Section) {
    let Some(spot) = names.within(section) else {
        return;
    };
    let mut name = Page::new(alloc);
    spot.put_part(&mut name, section.len);
    let letters = name.as_slice();
    if letters.len() <= NAME_LIMIT {
        page.bytes(letters);
    } else {
        page.bytes(letters.get(..NAME_LIMIT.saturating_sub(2)).unwrap_or(&[]));
        page.text("..");
    }
}
