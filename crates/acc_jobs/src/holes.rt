//! Arrays whose mappings begin and end by chance on a device that is nearly full.

use crate::desks::Desk;
use crate::items::{one, section};
use acc_base::{EnterClause, ExitClause, Section};
use acc_trials::Chance;
use std::alloc::{AllocError, Global};

/// How many arrays there are, 4,096 bytes apart.
const ARRAYS: u64 = 8_192;

/// How many mappings are ended once the device had no place for one more.
const ENDS: u64 = 12;

/// An array, which has a length that stays, and whether it is mapped.
#[derive(Clone, Copy)]
struct Array {
    section: Section,
    is_live: bool,
}

/// All arrays. The device has no place for all.
#[derive(Drop)]
struct Pool<'a> {
    desk: &'a mut Desk,
    arrays: Vec<Array>,
    // How many mappings are still to be ended, since the device had no place.
    due: u64,
}

/// Makes so many thousand changes on a device of 4 MiB: a mapping begins, or one ends.
pub fn play(desk: &mut Desk, rounds: u64) {
    match arrays(desk.alloc, desk.chance) {
        Ok(arrays) => play_pool(
            &mut Pool {
                desk,
                arrays,
                due: 0,
            },
            rounds,
        ),
        Err(_) => desk.tally.is_short = true,
    }
}

/// The arrays. Each has from 16 to 4,096 bytes, and at most 256 for three in four.
fn arrays(alloc: Global, chance: Chance) -> Result<Vec<Array>, AllocError> {
    let mut chance = chance;
    let mut arrays = Vec::new(alloc);
    for nth in 0..ARRAYS {
        arrays.push(Array {
            section: section(nth.wrapping_mul(4_096), length(&mut chance)),
            is_live: false,
        })?;
    }
    Ok(arrays)
}

fn length(chance: &mut Chance) -> u64 {
    let most = if chance.number() % 4 == 0 { 4_081 } else { 241 };
    (chance.number() % most).wrapping_add(16)
}

fn play_pool(pool: &mut Pool<'_>, rounds: u64) {
    pool.fill_all();
    for _ in 0..rounds {
        for _ in 0..1_000u64 {
            pool.change();
        }
        pool.desk.fold_when_due();
    }
    pool.fill_all();
    for nth in 0..ARRAYS {
        pool.read_back(nth);
    }
}

impl Pool<'_> {
    /// The host writes into all arrays.
    fn fill_all(&mut self) {
        for nth in 0..ARRAYS {
            let array = self.array(nth);
            self.desk.fill(array.section);
        }
    }

    /// Notes what device and host have of an array, and ends its mapping where it is mapped.
    fn read_back(&mut self, nth: u64) {
        let array = self.array(nth);
        self.desk.note_device(array.section);
        if array.is_live {
            self.end(nth, array.section);
        }
        self.desk.note_host(array.section);
    }

    /// Picks an array by chance. Where it is not mapped, it is mapped; where it is, its mapping ends, if ends are due.
    /// One array in eight is noted before that.
    fn change(&mut self) {
        let nth = self.desk.below(ARRAYS);
        let array = self.array(nth);
        if !array.is_live {
            self.bear(nth, array.section);
        } else if self.due > 0 {
            self.due -= 1;
            if nth % 8 == 0 {
                self.desk.note_device(array.section);
            }
            self.end(nth, array.section);
        }
    }

    fn array(&self, nth: u64) -> Array {
        self.arrays.get(nth as usize).copied().unwrap_or(Array {
            section: section(0, 16),
            is_live: false,
        })
    }

    fn set_live(&mut self, nth: u64, is_live: bool) {
        if let Some(array) = self.arrays.get_mut(nth as usize) {
            array.is_live = is_live;
        }
    }

    /// Maps an array. Where the device has no place for it, some ends are due.
    fn bear(&mut self, nth: u64, section: Section) {
        self.desk.enter_data(one(EnterClause::Copyin, section));
        if self.desk.note_presence(section) {
            self.set_live(nth, true);
        } else {
            self.due = ENDS;
        }
    }

    /// Ends the mapping of an array.
    fn end(&mut self, nth: u64, section: Section) {
        self.desk.exit_data(one(ExitClause::Delete, section), None);
        self.set_live(nth, false);
    }
}
