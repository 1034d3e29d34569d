//! Statements by chance.

use crate::chances::Chance;
use acc_read::{ItemKind, Page};
use std::alloc::Global;

/// The arrays. The last one has pointers, and nothing else is written there.
const ARRAYS: &[&str] = &["a", "b", "c", "d", "s"];

/// How many of them have bytes.
const BYTES: u64 = 4;

/// How many pointers the last one has.
const POINTERS: u64 = 4;

/// A clause up to its first item, and what its items are.
type ClauseOpening = (&'static str, ItemKind);

const OF_DATA: &[ClauseOpening] = &[
    ("copy(", ItemKind::Items),
    ("copyin(", ItemKind::Items),
    ("copyin(readonly: ", ItemKind::Items),
    ("copyout(", ItemKind::Items),
    ("copyout(zero: ", ItemKind::Items),
    ("create(", ItemKind::Items),
    ("create(zero: ", ItemKind::Items),
    ("no_create(", ItemKind::Items),
    ("present(", ItemKind::Items),
    ("attach(", ItemKind::Pointers),
];

const OF_ENTER_DATA: &[ClauseOpening] = &[
    ("copyin(", ItemKind::Items),
    ("copyin(readonly: ", ItemKind::Items),
    ("create(", ItemKind::Items),
    ("create(zero: ", ItemKind::Items),
    ("attach(", ItemKind::Pointers),
];

const OF_EXIT_DATA: &[ClauseOpening] = &[
    ("copyout(", ItemKind::Items),
    ("delete(", ItemKind::Items),
    ("detach(", ItemKind::Pointers),
];

const OF_UPDATE: &[ClauseOpening] = &[
    ("self(", ItemKind::Sections),
    ("device(", ItemKind::Sections),
];

/// Writes statements by chance, over arrays whose sizes are by chance too.
#[derive(Drop)]
pub struct Statements {
    /// The statement that was written last.
    pub page: Page,
    chance: Chance,
    sizes: [u64; 5],
    devices: u64,
}

impl Statements {
    /// Returns the statements of a seed, for so many devices.
    pub fn new(alloc: Global, seed: u64, devices: u64) -> Statements {
        let mut chance = Chance::new(seed);
        let mut sizes = [8 * POINTERS; 5];
        for size in sizes.iter_mut().take(BYTES as usize) {
            *size = 8 + 8 * chance.below(6);
        }
        Statements {
            page: Page::new(alloc),
            chance,
            sizes,
            devices,
        }
    }

    /// Writes the declaration of an array, by its place among the five.
    pub fn put_array(&mut self, nth: u64) {
        let size = self.size(nth);
        self.page.text("array ");
        self.put_name(nth);
        self.page.text(" ");
        self.page.number(size);
    }

    /// Writes that the host's bytes of an array are shown.
    pub fn put_show(&mut self, nth: u64) {
        self.page.text("show ");
        self.put_name(nth);
    }

    /// Writes that the lines behind are for a device.
    pub fn put_device(&mut self, device: u64) {
        self.page.text("set device_num(");
        self.page.number(device);
        self.page.text(")");
    }

    /// Writes any statement but a declaration.
    pub fn put_any(&mut self) {
        match self.chance.below(24) {
            0..=2 => self.put_write(),
            3 | 4 => self.put_point(),
            5..=8 => self.put_directive("enter data", OF_ENTER_DATA, "", true),
            9..=11 => self.put_directive("exit data", OF_EXIT_DATA, " finalize", true),
            12..=14 => self.put_directive("data", OF_DATA, "", false),
            15 | 16 => self.page.text("end data"),
            17 | 18 => self.put_directive("update", OF_UPDATE, " if_present", true),
            19 => self.put_wait(),
            20 | 21 => self.put_kernel(),
            22 if self.devices > 1 => {
                let device = self.chance.below(self.devices.max(1));
                self.put_device(device);
            }
            _ => self.put_question(),
        }
    }

    fn put_name(&mut self, nth: u64) {
        self.page
            .text(ARRAYS.get(nth as usize).copied().unwrap_or("a"));
    }

    fn size(&self, nth: u64) -> u64 {
        self.sizes.get(nth as usize).copied().unwrap_or(0)
    }

    /// Writes a directive of one clause or two, with or without its option and a queue.
    fn put_directive(
        &mut self,
        words: &str,
        clauses: &[ClauseOpening],
        option: &str,
        has_queue: bool,
    ) {
        self.page.text(words);
        self.put_clause(clauses);
        if self.chance.once_in(4) {
            self.put_clause(clauses);
        }
        if self.chance.once_in(4) {
            self.page.text(option);
        }
        if has_queue && self.chance.once_in(4) {
            self.page.text(" async");
            self.put_queue();
        }
    }

    fn put_clause(&mut self, clauses: &[ClauseOpening]) {
        let nth = self.chance.below(clauses.len().max(1) as u64);
        let Some((words, kind)) = clauses.get(nth as usize).copied() else {
            return;
        };
        self.page.text(" ");
        self.page.text(words);
        self.put_listed(kind);
        if self.chance.once_in(4) {
            self.page.text(", ");
            self.put_listed(kind);
        }
        self.page.text(")");
    }

    fn put_listed(&mut self, kind: ItemKind) {
        match kind {
            ItemKind::Sections => self.put_section(),
            ItemKind::Items => self.put_item(),
            ItemKind::Pointers => self.put_pointer(),
        }
    }

    fn put_item(&mut self) {
        self.put_section();
        if self.chance.once_in(5) {
            self.page.text(" via ");
            self.put_pointer();
        }
    }

    /// Writes an array, or a part of it.
    fn put_section(&mut self) {
        let nth = self.chance.below(BYTES + 1);
        self.put_part(nth);
    }

    /// Writes an array whole, or not so often a part of it; of pointers seldom, since a part of one is no pointer.
    fn put_part(&mut self, nth: u64) {
        self.put_name(nth);
        let times = if nth < BYTES { 3 } else { 8 };
        if self.chance.once_in(times) {
            let offset = self.offset(nth);
            let room = self.size(nth).saturating_sub(offset);
            self.page.text("[");
            self.page.number(offset);
            self.page.text(":");
            self.page
                .number(self.chance.below(room.max(1)).saturating_add(1));
            self.page.text("]");
        }
    }

    /// An offset in an array, a multiple of 4.
    fn offset(&mut self, nth: u64) -> u64 {
        let words = self.size(nth) / 4;
        4 * self.chance.below(words.max(1))
    }

    fn put_pointer(&mut self) {
        let offset = 8 * self.chance.below(POINTERS);
        self.put_byte(BYTES, offset);
    }

    fn put_byte(&mut self, nth: u64, offset: u64) {
        self.put_name(nth);
        self.page.text("[");
        self.page.number(offset);
        self.page.text("]");
    }

    fn put_place(&mut self) {
        let nth = self.chance.below(BYTES);
        let offset = self.offset(nth);
        self.put_byte(nth, offset);
    }

    fn put_queue(&mut self) {
        self.page.text("(");
        self.page.number(self.chance.below(3));
        self.page.text(")");
    }

    fn put_write(&mut self) {
        self.page.text("write ");
        self.put_place();
        self.page.text(" ");
        let bytes = self.chance.number().to_le_bytes();
        self.page.digits(&bytes[..4]);
    }

    fn put_point(&mut self) {
        self.page.text("point ");
        self.put_pointer();
        self.page.text(" to ");
        self.put_place();
    }

    fn put_wait(&mut self) {
        let words = self.chance.text(&["wait", "wait", "wait(", "step("]);
        self.page.text(words);
        if words.ends_with('(') {
            self.page.number(self.chance.below(3));
            self.page.text(")");
        }
    }

    fn put_kernel(&mut self) {
        self.page.text("kernel ");
        let words = self.chance.text(&["add ", "xor ", "number ", "plus "]);
        self.page.text(words);
        if words == "plus " {
            self.put_bytes();
        } else {
            self.page.number(self.chance.below(256));
        }
        self.page.text(" ");
        self.put_bytes();
    }

    /// Writes a section of an array that has bytes.
    fn put_bytes(&mut self) {
        let nth = self.chance.below(BYTES);
        self.put_part(nth);
    }

    fn put_question(&mut self) {
        let words = self
            .chance
            .text(&["show ", "peek ", "peek ", "present ", "address "]);
        self.page.text(words);
        if words == "address " {
            self.put_place();
        } else {
            self.put_section();
        }
    }
}
