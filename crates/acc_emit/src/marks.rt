//! The bytes that two programs need not have alike.

use crate::pointers::{POINTER_LEN, Pointer, is_attached, pointer_section, word_at};
use crate::twins::DEVICE;
use crate::waits::{WaitingCopy, common};
use acc_base::{HOST_BASE, Section};
use acc_table::Table;
use std::alloc::{AllocError, Global};

/// How the bytes of a host address are compared: that in host memory, and those on the device that are mapped from it.
#[derive(Clone, Copy)]
enum Mark {
    /// Each by itself. Nothing was written.
    Plain,
    /// Each by itself.
    Written,
    /// As a part of a pointer alone: nothing but addresses was written.
    Address,
    /// Not at all.
    Open,
}

/// The bytes that two programs need not have alike: those of addresses, and those that a queued copy races for.
///
/// A copy between the memories never moves a byte to another host address. So one mark is for the byte in host memory
/// and for those on the device that are mapped from it. A mark stays, since some copy of the byte may.
#[derive(Drop)]
pub struct Marks {
    marked: Vec<Mark>,
    /// The addresses that `point` has written, each pointer with each of its targets once.
    pub pointers: Vec<Pointer>,
    /// The copies that wait in queues.
    pub waits: Vec<WaitingCopy>,
}

impl Marks {
    /// Returns no mark, for host memory of this many bytes.
    ///
    /// # Errors
    ///
    /// [`AllocError`] where there is no memory for the marks, one for each byte.
    pub fn new(alloc: Global, host: u64) -> Result<Marks, AllocError> {
        Ok(Marks {
            marked: vec![in alloc; Mark::Plain; host as usize]?,
            pointers: Vec::new(alloc),
            waits: Vec::new(alloc),
        })
    }

    /// Returns the marks of those bytes of a section that lie in host memory.
    fn within(&mut self, section: Section) -> &mut [Mark] {
        let from = section.start.saturating_sub(HOST_BASE) as usize;
        let end = from.saturating_add(section.len as usize);
        let to = end.min(self.marked.len());
        let marked = self.marked.as_mut_slice();
        marked.get_mut(from..to).unwrap_or(&mut [])
    }

    /// Opens the bytes of a section of host memory: they are never compared again.
    pub fn open(&mut self, section: Section) {
        self.within(section).fill(Mark::Open);
    }

    /// Notes that other bytes than those of an address were written into a section.
    pub fn write_over(&mut self, section: Section) {
        for mark in self.within(section) {
            *mark = match *mark {
                Mark::Plain | Mark::Written => Mark::Written,
                Mark::Address | Mark::Open => Mark::Open,
            };
        }
    }

    /// Whether the byte at a host address is not to be compared by itself: it is marked, or a copy of it waits.
    pub fn is_open(&self, address: u64) -> bool {
        let start = address;
        let mark = self.marked.get(start.saturating_sub(HOST_BASE) as usize);
        matches!(mark, Some(Mark::Address | Mark::Open))
            || self.is_racing(Section { start, len: 1 })
    }

    /// Whether the word at a host address is to be compared as a pointer.
    pub fn is_pointer(&self, place: u64) -> bool {
        let from = place.saturating_sub(HOST_BASE) as usize;
        let to = from.saturating_add(POINTER_LEN as usize);
        for mark in self.marked.get(from..to).unwrap_or(&[Mark::Open]) {
            if !matches!(*mark, Mark::Address) {
                return false;
            }
        }
        !self.is_racing(pointer_section(place))
    }

    /// Whether a copy of one of a section's bytes waits.
    pub fn is_racing(&self, section: Section) -> bool {
        for copy in &self.waits {
            if copy.shared(section, None).len > 0 {
                return true;
            }
        }
        false
    }

    /// Notes that the bytes of a section are read or written in a queue, or at once. It opens those of which a copy
    /// waits in another queue: which of the two comes first is open.
    pub fn touch(&mut self, section: Section, queue: Option<u64>) {
        for nth in 0..self.waits.len() {
            if let Some(copy) = self.waits.get(nth).copied() {
                let shared = copy.shared(section, queue);
                self.open(shared);
                self.spoil(shared);
            }
        }
    }

    /// Notes that the bytes of a section are copied in a queue, or at once. A word of which it copies a part is no
    /// pointer any more.
    pub fn copy(&mut self, section: Section, queue: Option<u64>) {
        self.touch(section, queue);
        for end in [section.start, section.start.saturating_add(section.len)] {
            if end % POINTER_LEN > 0 {
                self.write_over(pointer_section(end / POINTER_LEN * POINTER_LEN));
            }
        }
    }

    /// Notes that the bytes of a section are written, in host memory or on the device. No pointer that `point` wrote is
    /// left there.
    pub fn write(&mut self, section: Section) {
        self.touch(section, None);
        self.spoil(section);
        self.write_over(section);
    }

    /// Notes that `point` wrote the address of a target at a place.
    ///
    /// # Errors
    ///
    /// [`AllocError`] where there is no memory.
    pub fn point(&mut self, place: u64, target: u64) -> Result<(), AllocError> {
        let section = pointer_section(place);
        self.touch(section, None);
        self.spoil(section);
        let is_word = place % POINTER_LEN == 0;
        for mark in self.within(section) {
            let is_sure = is_word && matches!(*mark, Mark::Plain | Mark::Address);
            *mark = if is_sure { Mark::Address } else { Mark::Open };
        }
        let stands = !self.is_racing(section);
        self.keep(Pointer {
            place,
            target,
            stands,
        })
    }

    /// Keeps a pointer in place of the same one, if there is one.
    fn keep(&mut self, pointer: Pointer) -> Result<(), AllocError> {
        for other in &mut self.pointers {
            if other.place == pointer.place && other.target == pointer.target {
                *other = pointer;
                return Ok(());
            }
        }
        Ok(self.pointers.push(pointer)?)
    }

    /// Forgets the copies of a queue, or of all queues, which a `wait` has made.
    pub fn forget_waits(&mut self, queue: Option<u64>) {
        match queue {
            Some(queue) => self.waits.retain(|copy| queue != copy.queue),
            None => self.waits.clear(),
        }
    }

    fn spoil(&mut self, section: Section) {
        for pointer in &mut self.pointers {
            if common(pointer_section(pointer.place), section).len > 0 {
                pointer.stands = false;
            }
        }
    }

    /// Whether `point` wrote the address of a target at a place, and it still stands there.
    pub fn has_pointer(&self, place: u64, target: u64) -> bool {
        for pointer in &self.pointers {
            if pointer.stands && pointer.place == place && pointer.target == target {
                return true;
            }
        }
        false
    }

    /// Returns the target of the pointer at a place, in host memory or on the device. The pointer holds its host
    /// address, or its device address where it is attached. `None` where it holds another word.
    pub fn target(&self, table: &Table, place: u64, on_device: bool) -> Option<u64> {
        let word = word_at(table, place, on_device);
        let is_attached = on_device && is_attached(table, place);
        for pointer in &self.pointers {
            let address = if is_attached {
                table.device_address(DEVICE, pointer.target)
            } else {
                Some(pointer.target)
            };
            if pointer.place == place && address == Some(word) {
                return Some(pointer.target);
            }
        }
        None
    }

    /// Gives up the attached pointers whose target's mapping has ended: a later one may lie elsewhere.
    pub fn give_up_lost(&mut self, table: &Table) {
        for nth in 0..self.pointers.len() {
            if let Some(Pointer { place, .. }) = self.pointers.get(nth).copied()
                && is_attached(table, place)
                && self.target(table, place, true).is_none()
            {
                self.write_over(pointer_section(place));
            }
        }
    }
}
