//! The lines of a prompt that were done.

use acc_base::Fault;
use acc_read::Page;
use acc_script::Session;
use std::alloc::Global;

/// A line that was done.
#[derive(Drop)]
pub struct Entry {
    /// Its number.
    pub number: u64,
    /// Its text.
    pub text: Vec<u8>,
    has_changed: bool,
}

/// What each line that changes something changes of a session: the number of events, the current device, or where the
/// next array lies.
#[derive(Clone, Copy, PartialEq, Eq)]
pub struct Mark {
    events: usize,
    device: u64,
    free: Option<u64>,
}

impl Mark {
    /// The mark of a session as it is now.
    pub fn of(session: &Session) -> Mark {
        Mark {
            events: session.table.trace().len(),
            device: session.device,
            free: free_in(session),
        }
    }
}

fn free_in(session: &Session) -> Option<u64> {
    Some(session.arrays.next_array(1)?.whole().start)
}

/// The lines that `undo` runs again and `save` keeps.
#[derive(Drop)]
pub struct History {
    alloc: Global,
    entries: Vec<Entry>,
}

impl Entry {
    /// Puts its text as a line.
    pub fn put(&self, page: &mut Page) {
        page.bytes(&self.text);
        page.text("\n");
    }
}

impl History {
    /// Returns a history of no line.
    pub fn new(alloc: Global) -> History {
        History {
            alloc,
            entries: Vec::new(alloc),
        }
    }

    /// Adds a line before it is run, so that one that was run is never lost.
    ///
    /// # Errors
    ///
    /// [`Fault::Memory`]. Nothing is added then.
    pub fn add(&mut self, number: u64, line: &[u8]) -> Result<(), Fault> {
        let text = Vec::from_slice(self.alloc, line)?;
        self.entries.push(Entry {
            number,
            text,
            has_changed: false,
        })?;
        Ok(())
    }

    /// Says of the line that was added last whether it changed something and whether it was done. One that did neither
    /// is taken out.
    pub fn settle(&mut self, has_changed: bool, is_done: bool) {
        if !has_changed && !is_done {
            let _ = self.entries.pop();
        } else if let Some(entry) = self.entries.last_mut() {
            entry.has_changed = has_changed;
        }
    }

    /// The lines before the last one that changed something, and that one; `None` where none did.
    pub fn split(&self) -> Option<(&[Entry], &Entry)> {
        let mut entries = self.entries.as_slice();
        for _ in 0..self.entries.len() {
            let (last, before) = entries.split_last()?;
            if last.has_changed {
                return Some((before, last));
            }
            entries = before;
        }
        None
    }

    /// Leaves the first lines, so many.
    pub fn leave(&mut self, count: usize) {
        self.entries.truncate(count);
    }

    /// The lines as a script.
    pub fn script(&self) -> Page {
        let mut script = Page::new(self.alloc);
        for entry in &self.entries {
            entry.put(&mut script);
        }
        script
    }

    /// The lines, each behind its number.
    pub fn listing(&self) -> Page {
        let mut listing = Page::new(self.alloc);
        for entry in &self.entries {
            listing.number(entry.number);
            listing.text("  ");
            entry.put(&mut listing);
        }
        listing
    }
}
