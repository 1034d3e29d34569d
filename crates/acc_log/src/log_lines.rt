//! The lines of a log. Each is put together from its end, and goes to its page in one piece.

ghost use Rattle.std.specs.Prelude.{◌≡◌, ◌+◌, ◌≤◌, [], length};

use crate::logs::Log;
use acc_base::{Fault, Section};
use acc_read::Names;
use acc_script::Line;
use acc_stale::Held;

/// What each line of a log begins with.
pub const MARK: &str = "lamwiest: ";

/// What the line of one thing that a call did begins with.
const INNER_MARK: &str = "lamwiest:   ";

/// How many bytes the name of an array has at most.
const NAME_LIMIT: usize = 32;

/// How long a statement is at most for its line to be put together before it goes to its page.
const TEXT_LIMIT: usize = 128;

/// What a line says behind the addresses of a section.
#[derive(Clone, Copy)]
pub enum Tail {
    /// Nothing.
    None,
    /// The structured and the dynamic counter of the mapped range.
    Counters(u64, u64),
    /// The queue of a copy, if it has one.
    Queue(Option<u64>),
    /// The serial number of a loan (OpenACC 3.3, section 2.5).
    Serial(u64),
    /// That a copy was not made, since the section was present.
    Present,
    /// That a copy was not made, since the section is held.
    Held,
}

impl Log {
    /// Puts the line of a statement. An object has its device too, if something was done on one.
    pub(crate) fn put_head(&mut self, text: &[u8], device: Option<u64>) {
        if self.opens("call") {
            self.page.maybe_field("device_num", device);
            self.page.text_field("text", text);
            return self.page.close_object();
        }
        let mut line = Line::new();
        if text.len() <= TEXT_LIMIT {
            line.put(b"\n");
            line.put(text);
            put_number(&mut line, self.line);
            self.page.bytes(line.as_slice());
        } else {
            put_number(&mut line, self.line);
            self.page.bytes(line.as_slice());
            self.page.bytes(text);
            self.page.text("\n");
        }
    }

    /// Puts that no copy waited.
    pub(crate) fn put_idle(&mut self) {
        if self.opens("idle") {
            return self.page.close_object();
        }
        self.page.text(INNER_MARK);
        self.page.text("idle\n");
    }

    /// Puts that a statement was refused, and why.
    pub(crate) fn put_refused(&mut self, fault: Fault) {
        if self.opens("refused") {
            self.page.fault_field(fault);
            return self.page.close_object();
        }
        self.page.text(INNER_MARK);
        self.page.text("refused ");
        self.page.fault(fault);
        self.page.text("\n");
    }

    /// Puts the line of the device, in a text.
    pub(crate) fn put_device(&mut self, device: u64) {
        self.page.text(INNER_MARK);
        self.page.text("device ");
        self.page.number(device);
        self.page.text("\n");
    }

    /// Puts the line of a region that was entered or exited.
    pub(crate) fn put_region(&mut self, word: &str, number: u64) {
        if self.opens(word) {
            self.page.number_field("number", number);
            return self.page.close_object();
        }
        self.page.text(INNER_MARK);
        self.page.text(word);
        self.page.text(" region ");
        self.page.number(number);
        self.page.text("\n");
    }

    /// Puts the line of a section of no byte.
    pub(crate) fn put_empty(&mut self, item: usize) {
        if self.opens("empty") {
            self.put_item(Some(item));
            return self.page.close_object();
        }
        let mut line = Line::new();
        line.put(b"\n");
        put_mark(&mut line, Some(item), "empty");
        self.page.bytes(line.as_slice());
    }

    /// Puts the line of a pointer: what became of it, its new target, and how often it is attached now.
    pub(crate) fn put_pointer(
        &mut self,
        names: &Names,
        item: usize,
        word: &str,
        aimed: (u64, Option<u64>, Option<u64>),
    )
        requires short { length word.now ≤ 11 }
    {
        if self.opens(word) {
            return self.end_pointer(names, item, word, aimed);
        }
        let (pointer, target, count) = aimed;
        let mut line = Line::new();
        put_spot(&mut line, names, pointer);
        if let Some(count) = count {
            line.put_field(b" count ", count);
        }
        if let Some(target) = target {
            line.put_address(target);
            line.put(b" to ");
        }
        line.put_address(pointer);
        line.put(b" ");
        put_mark(&mut line, Some(item), word);
        self.page.bytes(line.as_slice());
    }
}

/// Begins the line of a statement with the number of its line.
#[inline(always)]
fn put_number(line: &mut Line, number: u64)
    requires room { length line.old ≤ 200 }
{
    line.put(b": ");
    line.put_field(b"lamwiest: line ", number);
}

/// Begins a line with its word, behind the place of its item, if it is the line of one.
#[inline(always)]
pub fn put_mark(line: &mut Line, item: Option<usize>, word: &str)
    requires room { length line.old ≤ 205 }
    requires short { length word.now ≤ 11 }
    ensures { length line.new ≤ 256 }
{
    line.put(word.as_bytes());
    if let Some(place) = item {
        line.put(b": ");
        line.put_field(b"lamwiest:   item ", place as u64);
    } else {
        line.put(b"lamwiest:   ");
    }
}

/// Puts what stands behind the addresses of a section.
#[inline(always)]
pub fn put_tail(line: &mut Line, tail: Tail)
    requires room { length line.old ≤ 82 }
    ensures { length line.new ≤ 143 }
{
    match tail {
        Tail::None | Tail::Queue(None) => {}
        Tail::Counters(structured, dynamic) => {
            line.put_field(b" dynamic ", dynamic);
            line.put_field(b" structured ", structured);
        }
        Tail::Queue(Some(queue)) => line.put_field(b" queue ", queue),
        Tail::Serial(serial) => line.put_field(b" serial ", serial),
        Tail::Present => line.put(b" present"),
        Tail::Held => line.put(b" held"),
    }
}

/// Puts the first address of a section, its length in bytes, and its device address, where it has one.
#[inline(always)]
pub fn put_front(line: &mut Line, section: Section, place: Option<u64>)
    requires room { length line.old ≤ 143 }
    ensures { length line.new ≤ length line.old + 62 }
{
    if let Some(place) = place {
        line.put_address(place);
        line.put(b" at ");
    }
    line.put_field(b" ", section.len);
    line.put_address(section.start);
    line.put(b" ");
}

/// Ends a line with the name of a section, where one array has it: `a[8:4]`, or `a` where it is the whole array.
#[inline(always)]
pub fn put_name(line: &mut Line, names: &Names, section: Section)
    requires none { line.old ≡ [] }
    ensures { length line.new ≤ 82 }
{
    line.put(b"\n");
    let Some(spot) = names.within(section) else {
        return;
    };
    if spot.offset != 0 || section.len != spot.array.whole().len {
        line.put(b"]");
        line.put_field(b":", section.len);
        line.put_field(b"[", spot.offset);
    }
    line.put(start_of(spot.name, NAME_LIMIT));
    line.put(b" name ");
}

/// Ends a line with the name of a byte, where an array has it: `a[8]`.
fn put_spot(line: &mut Line, names: &Names, address: u64)
    requires none { line.old ≡ [] }
    ensures { length line.new ≤ 61 }
{
    line.put(b"\n");
    if let Some(spot) = names.spot(address) {
        line.put(b"]");
        line.put_field(b"[", spot.offset);
        line.put(start_of(spot.name, NAME_LIMIT));
        line.put(b" name ");
    }
}

/// How often lines name a range in a row before its texts are kept.
const TIMES: u64 = 3;

/// The texts of the range that lines name. They are kept where it is named so often in a row, and copied from then on.
pub struct Texts {
    section: Section,
    place: u64,
    times: u64,
    name: Line,
    front: Line,
}

// By hand, so that a crate above does not prove the drops of its parts again.
impl Drop for Texts {
    fn drop(self) {
        let Texts {
            section: _,
            place: _,
            times: _,
            name: _,
            front: _,
        } = self;
    }
}

impl Texts {
    /// Returns the texts of no range yet.
    pub fn new() -> Texts {
        Texts {
            section: Section { start: 0, len: 0 },
            place: 0,
            times: 0,
            name: Line::new(),
            front: Line::new(),
        }
    }

    /// Notes that a line is about to name a range.
    #[inline(always)]
    pub fn note(&mut self, names: &Names, held: Held) {
        let Held { placed, range, .. } = held;
        if self.section != range.section || self.place != placed.place {
            self.section = range.section;
            self.place = placed.place;
            self.times = 1;
        } else if self.times < TIMES {
            self.note_again(names);
        }
    }

    fn note_again(&mut self, names: &Names) {
        self.times = self.times.saturating_add(1);
        if self.times == TIMES {
            self.name = Line::new();
            self.front = Line::new();
            put_name(&mut self.name, names, self.section);
            put_front(&mut self.front, self.section, Some(self.place));
        }
    }

    #[inline(always)]
    fn has(&self, section: Section) -> bool {
        self.times == TIMES && self.section == section
    }

    /// Ends a line with the name of a section, as [`put_name`] does.
    #[inline(always)]
    pub fn put_name(&self, line: &mut Line, names: &Names, section: Section)
        requires none { line.old ≡ [] }
        ensures { length line.new ≤ 82 }
    {
        if self.has(section) {
            line.put(start_of(self.name.as_slice(), 82));
        } else {
            put_name(line, names, section);
        }
    }

    /// Puts the addresses of a section, as [`put_front`] does.
    #[inline(always)]
    pub fn put_front(&self, line: &mut Line, section: Section, place: Option<u64>)
        requires room { length line.old ≤ 143 }
        ensures { length line.new ≤ length line.old + 62 }
    {
        match place {
            Some(place) if place == self.place && self.has(section) => {
                line.put(start_of(self.front.as_slice(), 62))
            }
            _ => put_front(line, section, place),
        }
    }
}

/// The first bytes of a text, as many as there may be.
#[inline(always)]
fn start_of(text: &[u8], most: usize) -> &[u8]
    ensures { length result.now ≤ most }
{
    &text[..text.len().min(most)]
}
