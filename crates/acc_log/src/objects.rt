//! The lines of a log as objects of JSON.

use crate::log_lines::Tail;
use crate::logs::Log;
use acc_base::Section;
use acc_read::Names;

/// How the lines of a log are put.
#[derive(Clone, Copy)]
pub enum LogForm {
    /// As text.
    Text,
    /// Each as an object of JSON.
    Json,
}

impl Log {
    /// Begins the object of a line with this word, and returns true; puts nothing where lines are text.
    #[inline(always)]
    pub(crate) fn opens(&mut self, word: &str) -> bool {
        match self.form {
            LogForm::Text => false,
            LogForm::Json => {
                self.open(word);
                true
            }
        }
    }

    fn open(&mut self, word: &str) {
        self.page.open_object(kind_of(word));
        self.page.number_field("line", self.line);
    }

    /// Ends the object of a line of a section. Only a copy may be of no item, as one that waited.
    pub(crate) fn end_section(
        &mut self,
        names: &Names,
        item: Option<usize>,
        section: Section,
        place: Option<u64>,
        tail: Tail,
    ) {
        if item.is_some() || matches!(tail, Tail::Queue(_)) {
            self.put_item(item);
        }
        self.page.number_field("start", section.start);
        self.page.number_field("length", section.len);
        if let Some(place) = place {
            self.page.number_field("place", place);
        }
        match tail {
            Tail::None | Tail::Present | Tail::Held => {}
            Tail::Counters(structured, dynamic) => {
                self.page.number_field("structured", structured);
                self.page.number_field("dynamic", dynamic);
            }
            Tail::Queue(queue) => self.page.maybe_field("queue", queue),
            Tail::Serial(serial) => self.page.number_field("serial", serial),
        }
        self.page.spot_fields(names.within(section));
        self.page.close_object();
    }

    /// Ends the object of a line of a pointer. One that is attached once more has no new target.
    pub(crate) fn end_pointer(
        &mut self,
        names: &Names,
        item: usize,
        word: &str,
        aimed: (u64, Option<u64>, Option<u64>),
    ) {
        let (pointer, target, count) = aimed;
        self.put_item(Some(item));
        self.page.number_field("address", pointer);
        if word == "attached" {
            self.page.maybe_field("target", target);
        }
        if let Some(count) = count {
            self.page.number_field("count", count);
        }
        self.page.spot_fields(names.spot(pointer));
        self.page.close_object();
    }

    /// Puts the place of an item in its directive, if the line is of one.
    pub(crate) fn put_item(&mut self, item: Option<usize>) {
        match item {
            Some(place) => self.page.number_field("item", place as u64),
            None => self.page.null_field("item"),
        }
    }
}

/// The kind of an object, by the word that its line has in a text. A finding has the kind `dropped`.
fn kind_of(word: &str) -> &str {
    match word {
        "dropped" => "counted-down",
        "copied in" => "copied-in",
        "copied out" => "copied-out",
        "put in" => "put-in",
        "put out" => "put-out",
        "skipped in" => "skipped-in",
        "skipped out" => "skipped-out",
        word => word,
    }
}
