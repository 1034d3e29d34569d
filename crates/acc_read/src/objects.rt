//! Objects of JSON, each on a line of its own.

use crate::names::Spot;
use crate::pages::Page;
use acc_base::Fault;

impl Page {
    /// Begins an object of a kind. What follows are fields, and then its end.
    pub fn open_object(&mut self, kind: &str) {
        self.text("{\"version\":1,\"kind\":\"");
        self.text(kind);
        self.text("\"");
    }

    /// Ends an object, and its line.
    pub fn close_object(&mut self) {
        self.text("}\n");
    }

    /// Begins a field.
    pub fn name_field(&mut self, name: &str) {
        self.text(",\"");
        self.text(name);
        self.text("\":");
    }

    /// Adds a field that is a number.
    pub fn number_field(&mut self, name: &str, number: u64) {
        self.name_field(name);
        self.number(number);
    }

    /// Adds a field that is a number where that is known.
    pub fn maybe_field(&mut self, name: &str, number: Option<u64>) {
        match number {
            Some(number) => self.number_field(name, number),
            None => self.null_field(name),
        }
    }

    /// Adds a field that is not known.
    pub fn null_field(&mut self, name: &str) {
        self.name_field(name);
        self.text("null");
    }

    /// Adds a field that is a text.
    pub fn text_field(&mut self, name: &str, text: &[u8]) {
        self.name_field(name);
        self.string(text);
    }

    /// Adds the name of the array that has some bytes, and how many of its own lie before them.
    pub fn spot_fields(&mut self, spot: Option<Spot<'_>>) {
        match spot {
            Some(spot) => {
                self.text_field("array", spot.name);
                self.number_field("offset", spot.offset);
            }
            None => {
                self.null_field("array");
                self.null_field("offset");
            }
        }
    }

    /// Adds a fault: an object with its number, its name, and its own fields.
    pub fn fault_field(&mut self, fault: Fault) {
        self.text(",\"fault\":{\"number\":");
        self.number(fault.number());
        self.text_field("name", fault.name().as_bytes());
        self.own_fields(fault);
        self.text("}");
    }

    /// Adds the fields of a fault by their names.
    fn own_fields(&mut self, fault: Fault) {
        match fault {
            Fault::Memory | Fault::BadConfig | Fault::BadCuts | Fault::Read | Fault::Write => {}
            Fault::NoTickets { left } | Fault::NoAllowance { left } => {
                self.number_field("left", left)
            }
            Fault::TooManyItems { n } => self.number_field("n", n),
            Fault::TraceFull { len } => self.number_field("len", len),
            Fault::OutOfHost { item }
            | Fault::Misaligned { item }
            | Fault::PartlyPresent { item }
            | Fault::NotPresent { item }
            | Fault::CounterFull { item } => self.number_field("item", item),
            Fault::NoQueue { q } | Fault::QueueFull { q } => self.number_field("q", q),
            Fault::Lent { block } => self.number_field("block", block),
            Fault::DeviceFull { item, need } => {
                self.number_field("item", item);
                self.number_field("need", need);
            }
            Fault::NoRegion { number } => self.number_field("region", number),
            Fault::NoLease { serial } => self.number_field("serial", serial),
            Fault::NoDevice { device } => self.number_field("device", device),
            Fault::Script { line, kind } => {
                self.number_field("line", line);
                self.text_field("kind", kind.name().as_bytes());
            }
        }
    }

    /// Adds a text as a string, which may stand in an element `script` of a page.
    pub fn string(&mut self, text: &[u8]) {
        self.text("\"");
        let mut from = 0;
        for (at, byte) in text.iter().enumerate() {
            if is_escaped(*byte) {
                self.bytes(text.get(from..at).unwrap_or(&[]));
                self.put_escape(*byte);
                from = at.saturating_add(1);
            }
        }
        self.bytes(text.get(from..).unwrap_or(&[]));
        self.text("\"");
    }

    fn put_escape(&mut self, byte: u8) {
        match byte {
            b'"' => self.text("\\\""),
            b'\\' => self.text("\\\\"),
            b'\n' => self.text("\\n"),
            _ => {
                self.text("\\u00");
                self.digits(&[byte]);
            }
        }
    }
}

/// Whether a byte does not stand for itself in a string. A `<` might begin the end of the element `script`.
fn is_escaped(byte: u8) -> bool {
    matches!(byte, 0..=31 | b'"' | b'\\' | b'<')
}
