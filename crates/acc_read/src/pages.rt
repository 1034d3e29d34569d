//! A text that is made in memory before any of it is written.

ghost use Rattle.std.specs.Prelude.{◌≡◌};

use acc_base::Fault;
use std::alloc::Global;
use std::fmt::{self, Write};

/// How many bytes are turned into digits at a time.
const PIECE: usize = 64;

/// A text that grows. Only [`Page::whole`] returns that there was no memory, so what writes to a page needs no `?`.
#[derive(Drop)]
pub struct Page {
    bytes: Vec<u8>,
    wants: bool,
}

impl Page {
    /// Returns an empty text.
    pub fn new(alloc: Global) -> Page {
        Page {
            bytes: Vec::new(alloc),
            wants: false,
        }
    }

    /// Adds a text, as [`Page::bytes`] does.
    pub fn text(&mut self, text: &str) {
        self.bytes(text.as_bytes());
    }

    /// Adds bytes. Where there is no memory for them they are left out, and [`Page::whole`] fails from then on.
    pub fn bytes(&mut self, bytes: &[u8]) {
        make_room(&mut self.bytes, bytes.len());
        self.wants |= self.bytes.extend_from_slice(bytes).is_err();
    }

    /// Adds a number in decimal digits.
    pub fn number(&mut self, number: u64) {
        let mut digits = [0u8; 20];
        let at = itoa::write_digits(number, &mut digits, 20);
        self.bytes(&digits[at..]);
    }

    /// Adds an address: `0x` and hexadecimal digits in lower case.
    pub fn address(&mut self, address: u64) {
        let mut digits = [0u8; 16];
        let _ = hex::encode_to_slice(address.to_be_bytes(), &mut digits);
        let zeros = address.leading_zeros() as usize / 4;
        self.text("0x");
        self.bytes(&digits[zeros.min(15)..]);
    }

    /// Adds a fault as its `Display` does: its number, its name, and each field with its value.
    pub fn fault(&mut self, fault: Fault) {
        let _ = write!(self, "{fault}");
    }

    /// Removes all text. [`Page::whole`] still fails where some of it found no memory.
    pub fn clear(&mut self) {
        self.bytes.clear();
    }

    /// Adds each of some bytes as two hexadecimal digits in lower case.
    pub fn digits(&mut self, bytes: &[u8]) {
        for piece in bytes.chunks(PIECE) {
            let mut digits = [0u8; 2 * PIECE];
            if let Some(digits) = digits.get_mut(..piece.len().saturating_mul(2)) {
                let _ = hex::encode_to_slice(piece, digits);
                self.bytes(digits);
            }
        }
    }

    /// Returns the text so far, without what found no memory.
    pub fn as_slice(&self) -> &[u8] {
        &self.bytes
    }

    /// Returns the whole text.
    ///
    /// # Errors
    ///
    /// [`Fault::Memory`] where some of it found no memory.
    pub fn whole(&self) -> Result<&[u8], Fault> {
        if self.wants {
            return Err(Fault::Memory);
        }
        Ok(&self.bytes)
    }
}

// The most room that a text gets beyond as much again. The C library maps great blocks anew each time, and each of
// their pages is cleared when it is first touched.
const AHEAD: usize = 4_194_304;

/// Makes room for so many bytes more and for others behind them, so that a long text is seldom moved. That is three
/// times what the text has then, or once that and 4 MiB where this is less. Where there is no memory for so much,
/// nothing changes.
#[inline(always)]
pub fn make_room(bytes: &mut Vec<u8>, count: usize)
    ensures { bytes.new.items ≡ bytes.old.items }
{
    if bytes.capacity() - bytes.len() < count {
        grow(bytes, count);
    }
}

/// The same where there is none. It is apart, so that what puts a short text is short enough to be inlined.
#[inline(never)]
fn grow(bytes: &mut Vec<u8>, count: usize)
    ensures { bytes.new.items ≡ bytes.old.items }
{
    let all = bytes.len().saturating_add(count);
    let _ = bytes.reserve(all.saturating_mul(3).min(all.saturating_add(AHEAD)));
}

impl Write for Page {
    fn write_str(&mut self, text: &str) -> fmt::Result {
        self.text(text);
        Ok(())
    }
}
