//! Standard output and standard error, where nobody may read the output any more.

ghost use Rattle.std.specs.Io.{WritesAtMost};

use crate::colours::put_coloured;
use acc_read::Page;
use std::alloc::Global;
use std::cell::Cell;
use std::io::{self, ErrorKind, Write};

/// What the program tells where standard output failed.
const FAILED: &[u8] = b"accrun: 21 Write\n";

/// A writer that notes where nobody reads what it writes.
#[derive(Drop)]
pub struct Output<'a, W> {
    /// The writer.
    pub inner: W,
    /// Whether nobody reads.
    pub is_closed: &'a Cell<bool>,
}

impl<W: Write> Write for Output<'_, W> {
    fn write(&mut self, piece: &[u8]) -> io::Result<usize> {
        let count = self.inner.write(piece);
        if let Err(error) = &count {
            self.is_closed.set(error.kind() == ErrorKind::BrokenPipe);
        }
        count
    }

    fn flush(&mut self) -> io::Result<()> {
        self.inner.flush()
    }
}

/// A writer that leaves out that standard output failed where nobody reads that: whoever closes a pipe has enough.
#[derive(Drop)]
pub struct Errors<'a, W> {
    /// The writer.
    pub inner: W,
    /// Whether nobody reads standard output.
    pub is_closed: &'a Cell<bool>,
    /// The allocator of what has colours; `None` where nothing has.
    pub colours: Option<Global>,
}

impl<W: Write> Write for Errors<'_, W> {
    fn write(&mut self, piece: &[u8]) -> io::Result<usize> {
        if self.is_closed.get() && piece == FAILED {
            return Ok(piece.len());
        }
        match self.colours {
            Some(alloc) => write_coloured(alloc, &mut self.inner, piece),
            None => self.inner.write(piece),
        }
    }

    fn flush(&mut self) -> io::Result<()> {
        self.inner.flush()
    }
}

/// Writes whole lines with colours; as they are where there is no memory for these. It returns how many bytes of these
/// lines are written.
fn write_coloured<W: Write>(alloc: Global, inner: &mut W, piece: &[u8]) -> io::Result<usize>
    ensures { WritesAtMost result piece.now }
{
    let mut page = Page::new(alloc);
    put_coloured(&mut page, piece);
    match page.whole() {
        Ok(text) => {
            inner.write_all(text)?;
            Ok(piece.len())
        }
        Err(_) => inner.write(piece),
    }
}
