//! Reads lines as they come.

use acc_base::Fault;
use acc_read::next_line;
use acc_script::Source;

/// How many bytes are held: more than a line may have, so that one of more bytes is at fault by those that are held.
/// They are also more than `COUNTED` of `acc_explain`.
const ROOM: usize = 8_192;

/// Gives each line of a source as soon as the source gave all of it. It takes no memory.
#[derive(Drop)]
pub struct LineReader<'a, S> {
    source: &'a mut S,
    held: [u8; ROOM],
    /// Where what was not given as a line begins in what is held, and ends.
    from: usize,
    to: usize,
    /// Whether what follows belongs to a line that is too long, and was given.
    is_cut: bool,
    is_ended: bool,
}

impl<'a, S: Source> LineReader<'a, S> {
    /// Returns a reader that gave no line yet.
    pub fn new(source: &'a mut S) -> LineReader<'a, S> {
        LineReader {
            source,
            held: [0; ROOM],
            from: 0,
            to: 0,
            is_cut: false,
            is_ended: false,
        }
    }

    /// Returns the next line without its end; `None` behind the last one. Of a line that is too long for the language
    /// it returns as much as is too long.
    ///
    /// # Errors
    ///
    /// [`Fault::Read`] where the source fails.
    pub fn next_line(&mut self) -> Result<Option<&[u8]>, Fault> {
        self.fill()?;
        self.pass_cut()?;
        self.is_cut = !self.has_line();
        let rest = self.held.get(self.from..self.to).unwrap_or(&[]);
        if rest.is_empty() {
            return Ok(None);
        }
        let (line, after) = next_line(rest);
        self.from = self.to.saturating_sub(after.len());
        Ok(Some(line))
    }

    /// Passes over the rest of a line that was too long.
    fn pass_cut(&mut self) -> Result<(), Fault> {
        for _ in 0..u64::MAX {
            if !self.is_cut {
                break;
            }
            self.pass_held();
            self.fill()?;
        }
        Ok(())
    }

    /// Passes over what is held of a line that was too long.
    fn pass_held(&mut self) {
        self.is_cut = !self.has_line() && !self.is_ended;
        let rest = self.rest();
        self.from = match rest.is_empty() {
            true => self.to,
            false => self.to.saturating_sub(next_line(rest).1.len()),
        };
    }

    fn rest(&self) -> &[u8] {
        self.held.get(self.from..self.to).unwrap_or(&[])
    }

    /// Whether what is held has the end of a line.
    fn has_line(&self) -> bool {
        self.rest().contains(&b'\n')
    }

    /// Reads up to the end of a line, to that of the source, or until no more can be held.
    fn fill(&mut self) -> Result<(), Fault> {
        for _ in 0..u64::MAX {
            if self.is_ended || self.has_line() || self.rest().len() == ROOM {
                break;
            }
            self.read_piece()?;
        }
        Ok(())
    }

    /// Reads a piece behind what is held, which moves to the front.
    fn read_piece(&mut self) -> Result<(), Fault> {
        self.move_to_front();
        let mut piece = [0; ROOM];
        let room = ROOM.saturating_sub(self.to);
        let count = self.source.read(&mut piece[..room]).ok_or(Fault::Read)?;
        self.is_ended = count == 0;
        self.hold(&piece[..count.min(room)]);
        Ok(())
    }

    fn move_to_front(&mut self) {
        if self.from <= self.to && self.to <= ROOM {
            self.held.copy_within(self.from..self.to, 0);
            self.to -= self.from;
            self.from = 0;
        }
    }

    /// Adds a piece to what is held, which has room for it.
    fn hold(&mut self, piece: &[u8]) {
        let end = self.to.saturating_add(piece.len());
        if let Some(room) = self.held.get_mut(self.to..end) {
            room.copy_from_slice(piece);
            self.to = end;
        }
    }
}
