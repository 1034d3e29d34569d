//! Readers and writers of std as sources and sinks.

ghost use Rattle.std.specs.Prelude.{◌≡◌, ◌≤◌, [], length, IfSome};
ghost use Rattle.acc_script.specs.Told.{Becomes, after_read};
ghost use Rattle.acc_script.specs.Streams.{offered_at_first, taken_of, given_by, HandsOut, EndsEmpty};

use crate::{Sink, Source};
use std::io::{Read, Write};
use std::marker::Model;
use std::snapshot::Snapshot;

/// A reader of std as a source. Every error is a failure, an interruption too.
///
/// Contracts see what it gave and has left where they see what the reader has left, as for a slice or a `Cursor`.
#[derive(Drop)]
pub struct FromRead<R: Read + Drop> {
    start: Snapshot<R>,
    inner: R,
    ended: bool,
    failures: u64,
}

impl<R: Read + Drop> Model for FromRead<R> {
    ghost use Rattle.std.specs.Prelude.{◌≡◌, Option};
    ghost use Rattle.acc_script.specs.Streams.{Offered, offered_of, rejoined, EndsAt};

    ghost Value = { Option Offered };

    ghost view = { λ s. offered_of (R.remaining s.start.value) (R.remaining s.inner) s.ended s.failures };

    ghost invariant = { λ s.
        (rejoined (R.remaining s.start.value) (R.remaining s.inner) ≡ R.remaining s.start.value)
        × EndsAt (R.remaining s.start.value) s.ended (R.remaining s.inner) };
}

impl<R: Read + Drop> FromRead<R> {
    /// Returns a source that gives what the reader has left.
    pub fn new(inner: R) -> FromRead<R>
        ensures { result ≡ offered_at_first (R.remaining inner) }
    {
        FromRead {
            start: Snapshot::of(&inner),
            inner,
            ended: false,
            failures: 0,
        }
    }
}

impl<R: Read + Drop> Source for FromRead<R> {
    ghost told = { λ s. given_by s };

    /// Gives what the reader gives; where that is known, the front of what it has left.
    #[tactic(auto, using(crate::proofs::Rejoins::reading_laws))]
    fn read(&mut self, piece: &mut [u8]) -> Option<usize>
        ensures bound { IfSome result (λ n. n ≤ length piece.old) }
        ensures tells { Becomes (given_by self.old) (given_by self.new) (λ g. after_read g result piece.new) }
        ensures left { HandsOut self.old self.new result piece.new }
        ensures ended { EndsEmpty self.new }
    {
        match self.inner.read(piece) {
            Ok(count) => {
                if !piece.is_empty() {
                    self.ended = count == 0;
                }
                Some(count)
            }
            Err(_) => {
                self.failures = self.failures.wrapping_add(1);
                None
            }
        }
    }
}

/// A writer of std as a sink. Every error is a failure, an interruption too.
///
/// Contracts see what it took where they see what the writer holds, as for a `Vec`.
#[derive(Drop)]
pub struct ToWrite<W: Write + Drop> {
    inner: W,
    failures: u64,
}

impl<W: Write + Drop> Model for ToWrite<W> {
    ghost use Rattle.std.specs.Prelude.{Option};
    ghost use Rattle.acc_script.specs.Told.{Taken};
    ghost use Rattle.acc_script.specs.Streams.{taken_of};

    ghost Value = { Option Taken };

    ghost view = { λ s. taken_of (W.contents s.inner) s.failures };
}

impl<W: Write + Drop> ToWrite<W> {
    /// Returns a sink that writes bytes to the writer.
    pub fn new(inner: W) -> ToWrite<W>
        ensures { result ≡ taken_of (W.contents inner) 0 }
    {
        ToWrite { inner, failures: 0 }
    }
}

impl<W: Write + Drop> Sink for ToWrite<W> {
    ghost told = { λ s. s };

    fn write(&mut self, piece: &[u8]) -> Option<usize> {
        match self.inner.write(piece) {
            Ok(count) => {
                if count == 0 && !piece.is_empty() {
                    self.failures = self.failures.wrapping_add(1);
                }
                Some(count)
            }
            Err(_) => {
                self.failures = self.failures.wrapping_add(1);
                None
            }
        }
    }

    fn flush(&mut self) -> bool {
        self.inner.flush().is_ok()
    }
}
