//! Sources and sinks in memory.

ghost use Rattle.std.specs.Prelude.{◌≡◌, ◌≤◌, ◌+◌, ◌-◌, ◌++◌, Some, length, take, drop, min, IfSome};
ghost use Rattle.acc_script.specs.Told.{after_read, after_write, nothing_given, nothing_taken};

use crate::{Sink, Source};
use acc_read::make_room;
use std::alloc::Global;
use std::marker::Model;

/// Bytes in memory, as a source that never fails.
///
/// Contracts see what it gave and what it has left.
#[derive(Drop)]
pub struct MemorySource<'a> {
    bytes: &'a [u8],
    at: usize,
    ended: bool,
}

impl<'a> Model for MemorySource<'a> {
    ghost use Rattle.std.specs.Prelude.{◌≤◌, length, take, drop};
    ghost use Rattle.acc_script.specs.Streams.{Offered};

    ghost Value = { Offered };

    ghost view = { λ s. record {
      given = record { bytes = take s.at s.bytes.now; ended = s.ended; failures = 0 };
      left = drop s.at s.bytes.now;
    } };

    ghost invariant = { λ s. s.at ≤ length s.bytes.now };
}

impl<'a> MemorySource<'a> {
    /// Returns a source that gives these bytes from the first on.
    pub fn new(bytes: &'a [u8]) -> MemorySource<'a>
        ensures { result ≡ record { given = nothing_given; left = bytes.now } }
    {
        MemorySource {
            bytes,
            at: 0,
            ended: false,
        }
    }
}

impl<'a> Source for MemorySource<'a> {
    ghost told = { λ s. Some s.given };

    /// Gives the bytes that it has left, as many as fit into the piece.
    fn read(&mut self, piece: &mut [u8]) -> Option<usize>
        ensures bound { IfSome result (λ n. n ≤ length piece.old) }
        ensures tells { self.new.given ≡ after_read self.old.given result piece.new }
        ensures count { result ≡ Some (min (length self.old.left) (length piece.old)) }
        ensures left { IfSome result (λ n. self.old.left ≡ take n piece.new ++ self.new.left) }
    {
        let count = give(self.bytes, self.at, piece);
        self.at += count;
        if !piece.is_empty() {
            self.ended = count == 0;
        }
        Some(count)
    }
}

fn give(bytes: &[u8], at: usize, piece: &mut [u8]) -> usize
    requires { at ≤ length bytes.now }
    ensures count { result ≡ min (length bytes.now - at) (length piece.old) }
    ensures given { take (at + result) bytes.now ≡ take at bytes.now ++ take result piece.new }
    ensures left { drop at bytes.now ≡ take result piece.new ++ drop (at + result) bytes.now }
{
    let (_, rest) = bytes.split_at(at);
    let count = rest.len().min(piece.len());
    piece[..count].copy_from_slice(&rest[..count]);
    count
}

/// Bytes in memory, as a sink. It fails where there is no memory for the bytes.
///
/// Contracts see the bytes and the number of failures.
#[derive(Drop)]
pub struct MemorySink {
    bytes: Vec<u8>,
    failures: u64,
}

impl Model for MemorySink {
    ghost use Rattle.acc_script.specs.Told.{Taken};

    ghost Value = { Taken };

    ghost view = { λ s. record { bytes = s.bytes.items; failures = s.failures } };
}

impl MemorySink {
    /// Returns a sink that took nothing yet.
    pub fn new(alloc: Global) -> MemorySink
        ensures { result ≡ nothing_taken }
    {
        MemorySink {
            bytes: Vec::new(alloc),
            failures: 0,
        }
    }

    /// Returns the bytes that it took so far.
    pub fn as_slice(&self) -> &[u8]
        ensures { result.now ≡ self.now.bytes }
    {
        &self.bytes
    }
}

impl Sink for MemorySink {
    ghost told = { λ s. Some s };

    /// Takes all of the piece; fails where there is no memory for it.
    fn write(&mut self, piece: &[u8]) -> Option<usize>
        ensures bound { IfSome result (λ n. n ≤ length piece.now) }
        ensures tells { self.new ≡ after_write self.old result piece.now }
        ensures all { IfSome result (λ n. n ≡ length piece.now) }
    {
        make_room(&mut self.bytes, piece.len());
        if self.bytes.extend_from_slice(piece).is_err() {
            self.failures = self.failures.wrapping_add(1);
            return None;
        }
        Some(piece.len())
    }
}
