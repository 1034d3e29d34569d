//! The marks of a memory: what is known of each of its bytes.

ghost use Rattle.std.specs.Prelude.{◌≡◌, ◌-◌, ◌<◌, min, not, OnOk, OnErr, IfOk, IfErr, replicate, take, drop, length};
ghost use Rattle.std.specs.List.{list_any};
ghost use Rattle.acc_base.specs.declared.faults.Fault.TheVariants.{Memory};
ghost use Rattle.acc_stale.specs.declared.marks.Mark.TheVariants.{New};
ghost use Rattle.acc_stale.specs.Marks.{changed, beside_pointers, is_mark, count_of, run_at, first_other, first_run};

use crate::changes::{Change, Pointers, change_beside};
use acc_base::Fault;
use std::alloc::Global;
use std::marker::Model;

/// What is known of a byte of host memory or of a device.
#[derive(Clone, Copy, Debug, PartialEq, Eq)]
pub enum Mark {
    /// No other memory has had a newer byte.
    New,
    /// Another memory has a newer byte, or had one when the mapping ended.
    Behind,
    /// Nothing was ever copied or written there since its block was made.
    Unfilled,
}

impl Mark {
    /// Whether the marks are one.
    pub(crate) fn is(self, other: Mark) -> bool
        ensures { result ≡ is_mark self other }
    {
        match (self, other) {
            (Mark::New, Mark::New) => true,
            (Mark::Behind, Mark::Behind) => true,
            (Mark::Unfilled, Mark::Unfilled) => true,
            _ => false,
        }
    }
}

/// Bytes of a section that follow one another and have one mark.
#[derive(Clone, Copy, Debug, PartialEq, Eq)]
pub struct Run {
    /// The place of the first in the section.
    pub at: usize,
    /// How many there are.
    pub len: usize,
    /// What is known of each.
    pub mark: Mark,
}

/// The marks of all bytes of a memory, each at its offset.
#[derive(Drop)]
pub struct Marks {
    marks: Vec<Mark>,
}

impl Model for Marks {
    ghost use Rattle.std.specs.Prelude.{List};
    ghost use Rattle.acc_stale.specs.declared.marks.Mark.{Mark};

    ghost Value = { List Mark };

    ghost view = { λ m. m.marks.items };
}

impl Marks {
    /// The marks of a memory of so many bytes, which are all new.
    ///
    /// # Errors
    ///
    /// [`Fault::Memory`] alone.
    pub fn new(alloc: Global, size: u32) -> Result<Marks, Fault>
        ensures ok { IfOk result (λ marks. marks ≡ replicate size New) }
        ensures only { IfErr result (λ fault. fault ≡ Memory) }
    {
        let marks = vec![in alloc; Mark::New; size as usize]?;
        Ok(Marks { marks })
    }

    /// The marks, to read.
    pub fn as_slice(&self) -> &[Mark]
        ensures { result.now ≡ self.now }
    {
        &self.marks
    }

    /// The first bytes that are not new, of so many from an offset on. They have one mark, and are as many as follow one
    /// another.
    pub(crate) fn first_run(&self, at: u128, len: u64) -> Option<Run>
        ensures { result ≡ first_run (take len (drop at self.now)) }
    {
        let (from, count) = clipped(self.marks.len(), at, len);
        first_run(&self.marks[from..from + count])
    }

    /// Changes the marks of so many bytes from an offset on, as far as there are such bytes.
    pub(crate) fn change<C: Change>(&mut self, at: u128, len: u64, change: &C)
        ensures { self.new ≡ changed at len (C.change change.now) self.old }
    {
        let (from, count) = clipped(self.marks.len(), at, len);
        change.apply(&mut self.marks[from..from + count]);
    }

    /// The same, but for the marks of attached pointers.
    ///
    /// # Errors
    ///
    /// [`Fault::Memory`] alone. Then the marks are as they were.
    pub(crate) fn change_beside<C: Change>(
        &mut self,
        alloc: Global,
        at: u128,
        len: u64,
        pointers: Pointers<'_>,
        change: &C,
    ) -> Result<(), Fault>
        ensures ok { OnOk result (self.new ≡ changed at len (beside_pointers pointers.entry.block pointers.entry.attached.now pointers.entry.start (C.change change.now)) self.old) }
        ensures err { OnErr result (self.new ≡ self.old) }
        ensures only { IfErr result (λ fault. fault ≡ Memory) }
    {
        let (from, count) = clipped(self.marks.len(), at, len);
        change_beside(alloc, &mut self.marks[from..from + count], pointers, change)
    }
}

/// So many places from one on, as far as there are `size` places: the first of them, and how many.
pub(crate) fn clipped(size: usize, at: u128, len: u64) -> (usize, usize)
    ensures from { result.0 ≡ min at size }
    ensures count { result.1 ≡ min len (size - result.0) }
{
    let from = at.min(size as u128) as usize;
    let count = u128::from(len).min((size - from) as u128) as usize;
    (from, count)
}

/// The first of these marks that are not new.
fn first_run(marks: &[Mark]) -> Option<Run>
    ensures { result ≡ first_run marks.now }
{
    let at = first_other(Mark::New, marks)?;
    Some(run_at(marks, at))
}

/// The marks alike from a place on.
fn run_at(marks: &[Mark], at: usize) -> Run
    requires { at < length marks.now }
    ensures { result ≡ run_at marks.now at }
{
    let mark = marks[at];
    Run {
        at,
        len: count_of(mark, &marks[at..]),
        mark,
    }
}

/// How many of these marks, from the first on, are this one.
fn count_of(mark: Mark, marks: &[Mark]) -> usize
    ensures { result ≡ count_of mark marks.now }
{
    first_other(mark, marks).unwrap_or(marks.len())
}

/// The place of the first of these marks that is another one.
fn first_other(mark: Mark, marks: &[Mark]) -> Option<usize>
    ensures { result ≡ first_other mark marks.now }
{
    if !has_other(mark, marks) {
        return None;
    }
    marks.iter().position(|m| !mark.is(*m))
}

/// Whether one of these marks is another one. The loop has no branch, so that the compiler can take many at once.
fn has_other(mark: Mark, marks: &[Mark]) -> bool
    ensures { result ≡ list_any (λ m. not (is_mark mark m)) marks.now }
{
    let mut found = false;
    for m in marks {
        found |= !mark.is(*m);
    }
    found
}
