//! A line of a report, put together without allocation before it is written.

ghost use Rattle.std.specs.Prelude.{◌≡◌, ◌+◌, ◌≤◌, ◌<◌, ◌++◌, [], false, length, drop};
ghost use Rattle.std.specs.Fmt.{decimal, digits, digit_glyph};
ghost use Rattle.acc_script.specs.Ends.{Wrote};
ghost use Rattle.acc_script.specs.Texts.{address};

use crate::Sink;
use crate::ends::whole::write_all;
use std::marker::Model;

/// How long a line may be.
const ROOM: usize = 256;

/// A line on the stack. It is put together from its end to its front, so digits are written where they belong. Contracts
/// see its bytes.
#[derive(Drop)]
pub struct Line {
    bytes: [u8; ROOM],
    at: usize,
}

impl Model for Line {
    ghost use Rattle.std.specs.Prelude.{◌≤◌, ℕ, List, drop};

    ghost Value = { List ℕ };

    ghost view = { λ l. drop l.at l.bytes };

    ghost invariant = { λ l. l.at ≤ 256 };
}

impl Line {
    /// Returns an empty line.
    #[inline(always)]
    pub fn new() -> Line
        ensures { result ≡ [] }
    {
        Line {
            bytes: [0; ROOM],
            at: ROOM,
        }
    }

    /// Puts a text in front.
    #[inline(always)]
    pub fn put(&mut self, text: &[u8])
        requires room { length text.now + length self.old ≤ 256 }
        ensures text { self.new ≡ text.now ++ self.old }
        ensures length { length self.new ≡ length text.now + length self.old }
    {
        let at = self.at - text.len();
        self.bytes[at..self.at].copy_from_slice(text);
        self.at = at;
    }

    /// Puts a number in front, in decimal digits.
    #[inline(always)]
    pub fn put_number(&mut self, number: u64)
        requires room { length self.old ≤ 236 }
        ensures text { self.new ≡ decimal number ++ self.old }
        ensures length { length self.new ≤ length self.old + 20 }
    {
        self.at = put_decimal(number, &mut self.bytes, self.at);
    }

    /// Puts a name and a number in front.
    #[inline(always)]
    pub fn put_field(&mut self, name: &[u8], number: u64)
        requires room { length name.now + length self.old ≤ 236 }
        ensures text { self.new ≡ name.now ++ (decimal number ++ self.old) }
        ensures length { length self.new ≤ length name.now + (length self.old + 20) }
    {
        self.put_number(number);
        self.put(name);
    }

    /// Puts an address in front, as `0x` and hexadecimal digits in lower case.
    #[inline(always)]
    pub fn put_address(&mut self, number: u64)
        requires room { length self.old ≤ 190 }
        ensures text { self.new ≡ address number ++ self.old }
        ensures length { length self.new ≤ length self.old + 18 }
    {
        self.at = put_digits(number, &mut self.bytes, self.at);
        self.put(b"0x");
    }

    /// Returns its bytes.
    #[inline(always)]
    pub fn as_slice(&self) -> &[u8]
        ensures { result.now ≡ self.now }
    {
        &self.bytes[self.at..]
    }

    /// Writes it in one piece; false where the sink failed.
    pub(crate) fn write<W: Sink>(&self, writer: &mut W) -> bool
        ensures { Wrote (W.told writer.old) (W.told writer.new) self.now result }
    {
        write_all(writer, self.as_slice())
    }
}

/// Puts the decimal digits of a number in front of the bytes from a place on, and returns where they begin.
fn put_decimal(n: u64, bytes: &mut [u8], end: usize) -> usize
    requires room { 20 ≤ end }
    requires end { end ≤ length bytes.old }
    ensures start { (result ≤ end) × (end ≤ result + 20) }
    ensures digits { drop result bytes.new ≡ decimal n ++ drop end bytes.old }
{
    itoa::write_digits(n, bytes, end)
}

/// Puts the digits of an address in front of the bytes from a place on, and returns where they begin.
#[tactic(auto, using(crate::proofs::Digits::none_yet, crate::proofs::Digits::no_more))]
fn put_digits(n: u64, bytes: &mut [u8], end: usize) -> usize
    requires room { 64 ≤ end }
    requires end { end ≤ length bytes.old }
    ensures start { (result ≤ end) × (end ≤ result + 64) }
    ensures digits { drop result bytes.new ≡ digits 16 false n ++ drop end bytes.old }
{
    let mut left = n;
    for done in 0..64usize {
        let at = end - 1 - done;
        bytes[at] = digit((left % 16) as u8);
        left /= 16;
        if left == 0 {
            return at;
        }
    }
    end - 64
}

// The digits by their values.
static DIGITS: [u8; 16] = *b"0123456789abcdef";

fn digit(value: u8) -> u8
    requires { value < 16 }
    ensures { result ≡ digit_glyph false value }
{
    DIGITS[value as usize]
}
