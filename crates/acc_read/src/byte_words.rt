//! Words that say bytes.

ghost use Rattle.std.specs.Prelude.{◌≡◌, ◌≤◌, ◌*◌, ◌/◌, ◌%◌, true, Ok, Some, length, slice_index, IsOk, MatchResult};
ghost use Rattle.std.specs.List.{list_all};
ghost use Rattle.std.specs.Char.{is_ascii_hexdigit};
ghost use Rattle.acc_read.specs.Tokens.{word_at};
ghost use Rattle.acc_read.specs.Bytes.{bytes_said, next_said};
ghost use Rattle.hex.specs.Hex.{decode_of, hex_digit_value};

use crate::runs::{ByteTest, passing_len};
use crate::tokens::{begins_word, skip_blanks};
use acc_base::ScriptFault;
use std::marker::Model;

/// The bytes that a word of a line says, at most 64, with two hexadecimal digits of either case each. They stay in the
/// line until they are copied. Contracts see the bytes.
#[derive(Drop)]
pub struct ByteWord<'a> {
    digits: &'a [u8],
}

impl<'a> Model for ByteWord<'a> {
    ghost use Rattle.std.specs.Prelude.{ℕ, List, IsOk};
    ghost use Rattle.acc_read.specs.Bytes.{bytes_said, bytes_in};

    ghost Value = { List ℕ };

    ghost view = { λ word. bytes_in word.digits.now };

    ghost invariant = { λ word. IsOk (bytes_said word.digits.now) };
}

impl<'a> ByteWord<'a> {
    /// The bytes of a word that says some. [`byte_word_at`] gives such words.
    #[tactic(auto, using(crate::proofs::ByteWords::said_laws))]
    pub(crate) fn new(digits: &'a [u8]) -> ByteWord<'a>
        requires { IsOk (bytes_said digits.now) }
        ensures { bytes_said digits.now ≡ Ok result }
    {
        ByteWord { digits }
    }

    /// How many bytes there are.
    #[inline(always)]
    #[tactic(auto, using(crate::proofs::ByteWords::said_laws))]
    pub fn len(&self) -> usize
        ensures len { result ≡ length self.now }
        ensures few { result ≤ 64 }
    {
        self.digits.len() / 2
    }

    /// Copies the bytes to where there is room for just as many.
    #[inline(always)]
    #[tactic(auto, using(crate::proofs::ByteWords::said_laws))]
    pub fn copy_to(&self, room: &mut [u8])
        requires { length room.old ≡ length self.now }
        ensures { room.new ≡ self.now }
    {
        put_bytes(self.digits, room);
    }
}

/// How many digits may stand in one word.
const DIGIT_LIMIT: usize = 128;

/// A hexadecimal digit, of either case.
struct HexDigit;

impl ByteTest for HexDigit {
    ghost test = { is_ascii_hexdigit };

    fn passes(byte: u8) -> bool {
        ((b'0' <= byte) & (byte <= b'9'))
            | ((b'A' <= byte) & (byte <= b'F'))
            | ((b'a' <= byte) & (byte <= b'f'))
    }
}

/// The next word, which has to say bytes, and the text after it. It has pairs of hexadecimal digits, of either case.
#[inline(always)]
#[tactic(auto, using(crate::proofs::ByteWords::word_laws))]
pub fn byte_word_at(text: &[u8]) -> Result<(&[u8], &[u8]), ScriptFault>
    ensures { MatchResult result
        (λ x. (word_at text.now ≡ Ok (x.0.now, x.1.now)) × IsOk (bytes_said x.0.now))
        (λ fault. next_said text.now ≡ Err fault) }
{
    let token = skip_blanks(text);
    let len = passing_len::<HexDigit>(token);
    let (word, rest) = token.split_at(len);
    if begins_word(rest) || len == 0 {
        return Err(ScriptFault::Syntax);
    }
    if len > DIGIT_LIMIT || len % 2 == 1 {
        return Err(ScriptFault::Number);
    }
    Ok((word, rest))
}

/// Puts the bytes that a word says where there is room for them.
fn put_bytes(word: &[u8], bytes: &mut [u8])
    requires digits { list_all is_ascii_hexdigit word.now ≡ true }
    requires room { length word.now ≡ 2 * length bytes.old }
    ensures { decode_of word.now ≡ Ok bytes.new }
{
    let (pairs, _) = word.as_chunks::<2>();
    'bytes: for i in 0..bytes.len() {
        bytes[i] = pair_value(pairs[i]);
    }
}

/// The byte that two hexadecimal digits say. They are taken together and no branch depends on them, so that the
/// compiler can read many at once. The four low bits of a letter are its place from 1 on, and 9 stand before it.
fn pair_value(pair: [u8; 2]) -> u8
    requires high { is_ascii_hexdigit (slice_index pair 0) ≡ true }
    requires low { is_ascii_hexdigit (slice_index pair 1) ≡ true }
    ensures high { hex_digit_value (slice_index pair 0) ≡ Some (result / 16) }
    ensures low { hex_digit_value (slice_index pair 1) ≡ Some (result % 16) }
{
    let digits = u16::from(pair[0]) + u16::from(pair[1]) * 256;
    let letters = digits / 64 % 2 + digits / 16384 % 2 * 256;
    let values = (digits + letters * 9) % 4096 * 16;
    ((values + values / 4096) % 256) as u8
}
