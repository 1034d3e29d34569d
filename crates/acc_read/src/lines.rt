//! The lines of an input.

ghost use Rattle.std.specs.Prelude.{◌≡◌, ◌<◌, ◌∷◌, ◌==◌, not, length};
ghost use Rattle.acc_read.specs.Lines.{without_return, lines_of, line_feed};

use crate::runs::{ByteTest, passing_len};

/// The first line of an input that is not empty, and the input after it.
#[tactic(auto, using(crate::proofs::Pieces::first_line))]
pub fn next_line(input: &[u8]) -> (&[u8], &[u8])
    requires { 0 < length input.now }
    ensures line { lines_of input.now ≡ result.0.now ∷ lines_of result.1.now }
    ensures shorter { length result.1.now < length input.now }
{
    let (piece, rest) = input.split_at(passing_len::<LineByte>(input));
    let (_, after) = rest.split_at(rest.len().min(1));
    (without_return(piece), after)
}

/// A byte that ends no line.
struct LineByte;

impl ByteTest for LineByte {
    ghost test = { λ b. not (b == line_feed) };

    fn passes(byte: u8) -> bool {
        byte != b'\n'
    }
}

/// The bytes without one carriage return at the end.
fn without_return(piece: &[u8]) -> &[u8]
    ensures { result.now ≡ without_return piece.now }
{
    match piece.strip_suffix(b"\r".as_slice()) {
        Some(front) => front,
        None => piece,
    }
}
