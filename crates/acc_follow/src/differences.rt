//! The first line in which two outputs differ.

ghost use Rattle.std.specs.Prelude.{◌≡◌, ◌<◌, length, drop, option_map, true};
ghost use Rattle.std.specs.Option.{is_some};
ghost use Rattle.std.specs.Bool.{Decides};
ghost use Rattle.std.specs.List.{slice_get};
ghost use Rattle.acc_read.specs.Lines.{lines_of};
ghost use Rattle.acc_follow.specs.Differences.{Compared};

use acc_read::next_line;

/// The first line in which an output differs from the expected one.
#[derive(Clone, Copy)]
pub struct Difference<'a> {
    /// The number of the line, counted from 1.
    pub line: u64,
    /// The expected line there; `None` where no line was expected.
    pub expected: Option<&'a [u8]>,
    /// The line that came; `None` where none came.
    pub found: Option<&'a [u8]>,
}

/// Returns the first line in which an output differs from the expected one, if one does. A carriage return at the end
/// of a line does not count, nor does a line feed at the end of the last one.
pub fn first_difference<'a>(expected: &'a [u8], found: &'a [u8]) -> Option<Difference<'a>>
    ensures { Compared (lines_of expected.now) (lines_of found.now) result }
{
    let mut wanted = expected;
    let mut came = found;
    let mut same = 0u64;
    'lines: loop {
        let (line, behind) = front(wanted);
        let (other, after) = front(came);
        if !is_same(line, other) {
            return Some(Difference {
                line: same + 1,
                expected: line,
                found: other,
            });
        }
        if line.is_none() {
            return None;
        }
        wanted = behind;
        came = after;
        same += 1;
    }
}

/// The first line of a text, if it has one, and the text behind it.
fn front(text: &[u8]) -> (Option<&[u8]>, &[u8])
    ensures line { option_map (λ line. line.now) result.0 ≡ slice_get (lines_of text.now) 0 }
    ensures behind { lines_of result.1.now ≡ drop 1 (lines_of text.now) }
    ensures shorter { is_some result.0 ≡ true → length result.1.now < length text.now }
{
    if text.is_empty() {
        return (None, text);
    }
    let (line, behind) = next_line(text);
    (Some(line), behind)
}

/// Whether both are no line, or the same.
fn is_same(one: Option<&[u8]>, other: Option<&[u8]>) -> bool
    ensures { Decides result (option_map (λ line. line.now) one.entry ≡ option_map (λ line. line.now) other.entry) }
{
    match (one, other) {
        (Some(one), Some(other)) => one == other,
        (None, None) => true,
        _ => false,
    }
}
