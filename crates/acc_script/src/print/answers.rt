//! Bytes, presence and device addresses, each written without allocation.

ghost use Rattle.std.specs.Prelude.{◌≤◌, length, option_map};
ghost use Rattle.hex.specs.Hex.{encode_lower};
ghost use Rattle.acc_script.specs.Ends.{Wrote};
ghost use Rattle.acc_script.specs.Shown.{bytes_text, read_text, presence_text, place_text};

use crate::Sink;
use crate::ends::whole::write_all;
use crate::print::lines::Line;

/// How many bytes are turned into digits at a time.
const PIECE: usize = 64;

/// Writes the bytes that a memory has, if it has them, as a line; false where the sink failed.
pub fn write_read<W: Sink>(writer: &mut W, bytes: Option<&[u8]>) -> bool
    ensures { Wrote (W.told writer.old) (W.told writer.new) (read_text (option_map (λ b. b.now) bytes.entry)) result }
{
    match bytes {
        None => write_all(writer, b"none\n"),
        Some(bytes) => write_bytes(writer, bytes),
    }
}

/// Writes bytes as a line of digits, and a dash for no byte.
fn write_bytes<W: Sink>(writer: &mut W, bytes: &[u8]) -> bool
    ensures { Wrote (W.told writer.old) (W.told writer.new) (bytes_text bytes.now) result }
{
    if bytes.is_empty() {
        return write_all(writer, b"-\n");
    }
    if !write_digits(writer, bytes) {
        return false;
    }
    write_all(writer, b"\n")
}

fn write_digits<W: Sink>(writer: &mut W, bytes: &[u8]) -> bool
    ensures { Wrote (W.told writer.old) (W.told writer.new) (encode_lower bytes.now) result }
{
    let mut at = 0;
    while at < bytes.len() {
        let (_, rest) = bytes.split_at(at);
        let (piece, _) = rest.split_at(rest.len().min(PIECE));
        if !write_piece(writer, piece) {
            return false;
        }
        at += piece.len();
    }
    true
}

fn write_piece<W: Sink>(writer: &mut W, piece: &[u8]) -> bool
    requires { length piece.now ≤ 64 }
    ensures { Wrote (W.told writer.old) (W.told writer.new) (encode_lower piece.now) result }
{
    let mut buffer = [0u8; 2 * PIECE];
    let (digits, _) = buffer.split_at_mut(2 * piece.len());
    let _ = hex::encode_to_slice(piece, digits);
    write_all(writer, digits)
}

/// Writes whether a section is present; false where the sink failed.
pub fn write_presence<W: Sink>(writer: &mut W, present: bool) -> bool
    ensures { Wrote (W.told writer.old) (W.told writer.new) (presence_text present) result }
{
    if present {
        write_all(writer, b"yes\n")
    } else {
        write_all(writer, b"no\n")
    }
}

/// Writes a device address, or that there is none; false where the sink failed.
pub fn write_place<W: Sink>(writer: &mut W, place: Option<u64>) -> bool
    ensures { Wrote (W.told writer.old) (W.told writer.new) (place_text place) result }
{
    match place {
        None => write_all(writer, b"none\n"),
        Some(place) => {
            let mut line = Line::new();
            line.put(b"\n");
            line.put_address(place);
            line.write(writer)
        }
    }
}
