//! Reads whole inputs and writes whole texts.

ghost use Rattle.std.specs.Prelude.{◌≡◌, ◌<◌, ◌≤◌, [], Some, take, length, IfSome, IfNone};
ghost use Rattle.acc_script.specs.Told.{Gave, GaveAll, Failed};
ghost use Rattle.acc_script.specs.Ends.{ReadAll, Wrote};
ghost use Rattle.std.specs.List.{flat_map};

use crate::{Sink, Source};
use acc_base::Fault;
use acc_read::make_room;
use std::alloc::Global;

/// How many bytes an input may have.
const LIMIT: usize = 16_777_216;

/// Makes one read of at most `room` bytes.
#[tactic(auto, using(crate::proofs::Gives::gave_part))]
fn read_piece<R: Source>(reader: &mut R, piece: &mut [u8], room: usize) -> Option<usize>
    requires some { 0 < room }
    requires fits { room ≤ length piece.old }
    ensures bound { IfSome result (λ n. n ≤ room) }
    ensures gave { IfSome result (λ n. Gave (R.told reader.old) (R.told reader.new) (take n piece.new)) }
    ensures ended { result ≡ Some 0 → GaveAll (R.told reader.old) (R.told reader.new) [] }
    ensures failed { IfNone result (Failed (R.told reader.old) (R.told reader.new)) }
{
    reader.read(&mut piece[..room])
}

/// Reads all that a source gives up to its end.
///
/// # Errors
///
/// [`Fault::Memory`] where there is none for what it gave so far; [`Fault::Read`] where the source fails or gives more
/// than 16,777,216 bytes. It reads no more than one byte past these.
pub fn read_all<R: Source>(alloc: Global, reader: &mut R) -> Result<Vec<u8>, Fault>
    ensures { ReadAll (R.told reader.old) (R.told reader.new) result }
{
    let mut all = Vec::new(alloc);
    let mut piece = [0u8; 4096];
    'pieces: loop {
        let room = (LIMIT + 1 - all.len()).min(piece.len());
        match read_piece(reader, &mut piece, room) {
            None => return Err(Fault::Read),
            Some(0) => return Ok(all),
            Some(count) if count > LIMIT - all.len() => return Err(Fault::Read),
            Some(count) => {
                make_room(&mut all, count);
                all.extend_from_slice(&piece[..count])?;
            }
        }
    }
}

/// Writes all of the bytes to a sink; false where it failed, which then took a front of them.
#[tactic(auto, using(crate::proofs::Takes::taking_laws))]
pub fn write_all<W: Sink>(writer: &mut W, bytes: &[u8]) -> bool
    ensures { Wrote (W.told writer.old) (W.told writer.new) bytes.now result }
{
    let mut at = 0;
    while at < bytes.len() {
        let (_, rest) = bytes.split_at(at);
        match writer.write(rest) {
            None | Some(0) => return false,
            Some(count) => at += count,
        }
    }
    true
}

/// Writes the pieces to a sink, one after the other; false where it failed.
pub fn write_pieces<W: Sink>(writer: &mut W, pieces: &[&[u8]]) -> bool
    ensures { Wrote (W.told writer.old) (W.told writer.new) (flat_map (λ p. p.now) pieces.now) result }
{
    for piece in pieces {
        if !write_all(writer, piece) {
            return false;
        }
    }
    true
}
