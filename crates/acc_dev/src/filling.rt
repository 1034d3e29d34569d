//! The bytes of new blocks, and the vectors that are made for those to come.

ghost use Rattle.std.specs.Prelude.{◌≡◌, ◌<◌, ◌≤◌, length, map, [], replicate, vec_capacity, IfOk, IfErr, OnOk, OnErr};
ghost use Rattle.std.specs.List.{AllByRecursion};
ghost use Rattle.acc_base.specs.Bytes.{fill_byte};

use acc_base::Fault;
use std::alloc::Global;
use std::collections::VecDeque;

/// The byte of a new block that is not set to zero.
const FILL_BYTE: u8 = 0xa5;

/// The byte that fills a new block.
fn byte_that_fills(zero: bool) -> u8
    ensures { result ≡ fill_byte zero }
{
    if zero { 0 } else { FILL_BYTE }
}

/// Puts an empty vector for each length, with room for as many bytes, into a list that is empty.
fn add_vectors(vectors: &mut VecDeque<Vec<u8>>, alloc: Global, lens: &[u64]) -> Result<(), Fault>
    requires { vectors.old.items ≡ [] }
    ensures room { OnOk result (map (λ v. vec_capacity v) vectors.new.items ≡ lens.now) }
    ensures empty { OnOk result (AllByRecursion (λ v. v.items ≡ []) vectors.new.items) }
    ensures needed { OnErr result (0 < length lens.now) }
    ensures only { IfErr result (λ fault. fault ≡ Fault.Memory) }
{
    for len in lens {
        vectors.push_back(Vec::with_capacity(alloc, *len as usize)?)?;
    }
    Ok(())
}

/// As [`add_vectors`], but the list is empty again where memory is refused. It keeps its own room.
pub fn make_vectors(
    vectors: &mut VecDeque<Vec<u8>>,
    alloc: Global,
    lens: &[u64],
) -> Result<(), Fault>
    requires { vectors.old.items ≡ [] }
    ensures room { OnOk result (map (λ v. vec_capacity v) vectors.new.items ≡ lens.now) }
    ensures empty { OnOk result (AllByRecursion (λ v. v.items ≡ []) vectors.new.items) }
    ensures none { OnErr result (vectors.new.items ≡ []) }
    ensures needed { OnErr result (0 < length lens.now) }
    ensures only { IfErr result (λ fault. fault ≡ Fault.Memory) }
{
    let made = add_vectors(vectors, alloc, lens);
    if made.is_err() {
        vectors.clear();
    }
    made
}

/// Fills an empty vector that has room with the bytes of a new block.
pub fn fill(bytes: &mut Vec<u8>, len: u64, zero: bool)
    requires empty { bytes.old.items ≡ [] }
    requires room { len ≤ vec_capacity bytes.old }
    ensures { bytes.new.items ≡ replicate len (fill_byte zero) }
{
    let Ok(()) = bytes.resize(len as usize, byte_that_fills(zero)) else {
        unreachable!()
    };
}

/// The bytes of a new block.
pub fn filled(alloc: Global, len: u64, zero: bool) -> Result<Vec<u8>, Fault>
    ensures ok { IfOk result (λ bytes. bytes.items ≡ replicate len (fill_byte zero)) }
    ensures only { IfErr result (λ fault. fault ≡ Fault.Memory) }
{
    let fill = byte_that_fills(zero);
    Ok(vec![in alloc; fill; len as usize]?)
}
