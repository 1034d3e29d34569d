//! Copies of all entries in rows, and of keys.
ghost use Rattle.std.specs.Prelude.{◌≡◌, length, IfOk, IfErr};
ghost use Rattle.acc_ordered.specs.Laid.{side_by_side};
ghost use Rattle.acc_ordered.specs.Listing.{told_in};

use crate::entries::Telling;
use crate::keys::Key;
use crate::rows::Row;
use acc_base::Fault;
use std::alloc::{AllocError, Global};
use std::collections::VecDeque;

/// A copy of each of the `len` entries in rows, in a vector of their own.
pub fn copy_rows<K: Key, T: Copy, U: Copy, C: Telling<K, T, U>>(
    alloc: Global,
    rows: &VecDeque<Row<K, T>>,
    len: u64,
    telling: &C,
) -> Result<Vec<U>, Fault>
    requires { len ≡ length (side_by_side rows.now.items) }
    ensures ok { IfOk result (λ copied. copied.items ≡ told_in (C.told telling.now) (side_by_side rows.now.items)) }
    ensures only { IfErr result (λ fault. fault ≡ Fault.Memory) }
{
    let mut copied = Vec::with_capacity(alloc, len as usize)?;
    for number in 0..rows.len() {
        rows[number].copy_into(telling, &mut copied)?;
    }
    Ok(copied)
}

/// A copy of keys in a queue.
pub fn copy_keys<K: Copy>(alloc: Global, keys: &VecDeque<K>) -> Result<VecDeque<K>, AllocError>
    ensures { IfOk result (λ copied. copied.items ≡ keys.now.items) }
{
    let (front, behind) = keys.as_slices();
    let mut copied = Vec::from_slice(alloc, front)?;
    copied.extend_from_slice(behind)?;
    Ok(VecDeque::from_vec(copied))
}
