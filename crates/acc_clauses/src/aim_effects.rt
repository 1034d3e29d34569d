//! What look-ups of pointers return after tasks that were judged and not done yet.

ghost use Rattle.std.specs.Prelude.{◌≡◌, ◌+◌, ◌<◌, ◌≤◌, ◌^◌, length};
ghost use Rattle.acc_base.specs.Attachments.{count_after};
ghost use Rattle.acc_clauses.specs.Aims.{count_over, place_by, place_over, value_by, value_over};

use crate::acted::Acted;
use acc_base::{Aim, Did, Step};

// What an attachment or a detachment makes of the count of one pointer in a block.
fn count_after(block: u64, pointer: u64, aim: Aim, count: u64) -> u64
    requires { count < 2 ^ 40 }
    ensures value { result ≡ count_after block pointer aim count }
    ensures most { result ≤ count + 1 }
{
    let (of, at, after) = match aim {
        Aim::None => return count,
        Aim::New { pointer, block, .. } => (block, pointer, 1),
        Aim::Again { pointer, block } => (block, pointer, count + 1),
        Aim::Less { pointer, block } => (block, pointer, count.saturating_sub(1)),
        Aim::Cleared { pointer, block } => (block, pointer, 0),
    };
    if of == block && at == pointer {
        after
    } else {
        count
    }
}

/// The attachment counter of a pointer in a block after tasks.
pub fn count_over(block: u64, pointer: u64, count: u64, acts: &[Acted]) -> u64
    requires few { length acts.now ≤ 64 }
    requires count { count < 2 ^ 32 }
    ensures { result ≡ count_over block pointer count acts.now }
{
    let mut after = count;
    for x in acts {
        after = count_after(block, pointer, x.did.aim, after);
    }
    after
}

// The device address of a block after one task that ends no mapping.
fn place_by(block: u64, place: u64, step: Step) -> u64
    ensures { result ≡ place_by block place step }
{
    match step {
        Step::Born {
            block: of,
            place: new,
        } => { if of == block { new } else { place } }
        _ => place,
    }
}

/// The device address of a block after entries.
pub fn place_over(block: u64, place: u64, acts: &[Acted]) -> u64
    ensures { result ≡ place_over block place acts.now }
{
    let mut after = place;
    for x in acts {
        after = place_by(block, after, x.did.step);
    }
    after
}

// The address that a pointer in a block holds after one attachment.
fn value_by(block: u64, pointer: u64, value: u64, aim: Aim) -> u64
    ensures { result ≡ value_by block pointer value aim }
{
    match aim {
        Aim::New {
            pointer: at,
            block: of,
            target,
        } => {
            if of == block && at == pointer {
                target
            } else {
                value
            }
        }
        _ => value,
    }
}

/// The address that an attached pointer in a block holds after entries.
pub fn value_over(block: u64, pointer: u64, value: u64, acts: &[Acted]) -> u64
    ensures { result ≡ value_over block pointer value acts.now }
{
    let mut after = value;
    for x in acts {
        after = value_by(block, pointer, after, x.did.aim);
    }
    after
}
