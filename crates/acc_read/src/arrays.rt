//! The arrays of a script, and where they lie in host memory.

ghost use Rattle.std.specs.Prelude.{◌≡◌, ◌+◌, ◌≤◌, ◌<◌, [], ◌∷◌, length, nat_eq, OnOk, OnErr, MatchOption};
ghost use Rattle.std.specs.Cmp.{partial_equiv_from_equiv};
ghost use Rattle.std.specs.Cmp.Lexicographic.{pointwise, nat_list_eq_equiv};
ghost use Rattle.std.specs.Cmp.Rules.{hashing};
ghost use Rattle.std.proofs.Common.{rules};
ghost use Rattle.acc_read.specs.Layout.{no_arrays, array_of, next_array, with_array, whole, part_of, byte_of};

use crate::tokens::{NAME_MAX, are_same};
use acc_base::{HOST_BASE, MEMORY_MAX, Section};
use std::alloc::{AllocError, Global};
use std::collections::HashMap;
use std::hash::{Hash, Hasher};
use std::marker::Model;

/// The host addresses from `start` up to `end`, which is not one of them.
#[derive(Clone, Copy)]
pub struct Array {
    /// The first address.
    pub start: u32,
    /// The address behind the last one.
    pub end: u32,
}

impl Array {
    /// All of the array.
    pub fn whole(self) -> Section
        ensures { result ≡ whole self }
    {
        Section {
            start: u64::from(self.start),
            len: u64::from(self.end.saturating_sub(self.start)),
        }
    }

    /// The host address of the byte at an offset. It may lie past the array.
    pub fn byte(self, from: u32) -> u64
        ensures { result ≡ byte_of self from }
    {
        u64::from(self.start) + u64::from(from)
    }

    /// The section of `len` bytes from an offset on. It may lie past the array.
    pub fn part(self, from: u32, len: u32) -> Section
        ensures { result ≡ part_of self from len }
    {
        Section {
            start: u64::from(self.start) + u64::from(from),
            len: u64::from(len),
        }
    }
}

/// A name of at most 32 bytes. They stand in the key itself, so that no other memory is looked at to compare them.
/// Contracts see them.
#[derive(Drop)]
struct NameKey {
    bytes: [u8; NAME_MAX],
    len: usize,
}

impl Model for NameKey {
    ghost use Rattle.std.specs.Prelude.{ℕ, List, ◌≤◌, take};

    ghost Value = { List ℕ };

    ghost view = { λ name. take name.len name.bytes };

    ghost invariant = { λ name. name.len ≤ 32 };
}

impl NameKey {
    /// The key of a name; `None` where that has more than 32 bytes.
    #[inline(always)]
    fn new(name: &[u8]) -> Option<NameKey>
        ensures { MatchOption result (32 < length name.now) (λ key. key ≡ name.now) }
    {
        if name.len() > NAME_MAX {
            return None;
        }
        let mut bytes = [0u8; NAME_MAX];
        bytes[..name.len()].copy_from_slice(name);
        Some(NameKey {
            bytes,
            len: name.len(),
        })
    }

    /// The bytes of the name.
    #[inline(always)]
    fn as_slice(&self) -> &[u8]
        ensures { result.now ≡ self.now }
    {
        &self.bytes[..self.len]
    }
}

impl PartialEq for NameKey {
    ghost eq = { pointwise nat_eq };

    ghost laws = { partial_equiv_from_equiv nat_list_eq_equiv };

    #[inline(always)]
    fn eq(&self, other: &NameKey) -> bool {
        are_same(self.as_slice(), other.as_slice())
    }
}

impl Eq for NameKey {
    ghost laws = { nat_list_eq_equiv };
}

impl Hash for NameKey {
    ghost hash_input = { λ name. name ∷ [] };

    ghost respects_eq = { Prim.search (hashing, rules) };

    /// All bytes are hashed at once, so that a name costs one call.
    #[inline(always)]
    fn hash<H: Hasher>(&self, state: &mut H) {
        state.write(self.as_slice());
    }
}

/// The arrays that a script has declared, by their names.
///
/// Contracts see where each lies, where the last one ends, and where host memory ends.
pub struct Arrays {
    by_name: HashMap<NameKey, Array>,
    last_end: u32,
    limit: u32,
}

// By hand, so that a crate above does not prove the drops of its parts again.
impl Drop for Arrays {
    fn drop(self) {
        let Arrays {
            by_name: _,
            last_end: _,
            limit: _,
        } = self;
    }
}

impl Model for Arrays {
    ghost use Rattle.acc_read.specs.Layout.{ArrayLayout};
    ghost use Rattle.acc_read.specs.Coding.{layout_code};

    ghost Value = { ArrayLayout };

    ghost coded = { layout_code };

    ghost use Rattle.std.specs.Prelude.{◌≡◌, ◌<◌, ℕ, List, None, length};
    ghost use Rattle.std.specs.FinMap as map;
    ghost use Rattle.std.specs.Map.{lookup};
    ghost use Rattle.std.specs.Str.{bytes_eq};

    ghost view = { λ a. record { names = map.from_entries a.by_name.entries; last_end = a.last_end; limit = a.limit } };

    // No name among them has more than 32 bytes.
    ghost invariant = { λ a. (name : List ℕ) → 32 < length name → lookup (bytes_eq name) a.by_name.entries ≡ None };
}

impl Arrays {
    /// No array, in host memory of `host` bytes.
    pub fn new(alloc: Global, host: u32) -> Arrays
        requires { host ≤ MEMORY_MAX }
        ensures { result ≡ no_arrays host }
    {
        Arrays {
            by_name: HashMap::new(alloc),
            last_end: HOST_BASE as u32,
            limit: HOST_BASE as u32 + host,
        }
    }

    /// The array of a name, if it is declared.
    #[inline(always)]
    pub fn get(&self, name: &[u8]) -> Option<Array>
        ensures { result ≡ array_of name.now self.now }
    {
        let names = &self.by_name;
        names.get(&NameKey::new(name)?).copied()
    }

    /// The next array of `len` bytes: it starts at the least multiple of 16 at or after the end of the one before.
    /// `None` where it does not end within host memory.
    pub fn next_array(&self, len: u32) -> Option<Array>
        ensures { result ≡ next_array len self.now }
    {
        let limit = u64::from(self.limit);
        let start = u64::from(self.last_end).div_ceil(16) * 16;
        let end = start + u64::from(len);
        if limit < end {
            return None;
        }
        Some(Array {
            start: start as u32,
            end: end as u32,
        })
    }

    /// Adds an array behind the last one.
    ///
    /// # Errors
    ///
    /// [`AllocError`] where there is no memory, or the name has more than 32 bytes. Nothing changed then.
    pub fn insert(&mut self, name: &[u8], array: Array) -> Result<(), AllocError>
        ensures ok { OnOk result (self.new ≡ with_array name.now array self.old) }
        ensures err { OnErr result (self.new ≡ self.old) }
    {
        let key = NameKey::new(name).ok_or(AllocError)?;
        self.by_name.insert(key, array)?;
        self.last_end = array.end;
        Ok(())
    }
}
