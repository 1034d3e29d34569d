//! What a search answers, and what is copied of an entry.
ghost use Rattle.std.specs.Prelude.{◌≡◌, ℕ};

use crate::keys::Key;
use crate::places::Place;

/// An entry where it stands in a list.
#[derive(Clone, Copy)]
pub struct KeyValueRef<'a, K, T> {
    /// Its key. No two entries of a list have the same.
    pub key: K,
    /// What is kept under the key.
    pub value: &'a T,
}

/// The entries on both sides of a key.
#[derive(Clone, Copy)]
pub struct Neighbors<'a, K, T> {
    /// The entry of greatest key before it.
    pub before: Option<KeyValueRef<'a, K, T>>,
    /// The entry of least key from it on.
    pub from: Option<KeyValueRef<'a, K, T>>,
    /// Where the entry before it stands. Where there is none, it is of no meaning.
    pub place: Place,
}

/// What is copied of an entry.
pub trait Telling<K: Key, T, U> {
    ghost told: { Self → ℕ → T → U };

    /// The copy of an entry.
    fn tell(&self, key: K, value: T) -> U
        ensures { result ≡ told self.now (K.number key) value };
}
