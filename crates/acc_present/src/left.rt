//! What a detachment leaves of a counter.

/// What a detachment left of the attachment counter of a pointer (OpenACC 3.3, section 2.7.2).
#[derive(Clone, Copy, Debug, PartialEq, Eq)]
pub enum Left {
    /// The counter was zero before: nothing changed.
    Nothing,
    /// The counter fell by one, and is above zero.
    Less,
    /// The counter is zero now: the pointer is attached no longer.
    Zero,
}
