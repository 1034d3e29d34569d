//! Scenes on new runtimes, and parts of a kernel. A test with `growth` in its name passes also where one growth of
//! memory, or one start of a thread, is refused.

use std::fmt::Debug;
use std::process::Abort;

mod actors;
mod drills;
mod example;
mod gates;
mod lives;
mod parts;
mod scenes;
mod serving;

/// Ends the test where what was found is not what is expected.
fn same<T: PartialEq + Debug + Copy>(rt: &impl Abort, found: T, wanted: T) {
    assert_eq!(rt; found, wanted);
}
