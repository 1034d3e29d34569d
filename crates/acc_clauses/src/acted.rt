//! One task of a directive that was judged.

use acc_base::{Did, Task};

/// A task with what it is judged to do.
#[derive(Clone, Copy, Default)]
pub struct Acted {
    /// What an item asks.
    pub task: Task,
    /// What it does.
    pub did: Did,
}
