//! The plan of a directive.

ghost use Rattle.std.specs.Prelude.{◌≡◌, ◌≤◌, [], length, None};
ghost use Rattle.acc_clauses.specs.Overlays.{tasks_in, dids_in};
ghost use Rattle.acc_clauses.specs.Acts.{lens_born};

use crate::acted::Acted;
use crate::drafts::Draft;
use std::marker::Model;

/// A directive that was judged whole: what each of its items will do.
///
/// All of it lies in the value, some 28 KiB: room for 64 items, and 16 KiB of places that it remembers. So a plan that is
/// used again costs nothing to make, and finds again what it found.
pub struct Plan {
    pub(crate) draft: Draft,
    // The queue that the directive names.
    pub(crate) queue: Option<u64>,
}

// By hand, so that a crate above does not prove the drops of its parts again.
impl Drop for Plan {
    fn drop(self) {
        let Plan { draft: _, queue: _ } = self;
    }
}

impl Model for Plan {
    ghost use Rattle.acc_clauses.specs.Overlays.{tasks_in, dids_in};
    ghost use Rattle.acc_clauses.specs.Planned.{Planned};

    ghost Value = { Planned };

    ghost view = { λ p. record { tasks = tasks_in p.draft; dids = dids_in p.draft; queue = p.queue } };
}

impl Plan {
    /// A plan of nothing, to be filled by [`crate::DeviceData::plan`]. It allocates nothing.
    pub fn new() -> Self
        ensures { result ≡ record { tasks = []; dids = []; queue = None } }
    {
        Plan {
            draft: Draft::new(),
            queue: None,
        }
    }

    /// Its tasks in the order in which they act, each with what it does. It allocates nothing.
    #[inline(always)]
    pub fn acts(&self) -> &[Acted]
        ensures tasks { tasks_in result.now ≡ self.now.tasks }
        ensures dids { dids_in result.now ≡ self.now.dids }
        ensures few { length result.now ≤ 64 }
    {
        self.draft.acts()
    }

    /// The queue that the directive names.
    #[inline(always)]
    pub(crate) fn queue(&self) -> Option<u64>
        ensures { result ≡ self.now.queue }
    {
        self.queue
    }

    /// The lengths of the blocks that its tasks give birth to, one after the other.
    #[tactic(auto, using(crate::proofs::Drafted::lens_laws))]
    pub(crate) fn lens(&self) -> &[u64]
        ensures lens { result.now ≡ lens_born self.now.tasks self.now.dids }
        ensures few { length result.now ≤ 64 }
    {
        self.draft.lens()
    }
}
