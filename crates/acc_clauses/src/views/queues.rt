//! The transfers that wait in the queues of a device.

ghost use Rattle.std.specs.Prelude.{◌≡◌, ◌≤◌, length, option_map, slice_get};
ghost use Rattle.acc_base.specs.Queues.{queue_at, head_of};
ghost use Rattle.acc_base.specs.Waits.{steps_of};

use crate::views::View;
use acc_base::{QUEUE_COUNT, Transfer};

impl View<'_> {
    /// How many transfers wait in a queue; 0 where there is no such queue (OpenACC 3.3, section 2.16).
    pub fn queue_len(&self, q: u64) -> u64
        ensures value { result ≡ length (queue_at q self.now.state.records.queues) }
        ensures limit { result ≤ self.now.limits.queue_cap }
        ensures bound { self.now.limits.queue_cap ≤ 4096 }
    {
        self.laws();
        self.environment.queues.len(q)
    }

    /// How many transfers wait in a queue, or in all queues together: as many as `wait` makes.
    pub fn waiting(&self, queue: Option<u64>) -> u64
        ensures { result ≡ length (steps_of queue self.now.state.records.queues) }
    {
        match queue {
            Some(q) => self.queue_len(q),
            None => {
                let mut count = 0;
                for q in 0..QUEUE_COUNT {
                    count += self.queue_len(q);
                }
                self.laws();
                count
            }
        }
    }

    /// The number of the block that the first transfer of a queue names, if the queue has one.
    pub fn head_block(&self, q: u64) -> Option<u64>
        ensures { result ≡ option_map (λ t. t.block) (head_of q self.now.state.records.queues) }
    {
        self.environment.queues.head(q).map(|t| t.block)
    }

    /// The transfer at a place of a queue, counted from the one that is made next. `None` exactly where not as many wait in
    /// it, or there is no such queue (OpenACC 3.3, section 2.16).
    pub fn queued(&self, q: u64, place: u64) -> Option<Transfer>
        ensures { result ≡ slice_get (queue_at q self.now.state.records.queues) place }
    {
        self.environment.queues.at(q, place).copied()
    }

    /// The block that the transfer at a place of a queue names, counted from its first one, if it has so many.
    pub(crate) fn waiting_block(&self, q: u64, place: u64) -> Option<u64>
        ensures { result ≡ option_map (λ t. t.block) (slice_get (queue_at q self.now.state.records.queues) place) }
    {
        self.environment.queues.at(q, place).map(|t| t.block)
    }
}
