//! A worker that receives which queues to serve.

use crate::tests::actors::{Actor, Deed, Row};
use crate::tests::gates::{Meeting, Watch};
use crate::tests::same;
use crate::tests::scenes::{Scene, play_each};
use acc_base::{Fault, UpdateClause};
use acc_runtime::{Limited, Served, serve};
use crossbeam_channel::{Receiver, Sender, unbounded};
use std::process::Abort;
use std::rt::Clock;
use std::sync::Wait;
use std::sync::atomic::{AtomicU64, Ordering};
use std::sync::ledger::Ledger;

/// What a worker does and receives.
#[derive(Clone, Copy)]
pub struct Service {
    /// The calls that it makes before it serves.
    pub rows: &'static [Row],
    /// The words that it receives, in order.
    pub words: &'static [u64],
    /// How many events there were since the call before, when the gate is called before and after each word.
    pub events: &'static [u64],
    /// How many steps it makes, and how often one is refused.
    pub served: Served,
    /// The calls behind that.
    pub behind: &'static [Row],
}

/// The array is mapped, and a copy of it is put into queue 3.
const PUT: [Row; 2] = [
    (Deed::EnterData, Ok(0)),
    (Deed::Update(UpdateClause::ToSelf, Some(3)), Ok(0)),
];

/// What is left of the copy is made behind.
const SERVICES: [Scene; 2] = [
    Scene::Serve(Service {
        rows: &PUT,
        words: &[],
        events: &[],
        served: Served {
            steps: 0,
            refusals: 0,
        },
        behind: &[(Deed::Wait(Some(3)), Ok(1))],
    }),
    Scene::Serve(Service {
        rows: &PUT,
        words: &[3, 3, 16],
        events: &[2, 1, 0, 0, 0, 0],
        served: Served {
            steps: 1,
            refusals: 1,
        },
        behind: &[(Deed::Wait(Some(3)), Ok(0))],
    }),
];

/// Sends all words, closes the channel behind them, and returns whether there was memory for them.
fn send_all<R: Wait>(rt: &R, to: Sender<u64>, words: &[u64]) -> bool {
    let mut are_sent = true;
    for word in words {
        are_sent &= to.send(rt, *word).is_ok();
    }
    are_sent
}

impl<
    Regions: Limited,
    Tickets: Ledger,
    Events: Ledger,
    R: Abort + Clock + Wait + AllocGlobal,
> Actor<'_, Regions, Tickets, Events, R> {
    /// Compares what a worker did. Memory may be refused for a step, which is one refusal more. A later word made the
    /// step then.
    fn must_serve(&self, found: Served, saw_all: bool, wanted: Served) {
        let lacked = self.may_lack && wanted.refusals < found.refusals;
        let refusals = wanted.refusals.saturating_add(u64::from(lacked));
        let wanted = Served { refusals, ..wanted };
        same(self.rt, (found, saw_all || lacked), (wanted, true));
    }

    /// Does what a service says, as the worker of a number in a meeting.
    fn serve_from(
        &mut self,
        from: &Receiver<u64>,
        service: Service,
        meeting: &Meeting,
        number: usize,
    ) {
        self.make_rows(service.rows);
        let watch = Watch {
            meeting,
            number,
            runtime: self.runtime,
            wanted: service.events,
            calls: AtomicU64::new(0),
        };
        let words = from.iter(self.rt);
        let served = serve(self.rt, self.runtime, &mut self.caller, words, &watch);
        // It was called as often as it should be, for the right words in order, and folded each time what it should.
        let saw_all = watch.calls.load(Ordering::SeqCst) == service.events.len() as u64;
        self.must_serve(served, saw_all, service.served);
        self.make_rows(service.behind);
    }

    /// Does what a service says with a channel of its own, as the worker of a number in a meeting.
    pub fn serve_in(
        &mut self,
        service: Service,
        meeting: &Meeting,
        number: usize,
    ) -> Result<(), Fault> {
        let Ok((to, from)) = unbounded::<u64, _>(self.rt.alloc()) else {
            return Err(Fault::Memory);
        };
        if send_all(self.rt, to, service.words) {
            self.serve_from(&from, service, meeting, number);
            Ok(())
        } else {
            Err(Fault::Memory)
        }
    }
}

#[test]
fn queues_are_served_as_the_words_say(rt: HostRuntime) -> Result<(), Fault> {
    play_each(&rt, &SERVICES, false)
}

/// A step that memory is refused for is a refusal, and its transfer is left for the next word.
#[test]
fn a_refused_growth_is_counted_by_a_worker(rt: HostRuntime) -> Result<(), Fault> {
    play_each(&rt, &SERVICES, true)
}
