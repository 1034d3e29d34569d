//! Limits: each holds to the last, and its refusal comes in its turn.

use crate::tests::language::Ask::{self, Do, Exit, Lend};
use crate::tests::language::Check::{Counted, Device, Events, Queue, Used};
use crate::tests::language::Line::{Brings, Does, Gives, On, Rebases, Refuses, Says};
use crate::tests::language::{Limits, Row, WIDE};
use crate::tests::rows::A;
use crate::tests::rows::loans::LOAN;
use acc_base::Fault;

const NO_TICKET: Fault = Fault::NoTickets { left: 0 };

const NO_ROOM: Fault = Fault::TraceFull { len: 1 };

const THIRD_IS_FULL: Fault = Fault::CounterFull { item: 2 };

/// An entry with 65 items.
const MANY: Ask = Do(
    "data copyin(a,a,a,a,a,a,a,a,a,a,a,a,a,a,a,a,a,a,a,a,a,a,a,a,a,a,a,a,a,a,a,a,\
    a,a,a,a,a,a,a,a,a,a,a,a,a,a,a,a,a,a,a,a,a,a,a,a,a,a,a,a,a,a,a,a,a)",
);

/// Each shows limits, met and passed.
pub const ROWS: &[Row] = &[
    Row {
        name: "tickets, regions, items, the trace, the device, the region or queue, and items are told in this order",
        limits: Limits {
            regions: 1,
            tickets: 3,
            trace_cap: 1,
            ..WIDE
        },
        lines: &[
            Does(Do("wait")),
            Refuses(MANY, Fault::TooManyItems { n: 65 }),
            On(1),
            Refuses(Do("wait"), NO_ROOM),
            Refuses(Exit(7), NO_ROOM),
            Refuses(Lend(9, (A, 16)), NO_ROOM),
            Brings(LOAN, &[0; 16], Some(NO_ROOM)),
            Rebases(1),
            Refuses(Do("wait(16)"), Fault::NoDevice { device: 1 }),
            On(0),
            Refuses(Exit(7), Fault::NoRegion { number: 7 }),
            Refuses(Do("update self(a) async(16)"), Fault::NoQueue { q: 16 }),
            Gives(Do("data no_create(a)"), 1),
            Refuses(MANY, Fault::NoAllowance { left: 0 }),
            Rebases(1),
            Does(Exit(1)),
            Refuses(MANY, NO_TICKET),
            Refuses(Do("step(3)"), NO_TICKET),
            Brings(LOAN, &[0; 16], Some(NO_TICKET)),
            Says(Events(3)),
        ],
    },
    Row {
        name: "one ticket makes one event",
        limits: Limits { tickets: 1, ..WIDE },
        lines: &[
            Does(Do("enter data copyin(a)")),
            Refuses(Do("enter data copyin(a)"), NO_TICKET),
        ],
    },
    Row {
        name: "a counter or a queue that earlier items of the directive filled refuses the whole directive",
        limits: Limits {
            counter_max: 2,
            ..WIDE
        },
        lines: &[
            Refuses(Do("enter data copyin(a, a, a)"), THIRD_IS_FULL),
            Says(Counted((A, 16), None)),
            Does(Do("point a[8] to a[0]")),
            Does(Do("enter data copyin(a, a)")),
            Refuses(Do("data present(a, a, a)"), THIRD_IS_FULL),
            Refuses(Do("enter data attach(a[8], a[8], a[8])"), THIRD_IS_FULL),
            Refuses(
                Do("update self(a) self(a) async(0)"),
                Fault::QueueFull { q: 0 },
            ),
            Says(Counted((A, 16), Some((0, 2)))),
            Says(Queue(0, 0)),
        ],
    },
    Row {
        name: "a device that is not there has nothing",
        limits: WIDE,
        lines: &[
            Does(Do("enter data copyin(a)")),
            Does(Do("update self(a) async(0)")),
            On(1),
            Says(Counted((A, 16), None)),
            Says(Device((A, 16), None)),
            Says(Queue(0, 0)),
            Says(Used(0)),
        ],
    },
    Row {
        name: "each of four devices has blocks of 4 KiB",
        limits: Limits {
            host: 8_192,
            device: 8_192,
            devices: 4,
            ..WIDE
        },
        lines: &[
            Does(Do("enter data create(a[0:4096], a[4096:4096])")),
            On(1),
            Does(Do("enter data create(a[0:4096], a[4096:4096])")),
            On(2),
            Does(Do("enter data create(a[0:4096], a[4096:4096])")),
            On(3),
            Does(Do("enter data create(a[0:4096])")),
            Says(Used(4_096)),
            On(0),
            Says(Used(8_192)),
        ],
    },
];
