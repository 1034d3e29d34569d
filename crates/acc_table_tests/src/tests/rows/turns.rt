//! Lists of turns, and the answer to each turn.

use crate::tests::language::Ask::{Back, Do, Exit, Lend};
use crate::tests::language::Check::{Counted, Device};
use crate::tests::language::Line::{Does, Gives, Idles, Makes, Refuses, Runs, Says};
use crate::tests::language::{Row, WIDE};
use crate::tests::rows::A;
use acc_base::Fault;

const NO_LEASE: Fault = Fault::NoLease { serial: 1 };

/// Each is of some lists.
pub const ROWS: &[Row] = &[
    Row {
        name: "a region that counted nothing leaves what another one mapped, and a region is exited once",
        limits: WIDE,
        lines: &[
            Runs(&[]),
            Runs(&[
                Gives(Do("data no_create(a)"), 1),
                Gives(Do("data copyin(a)"), 2),
                Does(Exit(1)),
            ]),
            Says(Counted((A, 16), Some((1, 0)))),
            Runs(&[Does(Exit(2))]),
            Says(Counted((A, 16), None)),
            Runs(&[Refuses(Exit(2), Fault::NoRegion { number: 2 })]),
        ],
    },
    Row {
        name: "a lease is brought back by its serial number and as many bytes as it lends",
        limits: WIDE,
        lines: &[
            Runs(&[
                Gives(Do("data copyin(a)"), 1),
                Does(Do("update self(a) async(0)")),
                Gives(Lend(1, (A + 4, 2)), 1),
                Refuses(Back(1, &[1]), NO_LEASE),
                Refuses(Back(2, &[1, 2]), Fault::NoLease { serial: 2 }),
            ]),
            Says(Device((A, 16), None)),
            Runs(&[
                Does(Back(1, &[1, 2])),
                Refuses(Back(1, &[1, 2]), NO_LEASE),
                Makes(Do("wait"), 1),
                Idles(Do("step(0)")),
            ]),
            Says(Device((A + 3, 4), Some(&[0, 1, 2, 0]))),
        ],
    },
];
