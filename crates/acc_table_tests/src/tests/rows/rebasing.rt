//! Events that are folded into the base, and the room that the trace has then.

use crate::tests::language::Ask::{Do, Exit, Lend};
use crate::tests::language::Check::{Counted, Device, Events, Host, Stored, Used};
use crate::tests::language::Line::{Adds, Does, Gathers, Gives, Makes, Rebases, Refuses, Says};
use crate::tests::language::{FULL, Limits, Row, WIDE};
use crate::tests::rows::A;
use acc_base::Fault;

/// Each shows what a rebase leaves.
pub const ROWS: &[Row] = &[
    Row {
        name: "a full trace has room after a rebase",
        limits: Limits {
            trace_cap: 2,
            ..WIDE
        },
        lines: &[
            Gives(Do("data copyin(a)"), 1),
            Does(Do("update self(a) async(0)")),
            Refuses(Do("wait"), Fault::TraceFull { len: 2 }),
            Rebases(2),
            Makes(Do("wait"), 1),
            Says(Events(3)),
            Says(Stored(1)),
            Does(Exit(1)),
            Says(Counted((A, 16), None)),
            Rebases(2),
            Rebases(0),
        ],
    },
    Row {
        name: "a kernel's bytes come back where each call has a rebase behind it, with full traces",
        limits: FULL,
        lines: &[
            Does(Do("write a[0] 07")),
            Rebases(1),
            Does(Do("enter data copyin(a[0:1])")),
            Rebases(1),
            Gives(Do("data present(a[0:1])"), 1),
            Rebases(1),
            Gives(Lend(1, (A, 1)), 1),
            Rebases(1),
            Adds(1, 1),
            Gathers(1),
            Rebases(1),
            Says(Device((A, 1), Some(&[8]))),
            Says(Host((A, 1), Some(&[7]))),
        ],
    },
    Row {
        name: "one and three of a kind are made, folded and used: blocks, holdings, pointers, copies that wait",
        limits: Limits {
            host: 256,
            device: 256,
            queue_cap: 4,
            ..FULL
        },
        lines: &[
            Does(Do("enter data copyin(a[0:32])")),
            Does(Do("enter data copyin(a[32:32], a[64:32], a[96:32])")),
            Gives(Do("data copy(a[128:16], a[144:16], a[160:16])"), 1),
            Does(Do("point a[0] to a[32]")),
            Does(Do("point a[8] to a[64]")),
            Does(Do("point a[16] to a[96]")),
            Does(Do("enter data attach(a[0])")),
            Does(Do("enter data attach(a[0], a[8], a[16])")),
            Does(Do("update self(a) async(3)")),
            Does(Do("update self(a, a, a) async(3)")),
            Says(Used(176)),
            Rebases(10),
            Makes(Do("wait(3)"), 4),
            Does(Do("exit data detach(a[0], a[8], a[16]) finalize")),
            Does(Do("exit data delete(a[0:32], a[32:32], a[64:32])")),
            Does(Exit(1)),
            Says(Used(32)),
        ],
    },
];
