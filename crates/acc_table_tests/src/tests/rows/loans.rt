//! Loans: what a lent block is refused, and how it comes back.

use crate::tests::language::Ask::{Do, Exit, Lend};
use crate::tests::language::Check::{Bytes, Counted, Device, Events, Host, Queue, Stored, Used};
use crate::tests::language::Line::{
    Adds, Brings, Does, Gathers, Gives, Idles, Makes, On, Refuses, Says,
};
use crate::tests::language::{FULL, Limits, Loan, Row, WIDE};
use crate::tests::rows::A;
use acc_base::Fault;

/// The first loan of a table that has a new block of 16 bytes.
pub const LOAN: Loan = Loan {
    device: 0,
    serial: 1,
    block: 1,
    offset: 0,
    len: 16,
};

/// The loan of all bytes of that block but the first and the last.
const MIDDLE: Loan = Loan {
    offset: 1,
    len: 2,
    ..LOAN
};

/// The loan of its end alone.
const END: Loan = Loan {
    offset: 1,
    len: 15,
    ..LOAN
};

const NO_LEASE: Option<Fault> = Some(Fault::NoLease { serial: 1 });

const NO_LEASE_2: Option<Fault> = Some(Fault::NoLease { serial: 2 });

const LENT_1: Fault = Fault::Lent { block: 1 };

const LENT_2: Fault = Fault::Lent { block: 2 };

const NOT_PRESENT: Fault = Fault::NotPresent { item: 0 };

const OUT_OF_HOST: Fault = Fault::OutOfHost { item: 0 };

/// Two devices.
const DEVICES: Limits = Limits { devices: 2, ..WIDE };

/// Each shows how a lent block comes back.
pub const ROWS: &[Row] = &[
    Row {
        name: "a block that is lent is neither copied nor let go, and can be entered; its bytes come back with the lease",
        limits: WIDE,
        lines: &[
            Does(Do("enter data copyin(a)")),
            Gives(Do("data present(a)"), 1),
            Does(Do("update self(a) async(0)")),
            Gives(Lend(1, (A, 16)), 1),
            Refuses(Lend(1, (A, 16)), LENT_1),
            Refuses(Do("update self(a)"), LENT_1),
            Refuses(Exit(1), LENT_1),
            Refuses(Do("step(0)"), LENT_1),
            Refuses(Do("wait"), LENT_1),
            Refuses(Do("exit data delete(a)"), LENT_1),
            Brings(LOAN, &[0; 32], NO_LEASE),
            Says(Device((A, 4), None)),
            Gives(Do("data copyin(a)"), 2),
            Adds(1, 9),
            Gathers(1),
            Does(Do("step(0)")),
            Idles(Do("step(0)")),
            Does(Exit(2)),
            Does(Exit(1)),
            Refuses(Lend(9, (A, 16)), Fault::NoRegion { number: 9 }),
            Brings(LOAN, &[0; 16], NO_LEASE),
            Says(Host((A, 16), Some(&[9; 16]))),
            Says(Device((A, 16), Some(&[9; 16]))),
            Says(Bytes(5, Some(&[]))),
            Says(Events(9)),
            Gives(Do("data present(a)"), 3),
            Refuses(Lend(3, (A, 0)), NOT_PRESENT),
        ],
    },
    Row {
        name: "a lease that differs from the loan in anything but its bytes is refused",
        limits: DEVICES,
        lines: &[
            Brings(LOAN, &[0; 16], NO_LEASE),
            Gives(Do("data copyin(a)"), 1),
            Gives(Lend(1, (A, 16)), 1),
            Brings(Loan { device: 1, ..LOAN }, &[0; 16], NO_LEASE),
            Brings(Loan { device: 2, ..LOAN }, &[0; 16], NO_LEASE),
            Brings(Loan { serial: 2, ..LOAN }, &[0; 16], NO_LEASE_2),
            Brings(Loan { block: 2, ..LOAN }, &[0; 16], NO_LEASE),
            Brings(Loan { len: 15, ..LOAN }, &[0; 16], NO_LEASE),
            Brings(END, &[0; 16], NO_LEASE),
            Brings(LOAN, &[0; 17], NO_LEASE),
            Says(Events(2)),
            Brings(LOAN, &[6; 16], None),
            Brings(LOAN, &[6; 16], NO_LEASE),
            Says(Device((A, 16), Some(&[6; 16]))),
        ],
    },
    Row {
        name: "a full trace compares a lease outside of its section",
        limits: FULL,
        lines: &[
            Gives(Do("data copyin(a[0:4])"), 1),
            Gives(Lend(1, (A + 1, 2)), 1),
            Brings(MIDDLE, &[9, 0, 0, 0], NO_LEASE),
            Brings(MIDDLE, &[0, 0, 0, 9], NO_LEASE),
            Says(Device((A, 4), None)),
            Brings(MIDDLE, &[0, 9, 8, 0], None),
            Says(Device((A, 4), Some(&[0, 9, 8, 0]))),
        ],
    },
    Row {
        name: "a full trace stores the bytes of a write, and those that a kernel leaves",
        limits: FULL,
        lines: &[
            Does(Do("write a[0] 07")),
            Does(Do("enter data copyin(a[0:1])")),
            Gives(Do("data present(a[0:1])"), 1),
            Gives(Lend(1, (A, 1)), 1),
            Adds(1, 1),
            Gathers(1),
            Says(Stored(5)),
            Says(Bytes(0, Some(&[7]))),
            Says(Bytes(4, Some(&[8]))),
            Says(Device((A, 1), Some(&[8]))),
            Says(Host((A, 1), Some(&[7]))),
        ],
    },
    Row {
        name: "an array is lent by a region of each device at once, and the regions are left in the order of their entry",
        limits: DEVICES,
        lines: &[
            Does(Do("write a[0] 01020304")),
            Gives(Do("data copy(a[0:4])"), 1),
            On(1),
            Gives(Do("data copyin(a[0:4])"), 2),
            Refuses(Do("data copyin(a)"), Fault::NoAllowance { left: 0 }),
            Gives(Lend(1, (A, 4)), 1),
            Gives(Lend(2, (A, 4)), 2),
            Refuses(Exit(1), LENT_1),
            Refuses(Exit(2), LENT_1),
            Adds(1, 4),
            Gathers(1),
            Does(Exit(1)),
            Refuses(Exit(1), Fault::NoRegion { number: 1 }),
            Refuses(Exit(2), LENT_1),
            Gathers(2),
            Does(Exit(2)),
            Says(Host((A, 4), Some(&[5, 6, 7, 8]))),
            Says(Used(0)),
            On(0),
            Says(Used(0)),
            Says(Events(9)),
        ],
    },
];

/// What a lent block lets pass, and what it does not.
pub const LENT: &[Row] = &[
    Row {
        name: "where a section lies is told before its block is found lent",
        limits: WIDE,
        lines: &[
            Does(Do("enter data copyin(a[8:8], a[48:16])")),
            Gives(Do("data present(a[8:8])"), 1),
            Gives(Lend(1, (A + 8, 8)), 1),
            Refuses(Lend(9, (A + 60, 8)), Fault::NoRegion { number: 9 }),
            Refuses(Lend(1, (A - 1, 1)), OUT_OF_HOST),
            Refuses(Lend(1, (A + 12, 0)), NOT_PRESENT),
            Refuses(Lend(1, (A + 16, 1)), NOT_PRESENT),
            Refuses(Lend(1, (A + 12, 8)), Fault::PartlyPresent { item: 0 }),
            Refuses(Lend(1, (A + 12, 4)), LENT_1),
            Gives(Lend(1, (A + 56, 8)), 2),
            Refuses(Lend(1, (A + 56, 9)), OUT_OF_HOST),
        ],
    },
    Row {
        name: "what counts, does nothing or waits in a queue passes a lent block, and what falls or copies at once does not",
        limits: WIDE,
        lines: &[
            Gives(Do("data copyin(a)"), 1),
            Gives(Lend(1, (A, 16)), 1),
            Does(Do("exit data delete(a) detach(a[8])")),
            Does(Do("exit data copyout(a) finalize")),
            Gives(Do("data no_create(a) copy(a)"), 2),
            Does(Do("update self(a[4:0])")),
            Does(Do("update device(a) async(0)")),
            Does(Do("enter data create(zero: a)")),
            Refuses(Do("exit data copyout(a)"), LENT_1),
            Refuses(Do("exit data delete(a) finalize"), LENT_1),
            Refuses(Do("exit data delete(a) async(0)"), LENT_1),
            Refuses(Do("update device(a[4:1]) if_present"), LENT_1),
            Says(Counted((A, 16), Some((3, 1)))),
        ],
    },
    Row {
        name: "a pointer in a lent block is neither attached nor detached",
        limits: WIDE,
        lines: &[
            Does(Do("point a[8] to a[0]")),
            Does(Do("enter data copyin(a) attach(a[8])")),
            Gives(Do("data attach(a[8])"), 1),
            Gives(Lend(1, (A, 4)), 1),
            Refuses(Do("enter data attach(a[8])"), LENT_1),
            Refuses(Do("exit data detach(a[8])"), LENT_1),
            Refuses(Do("exit data detach(a[8]) finalize"), LENT_1),
            Refuses(Exit(1), LENT_1),
            Gathers(1),
            Does(Exit(1)),
        ],
    },
    Row {
        name: "the first item or copy that meets a lent block is told, and none is done",
        limits: WIDE,
        lines: &[
            Gives(Do("data copyin(a, b)"), 1),
            Does(Do("enter data copyin(a, b)")),
            Does(Do("update self(b) async(0)")),
            Does(Do("update self(a) async(1)")),
            Gives(Lend(1, (A, 16)), 1),
            Refuses(Exit(1), LENT_1),
            Refuses(Do("exit data delete(b, a)"), LENT_1),
            Refuses(Do("wait"), LENT_1),
            Gives(Lend(1, (A + 16, 16)), 2),
            Refuses(Exit(1), LENT_2),
            Refuses(Do("exit data delete(a, b)"), LENT_1),
            Refuses(Do("exit data delete(b, a)"), LENT_2),
            Refuses(Do("update self(b[16:1], a)"), NOT_PRESENT),
            Refuses(Do("update self(a, b[16:1])"), LENT_1),
            Refuses(Do("wait"), LENT_2),
            Adds(2, 5),
            Gathers(2),
            Makes(Do("wait(0)"), 1),
            Refuses(Do("wait"), LENT_1),
            Says(Host((A + 16, 16), Some(&[5; 16]))),
            Says(Counted((A + 16, 16), Some((1, 1)))),
            Says(Queue(1, 1)),
        ],
    },
    Row {
        name: "a region that counted nothing is left, and its loan comes back behind that",
        limits: WIDE,
        lines: &[
            Gives(Do("data no_create(a)"), 1),
            Does(Do("enter data copyin(a)")),
            Gives(Lend(1, (A, 16)), 1),
            Does(Do("write a[0] 07")),
            Does(Exit(1)),
            Adds(1, 9),
            Gathers(1),
            Says(Host((A, 1), Some(&[7]))),
            Says(Device((A, 16), Some(&[9; 16]))),
        ],
    },
];
