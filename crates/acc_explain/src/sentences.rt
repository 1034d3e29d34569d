//! Statements in which each kind of token stands wherever the language lets it stand.

/// One or more statements of each form, with the array `a`. Behind the front part of a line that can still become a
/// statement, the tail of one of these makes it one. `0f` stands for hexadecimal digits, since it is no number and no
/// name. An explanation lists what could stand at a place in their order.
pub static SENTENCES: &[&str] = &[
    "array a 1",
    "write a[0] 0f",
    "point a[0] to a[0]",
    "data copy(a) copyin(readonly: a) copyout(zero: a) create(zero: a)",
    "data create(a) no_create(a) present(a) attach(a[0])",
    "end data",
    "enter data copyin(readonly: a) create(zero: a) attach(a[0])",
    "enter data async(0) copyin(a)",
    "exit data copyout(a) delete(a) detach(a[0])",
    "exit data finalize delete(a)",
    "exit data async(0) delete(a)",
    "update self(a) host(a) device(a)",
    "update if_present self(a)",
    "update async(0) self(a)",
    "wait(0)",
    "step(0)",
    "set device_num(0)",
    "kernel add 0 a",
    "kernel xor 0 a",
    "kernel number 0 a",
    "kernel plus a a",
    "show a",
    "peek a",
    "present a",
    "address a[0]",
    "report",
    // An option behind all clauses.
    "exit data delete(a) finalize",
    "exit data delete(a) async(0)",
    "update self(a) if_present",
    "update self(a) async(0)",
    // A part of an array, a pointer, and more than one item.
    "show a[0:0]",
    "kernel plus a[0:0] a",
    "data copy(a[0:0] via a[0], a)",
    "exit data detach(a[0], a[0])",
    // A comma between two clauses.
    "enter data copyin(a), create(a)",
    "exit data copyout(a), delete(a)",
    "exit data delete(a), finalize",
    "update self(a), device(a)",
    "data copy(a), create(a)",
];
