//! The rows of the clause tables, and how often each was reached.

use acc_base::{Counter, RegionClause, Task};
use acc_read::Page;
use std::alloc::Global;
use std::collections::BTreeMap;

/// A directive, its clause, a modifier of that, and what became of an item; empty texts where there is none.
type Row = [&'static str; 4];

/// Where a section lies.
const SECTION: &str = "empty; inside; absent; partly present";

/// What the end of a region does.
const END: &str = "nothing; stays; ends";

/// What `exit data` does.
const EXIT: &str = "empty; absent; inside, uncounted; inside, stays; inside, ends; partly present";

/// What `attach` does.
const ATTACH: &str = "new; again; another target; no pointer; no target";

/// What `detach` does.
const DETACH: &str = "one of more; last; unattached; no pointer";

/// Refusals that are no row of a clause.
const REFUSALS: &str =
    "NoAllowance; TooManyItems; OutOfHost; Misaligned; NoQueue; DeviceFull; QueueFull; NoDevice";

/// All rules, each with what can become of an item. Those of data clauses and of `update` are those of the tables in docs/MODEL.md.
static RULES: &[Row] = &[
    ["data", "copy", "", SECTION],
    ["data", "copyin", "", SECTION],
    ["data", "copyin", "readonly", "absent"],
    ["data", "copyout", "", SECTION],
    ["data", "copyout", "zero", "inside; absent"],
    ["data", "create", "", SECTION],
    ["data", "create", "zero", "inside; absent"],
    ["data", "no_create", "", SECTION],
    ["data", "present", "", SECTION],
    ["enter data", "copyin", "", SECTION],
    ["enter data", "copyin", "readonly", "absent"],
    ["enter data", "copyin", "async", "inside; absent"],
    ["enter data", "create", "", SECTION],
    ["enter data", "create", "zero", "inside; absent"],
    ["enter data", "create", "async", "absent"],
    ["end data", "copy", "", END],
    ["end data", "copyin", "", END],
    ["end data", "copyout", "", END],
    ["end data", "create", "", END],
    ["end data", "no_create", "", END],
    ["end data", "present", "", END],
    ["exit data", "copyout", "", EXIT],
    ["exit data", "copyout", "finalize", EXIT],
    [
        "exit data",
        "copyout",
        "async",
        "inside, stays; inside, ends",
    ],
    ["exit data", "delete", "", EXIT],
    ["exit data", "delete", "finalize", EXIT],
    ["exit data", "delete", "async", "inside, ends"],
    ["update", "self", "", SECTION],
    ["update", "self", "if_present", SECTION],
    ["update", "self", "async", "inside"],
    ["update", "device", "", SECTION],
    ["update", "device", "if_present", SECTION],
    ["update", "device", "async", "inside"],
    ["wait", "", "", "some; none"],
    ["wait queue", "", "", "some; none"],
    ["step", "", "", "some; none"],
    ["data", "attach", "", ATTACH],
    ["enter data", "attach", "", ATTACH],
    ["data", "copy", "via", "new"],
    ["data", "copyin", "via", "new; again"],
    ["data", "copyout", "via", "new"],
    ["data", "create", "via", "new"],
    ["data", "no_create", "via", "new; nothing"],
    ["data", "present", "via", "new"],
    ["enter data", "copyin", "via", "new; again"],
    ["enter data", "create", "via", "new"],
    ["end data", "attach", "", "last; one of more"],
    ["end data", "", "via", "last; one of more; gone"],
    ["exit data", "detach", "", DETACH],
    ["exit data", "detach", "finalize", "several"],
    ["exit data", "copyout", "via", "last"],
    ["exit data", "copyout", "via finalize", "several"],
    ["exit data", "delete", "via", "one of more; last"],
    ["exit data", "delete", "via finalize", "several"],
    ["kernel", "", "", SECTION],
    ["refused", "", "", REFUSALS],
];

/// How often scripts reached each row of the clause tables.
pub struct RowCounts {
    counts: BTreeMap<Row, u64>,
    /// Whether the statement has the modifier `readonly`.
    pub(crate) readonly: bool,
    wants: bool,
}

// By hand, so that a crate above does not prove the drops of its parts again.
impl Drop for RowCounts {
    fn drop(self) {
        let RowCounts {
            counts: _,
            readonly: _,
            wants: _,
        } = self;
    }
}

impl RowCounts {
    /// Returns that none was reached.
    pub fn new(alloc: Global) -> RowCounts {
        RowCounts {
            counts: BTreeMap::new(alloc),
            readonly: false,
            wants: false,
        }
    }

    /// Returns whether there was no memory for some of it. Then counts may be missing.
    pub fn wants(&self) -> bool {
        self.wants
    }

    fn count_item(&mut self, task: &Task, outcome: &'static str) {
        let (directive, modifier, _) = rule_of(task);
        let clause = task.word();
        let is_queued = task.queue().is_some();
        if is_queued {
            self.reach([directive, clause, "async", outcome]);
        }
        if self.readonly && clause == "copyin" {
            self.reach([directive, clause, "readonly", outcome]);
        } else if !is_queued || !modifier.is_empty() {
            self.reach([directive, clause, modifier, outcome]);
        }
    }

    fn count_pointer(&mut self, task: &Task, outcome: &'static str) {
        let (directive, modifier, via) = rule_of(task);
        if task.names_pointer() {
            self.reach([directive, task.word(), modifier, outcome]);
        } else if !via.is_empty() {
            let is_region = matches!(*task, Task::ExitRegion { .. });
            let clause = if is_region { "" } else { task.word() };
            self.reach([directive, clause, via, outcome]);
        }
    }

    /// Counts a row once more. What is no row is counted in vain.
    fn reach(&mut self, row: Row) {
        let count = self.count(&row).saturating_add(1);
        self.wants |= self.counts.insert(row, count).is_err();
    }

    fn count(&self, row: &Row) -> u64 {
        match self.counts.get(row) {
            Some(count) => *count,
            None => 0,
        }
    }

    /// Puts a line for each row, its name and how often it was reached with a tab between, and returns whether none is
    /// at zero.
    pub fn put(&self, page: &mut Page) -> bool {
        let mut all = true;
        for rule in RULES {
            all &= self.put_rule(page, *rule);
        }
        all
    }

    fn put_rule(&self, page: &mut Page, rule: Row) -> bool {
        let [directive, clause, modifier, outcomes] = rule;
        let mut all = true;
        for outcome in outcomes.split("; ") {
            all &= self.put_row(page, [directive, clause, modifier, outcome]);
        }
        all
    }

    fn put_row(&self, page: &mut Page, row: Row) -> bool {
        let [directive, clause, modifier, outcome] = row;
        page.text(directive);
        for word in [clause, modifier] {
            if !word.is_empty() {
                page.text(" ");
                page.text(word);
            }
        }
        page.text(", ");
        page.text(outcome);
        page.text("\t");
        let count = self.count(&row);
        page.number(count);
        page.text("\n");
        0 < count
    }
}

/// The words of the directive of an item, the modifier of its clause or the option of its directive beside `async`, and
/// the words of a pointer to its section, if one stands beside it.
fn rule_of(task: &Task) -> (&'static str, &'static str, &'static str) {
    let (directive, modifier, pointer) = match *task {
        Task::Enter { counter, item, .. } => {
            (entry_word(counter), zero_word(item.clause), item.pointer)
        }
        Task::ExitRegion { holding } => ("end data", "", holding.item.pointer),
        Task::ExitData { finalize, item, .. } => {
            let modifier = if finalize { "finalize" } else { "" };
            ("exit data", modifier, item.pointer)
        }
        Task::Move { if_present, .. } => {
            let modifier = if if_present { "if_present" } else { "" };
            ("update", modifier, None)
        }
    };
    let via = match pointer {
        None => "",
        Some(_) if modifier == "finalize" => "via finalize",
        Some(_) => "via",
    };
    (directive, modifier, via)
}

fn entry_word(counter: Counter) -> &'static str {
    match counter {
        Counter::Structured => "data",
        Counter::Dynamic => "enter data",
    }
}

fn zero_word(clause: RegionClause) -> &'static str {
    if clause.is_zeroed() { "zero" } else { "" }
}

/// Counts the row of what became of an item, where rows are counted.
#[inline(always)]
pub(crate) fn reach_item(rows: &mut Option<RowCounts>, task: &Task, outcome: &'static str) {
    if let Some(rows) = rows {
        rows.count_item(task, outcome);
    }
}

/// Counts the row of what became of the pointer of an item, where rows are counted.
#[inline(always)]
pub(crate) fn reach_pointer(rows: &mut Option<RowCounts>, task: &Task, outcome: &'static str) {
    if let Some(rows) = rows {
        rows.count_pointer(task, outcome);
    }
}

/// Counts the row of a directive without a clause, where rows are counted.
pub(crate) fn reach(rows: &mut Option<RowCounts>, directive: &'static str, outcome: &'static str) {
    if let Some(rows) = rows {
        rows.reach([directive, "", "", outcome]);
    }
}

/// Whether a line has the modifier `readonly`, which no event has: a colon stands behind it, as behind no name.
pub(crate) fn has_readonly(line: &[u8]) -> bool {
    let word = b"readonly";
    for at in 0..line.len() {
        let rest = line.get(at..).unwrap_or(&[]);
        if let Some(rest) = rest.strip_prefix(word.as_slice()) {
            if rest.trim_ascii_start().first() == Some(&b':') {
                return true;
            }
        }
    }
    false
}
