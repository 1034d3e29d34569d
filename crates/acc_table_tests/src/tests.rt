//! Rows of a table, and what stands in none.

use acc_base::Fault;
use language::Row;
use playing::play_row;
use std::fmt::Debug;
use std::process::Abort;

mod checks;
mod example;
mod language;
mod layers;
mod leasing;
mod million;
mod playing;
mod rows;
mod turns;

/// Ends the test where what was found at a place is not what is expected there.
fn same<T: PartialEq + Debug + Copy, P: Debug + Copy>(
    rt: &impl Abort,
    found: T,
    wanted: T,
    place: P,
) {
    assert_eq!(rt; found, wanted, "at {place:?}");
}

fn play_each(rt: &(impl Abort + AllocGlobal), rows: &'static [Row]) -> Result<(), Fault> {
    for row in rows {
        play_row(rt, row)?;
    }
    Ok(())
}

#[test]
fn each_row_holds_after_a_refused_growth(rt: HostRuntime) -> Result<(), Fault> {
    for rows in rows::tables() {
        play_each(&rt, rows)?;
    }
    Ok(())
}
