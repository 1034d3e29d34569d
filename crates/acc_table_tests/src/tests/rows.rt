//! Rows: calls and queries of a new table with their answers, by their subject. Each value is worked out by hand from
//! OpenACC 3.3, sections 2.6 and 2.7, and the documents of this project.

use crate::tests::language::Row;
use acc_base::HOST_BASE;

mod limits;
mod loans;
mod rebasing;
mod turns;

/// All rows. No other function names them, since each that does is checked with all of them.
pub fn tables() -> [&'static [Row]; 5] {
    [
        limits::ROWS,
        loans::ROWS,
        loans::LENT,
        rebasing::ROWS,
        turns::ROWS,
    ]
}

/// The first address of host memory, and of the array `a`.
pub const A: u64 = HOST_BASE;
