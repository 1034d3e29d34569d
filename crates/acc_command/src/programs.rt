//! What is written in place of what a script prints: a script by chance, and which rows of the clause tables scripts
//! reach.

use crate::endings::Mishap;
use crate::runs::{Ends, Told, find_column, limits, options_for, read_file};
use acc_base::{Config, Fault};
use acc_follow::{Page, RowCounts, count_rows};
use acc_script::{Sink, Status, write_all};
use acc_terminal::Options;
use acc_trials::{FileStore, random_script};
use std::alloc::Global;
use std::sync::Wait;
use std::thread::Threads;

/// Writes the script of a seed with so many statements.
///
/// # Errors
///
/// Those of [`random_script`]; [`Fault::Write`] where the sink fails.
pub fn write_random<'a, O: Sink>(
    alloc: Global,
    config: Config,
    seed: u64,
    lines: u64,
    out: &mut O,
) -> Result<Status, Mishap<'a>> {
    let script = random_script(alloc, config, seed, lines)?;
    write_page(out, &script)
}

/// Writes how often the scripts of some files, with the options of their first lines, reached each row of the clause
/// tables; [`Status::Refused`] where one is reached by none.
///
/// # Errors
///
/// A file that cannot be read, or the fault of the first script that has one; [`Fault::Write`] where the sink fails.
/// Before that nothing is written.
pub fn write_rows<'a, R: Threads + Wait + Sync + AllocGlobal, O: Sink, E: Sink, D: FileStore>(
    rt: &R,
    options: Options<'a>,
    ends: Ends<'_, O, E, D>,
) -> Result<Status, Mishap<'a>> {
    let mut rows = RowCounts::new(rt.alloc());
    for name in options.rows {
        let script = read_file(ends.files, name)?;
        rows = count_file(rt, options, name, &script, rows, ends.files, ends.told)?;
    }
    let mut page = Page::new(rt.alloc());
    let is_complete = rows.put(&mut page);
    let status = write_page(ends.out, &page)?;
    Ok(if is_complete { status } else { Status::Refused })
}

/// Counts the rows that the script of a file reaches too.
fn count_file<'a, R: Threads + Wait + Sync + AllocGlobal, D: FileStore>(
    rt: &R,
    options: Options<'a>,
    name: &'a str,
    script: &[u8],
    rows: RowCounts,
    files: &D,
    told: &mut Told,
) -> Result<RowCounts, Mishap<'a>> {
    let alloc = rt.alloc();
    let options = options_for(alloc, options, Some(name), script, &mut told.reason)?;
    match count_rows(alloc, limits(options)?, script, rows) {
        Ok(rows) => Ok(rows),
        Err(fault) => {
            find_column(rt, options, script, files, told);
            Err(Mishap::Within(name, told.column, fault))
        }
    }
}

/// Writes a page.
///
/// # Errors
///
/// [`Fault::Memory`] where the page had none; [`Fault::Write`] where the sink fails.
pub fn write_page<'a, O: Sink>(out: &mut O, page: &Page) -> Result<Status, Mishap<'a>> {
    if write_all(out, page.whole()?) {
        Ok(Status::Clean)
    } else {
        Err(Mishap::Fault(Fault::Write))
    }
}
