//! The script on a second table, which differs in the bytes that nothing has filled.

use crate::emitters::Emitter;
use crate::faults::Reason;
use crate::pointers::{POINTER_LEN, pointer_section};
use acc_base::{Config, Directive, Fault, List, MEMORY_MAX, Section};
use acc_read::{ScriptKernel, Statement};
use acc_script::{InOnePart, MemorySink, Session, Unwatched, run_line};
use std::alloc::Global;

/// The device of a program: an OpenACC program finds as many as its machine has, and each machine has the first.
pub const DEVICE: u64 = 0;

/// How many events the second table may have: it makes more of them than the first.
const EVENTS: u64 = 16_777_216;

/// Returns a twin of a session of these limits, with more room.
///
/// On the twin the bytes of a new block that nothing fills are others, each with all bits flipped. A copy keeps that,
/// and so does a kernel, whose new byte is another where the old one is. So a byte that is the same on both is one that
/// was filled. (A `plus` has two old bytes: whoever emits it has to look at its source.) The twin is boxed, so that its
/// owner moves one pointer.
///
/// # Errors
///
/// [`Fault::Memory`] alone.
pub fn twin_of(alloc: Global, config: Config) -> Result<Box<Session>, Fault> {
    // It has one region more, for fills, and room on its device for blocks that lie otherwise.
    let regions = config.regions().saturating_add(1).min(65_536);
    let (host, most) = (config.host(), config.counter_max());
    let limits = Config::new(host, MEMORY_MAX, regions, EVENTS, most, 4_096, EVENTS)?;
    let limits = limits.with_devices(config.devices())?;
    Ok(Box::new(alloc, Session::new(alloc, limits)?)?)
}

/// Opens a region without items on the twin before the first line, for the kernels that flip.
pub fn open_twin(emitter: &mut Emitter<'_>) {
    let device = DEVICE;
    let items = List::from_vec(Vec::new(emitter.alloc));
    let enter = Directive::Enter { device, items };
    if let Err(fault) = emitter.twin.perform(&InOnePart, Statement::Direct(enter)) {
        emitter.sheet.fail_run(fault);
    }
}

/// Runs a line on the twin, and makes the blocks differ that nothing filled. A program cannot have one that the twin
/// refuses.
pub fn follow_on_twin(emitter: &mut Emitter<'_>, line: &[u8]) {
    let Emitter {
        alloc,
        twin,
        births,
        sheet,
        ..
    } = emitter;
    let mut printed = MemorySink::new(*alloc);
    match run_line(
        &InOnePart,
        sheet.line,
        twin,
        line,
        &mut printed,
        &mut Unwatched,
    ) {
        Ok(false) => {}
        Ok(true) => sheet.unfit(Reason::Unsettled),
        Err(fault) => sheet.fail_run(fault),
    }
    for section in births.iter() {
        if let Err(fault) = flip(twin, *section) {
            sheet.fail_run(fault);
        }
    }
    births.clear();
}

/// Flips all bits of a section's bytes on the device, but those of its attached pointers.
fn flip(twin: &mut Session, section: Section) -> Result<(), Fault> {
    flip_all(twin, section)?;
    let end = section.start.saturating_add(section.len);
    let mut start = section.start;
    for _ in 0..section.len / POINTER_LEN {
        let len = end.saturating_sub(start);
        let Some(attached) = twin.table.next_attached(DEVICE, Section { start, len }) else {
            break;
        };
        flip_all(twin, pointer_section(attached.pointer))?;
        start = attached.pointer.saturating_add(POINTER_LEN);
    }
    Ok(())
}

/// Flips all bits of a section's bytes on the device.
fn flip_all(twin: &mut Session, section: Section) -> Result<(), Fault> {
    let Some(region) = twin.innermost() else {
        return Ok(());
    };
    let kernel = ScriptKernel::Xor(255);
    let statement = Statement::Kernel {
        region,
        kernel,
        section,
    };
    twin.perform(&InOnePart, statement)?;
    Ok(())
}
