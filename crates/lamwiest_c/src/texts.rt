//! Texts: the report of a table, what a refusal says, and what a script prints.

ghost use Rattle.std.specs.Prelude.{◌≡◌};
ghost use Rattle.acc_script.specs.Texts.{report_text};
ghost use Rattle.lamwiest_c.specs.Statuses.{IsAnswered, IsNumberAnswered, refusal_in};
ghost use Rattle.lamwiest_c.specs.Answers.{IsOf};
ghost use Rattle.lamwiest_c.specs.Shows.{IsPlayed, IsPut, IsShown, IsShownIfAny, text_of};

use crate::environments::TableWithLeases;
use crate::handles::{Handle, put_back, take_out};
use crate::statuses::{FaultFields, Refusal, tell, tell_number};
use crate::tables::{RawLimits, config_of};
use acc_base::Fault;
use acc_script::{InOnePart, MemorySink, Unwatched, report, run_text};
use std::alloc::Global;
use std::fmt;

impl fmt::Display for Refusal {
    ghost use Rattle.std.specs.Prelude.{Some};
    ghost use Rattle.lamwiest_c.specs.Shows.{text_of};

    ghost output = { λ refusal. Some (text_of refusal) };

    fn fmt<W: fmt::Write>(&self, f: &mut fmt::Formatter<W>) -> fmt::Result {
        let (name, number) = match self {
            Refusal::Ended => return f.write_str("32 Ended"),
            Refusal::BadClause { item } => ("33 BadClause item ", *item),
            Refusal::BadLength { len } => ("34 BadLength len ", *len),
            Refusal::Absent => return f.write_str("35 Absent"),
            Refusal::BadVersion { library } => ("36 BadVersion library ", *library),
            Refusal::OfTable(fault) => return write!(f, "{fault}"),
        };
        write!(f, "{name}{number}")
    }
}

/// Puts a text at the front of a buffer that is long enough for it, and returns its length in bytes.
///
/// # Errors
///
/// [`Refusal::BadLength`] with that length where the buffer is shorter, and nothing is written.
fn put(text: &[u8], buffer: &mut [u8]) -> Result<u64, Refusal>
    ensures { IsPut text.now buffer.old buffer.new (λ r. result ≡ r) }
{
    let len = text.len();
    if len > buffer.len() {
        return Err(Refusal::BadLength { len: len as u64 });
    }
    buffer[..len].copy_from_slice(text);
    Ok(len as u64)
}

fn show_report(
    alloc: Global,
    environment: &TableWithLeases,
    buffer: &mut [u8],
) -> Result<u64, Refusal>
    ensures { IsShown (report_text environment.now.world) buffer.old buffer.new (λ r. result ≡ r) }
{
    let mut sink = MemorySink::new(alloc);
    match report(&environment.table, &mut sink) {
        Ok(()) => put(sink.as_slice(), buffer),
        Err(_) => Err(Refusal::OfTable(Fault::Memory)),
    }
}

fn show_refusal(alloc: Global, refusal: Refusal, buffer: &mut [u8]) -> Result<u64, Refusal>
    ensures { IsShown (text_of refusal) buffer.old buffer.new (λ r. result ≡ r) }
{
    let text = format!(in alloc; "{refusal}")?;
    put(text.as_bytes(), buffer)
}

/// Puts the report of a table at the front of a buffer, the text that `accrun` prints. Where it is done, `len` is the
/// length of the text in bytes, and the buffer's other bytes stay. Where the buffer is too short, the fault's value is
/// that length.
#[unsafe(no_mangle)]
pub extern "C" fn lamwiest_report(
    alloc: Global,
    table: &mut Handle,
    buffer: &mut [u8],
    len: &mut u64,
    fault: &mut FaultFields,
) -> u32
    ensures { IsOf table.old.value table.new.value (IsNumberAnswered result fault.new len.old len.new)
        (λ e v. IsShown (report_text e.world) buffer.old buffer.new (IsNumberAnswered result fault.new len.old len.new) × (v ≡ e)) }
{
    let Some(environment) = take_out(alloc, table) else {
        return tell_number(Err(Refusal::Ended), len, fault);
    };
    let made = show_report(alloc, &environment, buffer);
    put_back(table, environment);
    tell_number(made, len, fault)
}

/// Puts what a refusal says at the front of a buffer: its status, its name, and its numbers with their names. Where it
/// is done, `len` is the length of the text in bytes. It is `ABSENT` where no refusal has the status.
#[unsafe(no_mangle)]
pub extern "C" fn lamwiest_fault_text(
    alloc: Global,
    told: &FaultFields,
    buffer: &mut [u8],
    len: &mut u64,
    fault: &mut FaultFields,
) -> u32
    ensures { IsShownIfAny (refusal_in told.now) buffer.old buffer.new (IsNumberAnswered result fault.new len.old len.new) }
{
    let made = match told.refusal() {
        Some(refusal) => show_refusal(alloc, refusal, buffer),
        None => Err(Refusal::Absent),
    };
    tell_number(made, len, fault)
}

/// Runs a script on a new table, puts what it prints at the front of a buffer, and its length into `len`.
///
/// # Errors
///
/// The fault of the line at which it ends: the buffer has what the lines before it print. `BadLength`, `BadConfig` or
/// `Memory`: the buffer and `len` stay.
fn play(
    alloc: Global,
    limits: &RawLimits,
    script: &[u8],
    buffer: &mut [u8],
    len: &mut u64,
) -> Result<u64, Refusal>
    ensures { IsPlayed limits.now script.now buffer.old buffer.new len.old len.new (λ r. result ≡ r) }
{
    let config = config_of(limits)?;
    let mut sink = MemorySink::new(alloc);
    let ended = match run_text(alloc, &InOnePart, config, script, &mut sink, &mut Unwatched) {
        Ok(_) => Ok(0),
        Err(Fault::Script { line, kind }) => Err(Refusal::OfTable(Fault::Script { line, kind })),
        // A sink in memory fails for want of memory alone.
        Err(_) => return Err(Refusal::OfTable(Fault::Memory)),
    };
    *len = put(sink.as_slice(), buffer)?;
    ended
}

/// Runs a script on a new table of these limits, as `accrun` does, and puts what it prints at the front of a buffer.
/// `len` is the length of that in bytes. The buffer's other bytes stay. Kernels run in one part. Where a line is at
/// fault, the buffer has what the lines before it print, and the fault's value is the line.
///
/// Where the buffer is too short, the fault's value is the length of the text. Then, and without memory, and where a
/// limit is out of its bounds, the buffer and `len` stay.
#[unsafe(no_mangle)]
pub extern "C" fn lamwiest_script(
    alloc: Global,
    limits: &RawLimits,
    script: &[u8],
    buffer: &mut [u8],
    len: &mut u64,
    fault: &mut FaultFields,
) -> u32
    ensures { IsPlayed limits.now script.now buffer.old buffer.new len.old len.new (IsAnswered result fault.new) }
{
    let made = play(alloc, limits, script, buffer, len);
    tell(made, fault)
}
