//! The line of a refusal, written piece by piece. `Display` of `Fault` writes the same text, but does not show how much
//! was written where the sink fails.

ghost use Rattle.std.specs.Prelude.{◌++◌, codes};
ghost use Rattle.acc_base.specs.Faults.{fields_text, kind_name_of};
ghost use Rattle.std.specs.Fmt.{decimal};
ghost use Rattle.acc_script.specs.Ends.{Wrote};
ghost use Rattle.acc_script.specs.Texts.{field_text, refusal_start, refusal_text};

use crate::Sink;
use crate::ends::whole::{write_all, write_pieces};
use acc_base::{Fault, ScriptFault};
use itoa::Buffer;

/// Writes that a line was refused, and why; false where the sink failed.
pub fn write_refusal<W: Sink>(writer: &mut W, line: u64, fault: Fault) -> bool
    ensures { Wrote (W.told writer.old) (W.told writer.new) (refusal_text line fault) result }
{
    if !write_refusal_start(writer, line, fault) {
        return false;
    }
    if !write_fields(writer, fault) {
        return false;
    }
    write_all(writer, b"\n")
}

fn write_refusal_start<W: Sink>(writer: &mut W, line: u64, fault: Fault) -> bool
    ensures { Wrote (W.told writer.old) (W.told writer.new) (refusal_start line fault) result }
{
    let mut line_buffer = Buffer::new();
    let mut number_buffer = Buffer::new();
    let line = line_buffer.format(line);
    let number = number_buffer.format(fault.number());
    write_pieces(
        writer,
        &[
            b"line ".as_slice(),
            line.as_bytes(),
            b": refused ",
            number.as_bytes(),
            b" ",
            fault.name().as_bytes(),
        ],
    )
}

/// Writes each field of the fault, with its name and its value; false where the sink failed.
#[tactic(auto, using(crate::proofs::Fronts::took_nothing))]
fn write_fields<W: Sink>(writer: &mut W, fault: Fault) -> bool
    ensures { Wrote (W.told writer.old) (W.told writer.new) (fields_text fault) result }
{
    match fault {
        Fault::Memory | Fault::BadConfig | Fault::BadCuts | Fault::Read | Fault::Write => true,
        Fault::NoTickets { left } | Fault::NoAllowance { left } => {
            write_field(writer, b" left ", left)
        }
        Fault::TooManyItems { n } => write_field(writer, b" n ", n),
        Fault::TraceFull { len } => write_field(writer, b" len ", len),
        Fault::OutOfHost { item }
        | Fault::Misaligned { item }
        | Fault::PartlyPresent { item }
        | Fault::NotPresent { item }
        | Fault::CounterFull { item } => write_field(writer, b" item ", item),
        Fault::NoQueue { q } | Fault::QueueFull { q } => write_field(writer, b" q ", q),
        Fault::Lent { block } => write_field(writer, b" block ", block),
        Fault::DeviceFull { item, need } => write_need(writer, item, need),
        Fault::NoRegion { number } => write_field(writer, b" number ", number),
        Fault::NoDevice { device } => write_field(writer, b" device ", device),
        Fault::NoLease { serial } => write_field(writer, b" serial ", serial),
        Fault::Script { line, kind } => write_kind(writer, line, kind),
    }
}

fn write_field<W: Sink>(writer: &mut W, name: &[u8], value: u64) -> bool
    ensures { Wrote (W.told writer.old) (W.told writer.new) (field_text name.now value) result }
{
    let mut buffer = Buffer::new();
    let value = buffer.format(value);
    write_pieces(writer, &[name, value.as_bytes()])
}

fn write_need<W: Sink>(writer: &mut W, item: u64, need: u64) -> bool
    ensures { Wrote (W.told writer.old) (W.told writer.new)
        (codes " item " ++ decimal item ++ codes " need " ++ decimal need) result }
{
    let mut item_buffer = Buffer::new();
    let mut need_buffer = Buffer::new();
    let item = item_buffer.format(item);
    let need = need_buffer.format(need);
    write_pieces(
        writer,
        &[
            b" item ".as_slice(),
            item.as_bytes(),
            b" need ",
            need.as_bytes(),
        ],
    )
}

fn write_kind<W: Sink>(writer: &mut W, line: u64, kind: ScriptFault) -> bool
    ensures { Wrote (W.told writer.old) (W.told writer.new)
        (codes " line " ++ decimal line ++ codes " kind " ++ kind_name_of kind) result }
{
    let mut buffer = Buffer::new();
    let line = buffer.format(line);
    write_pieces(
        writer,
        &[
            b" line ".as_slice(),
            line.as_bytes(),
            b" kind ",
            kind.name().as_bytes(),
        ],
    )
}
