//! The attached pointers of a mapped range, written without allocation.

ghost use Rattle.std.specs.Prelude.{◌+◌, ◌<◌, ◌^◌};
ghost use Rattle.acc_base.specs.Devices.{view};
ghost use Rattle.acc_script.specs.Ends.{Wrote};
ghost use Rattle.acc_script.specs.Texts.{pointer_text, pointers_text};

use crate::Sink;
use crate::print::lines::Line;
use acc_base::{Attachment, Section};
use acc_table::Table;

/// Writes a line for each attached pointer that begins in a section inside one mapped range, by rising address. False
/// where the sink failed.
pub fn write_pointers<W: Sink>(table: &Table, writer: &mut W, device: u64, section: Section) -> bool
    requires there { device < table.now.limits.devices }
    requires low { section.start + section.len < 2 ^ 32 }
    ensures { Wrote (W.told writer.old) (W.told writer.new) (pointers_text section (view device table.now.state).records) result }
{
    table.laws();
    let end = section.start + section.len;
    let mut rest = section;
    'each: while let Some(attached) = table.next_attached(device, rest) {
        if !write_pointer(writer, attached) {
            return false;
        }
        let start = attached.pointer + 1;
        rest = Section {
            start,
            len: end - start,
        };
    }
    true
}

fn write_pointer<W: Sink>(writer: &mut W, attached: Attachment) -> bool
    ensures { Wrote (W.told writer.old) (W.told writer.new) (pointer_text attached) result }
{
    let mut line = Line::new();
    line.put(b"\n");
    line.put_field(b" count ", attached.count);
    line.put_address(attached.pointer);
    line.put(b"pointer ");
    line.write(writer)
}
