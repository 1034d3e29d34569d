//! The mapped ranges of a device, written without allocation.

ghost use Rattle.std.specs.Prelude.{◌≡◌, ◌+◌, ◌<◌, ◌≤◌, ◌^◌, [], length};
ghost use Rattle.acc_base.specs.Devices.{view};
ghost use Rattle.acc_script.specs.Ends.{Wrote};
ghost use Rattle.acc_script.specs.Texts.{mapped_text, range_text, ranges_text, counters_text};

use crate::Sink;
use crate::print::lines::Line;
use crate::print::pointers::write_pointers;
use acc_base::Section;
use acc_table::{Mapped, Place, Table};

/// Writes a line for each mapped range of a device and each attached pointer in it; false where the sink failed.
pub fn write_ranges<W: Sink>(table: &Table, writer: &mut W, device: u64) -> bool
    requires there { device < table.now.limits.devices }
    ensures { Wrote (W.told writer.old) (W.told writer.new) (ranges_text (view device table.now.state).records) result }
{
    table.laws();
    let mut from = 0u64;
    let mut near = Place::default();
    'each: while let Some((mapped, place)) = table.mapped_near(device, from, near) {
        if !write_range(table, writer, device, mapped) {
            return false;
        }
        from = mapped.start + 1;
        near = place;
    }
    true
}

#[tactic(auto, using(crate::proofs::Fronts::writing_laws))]
fn write_range<W: Sink>(table: &Table, writer: &mut W, device: u64, mapped: Mapped) -> bool
    requires there { device < table.now.limits.devices }
    requires low { mapped.start + mapped.len < 2 ^ 32 }
    ensures { Wrote (W.told writer.old) (W.told writer.new) (range_text (view device table.now.state).records mapped) result }
{
    if !write_mapped(writer, mapped) {
        return false;
    }
    let section = Section {
        start: mapped.start,
        len: mapped.len,
    };
    write_pointers(table, writer, device, section)
}

#[tactic(auto, unfolding(crate::specs::Texts::mapped_text))]
fn write_mapped<W: Sink>(writer: &mut W, mapped: Mapped) -> bool
    ensures { Wrote (W.told writer.old) (W.told writer.new) (mapped_text mapped) result }
{
    let mut line = Line::new();
    put_counters(&mut line, mapped);
    line.put_address(mapped.place);
    line.put(b" at ");
    line.put_field(b" ", mapped.len);
    line.put_address(mapped.start);
    line.put(b"map ");
    line.write(writer)
}

/// Puts the two reference counters of a mapped range, and the end of its line, which shows whether its block is lent.
#[inline(always)]
fn put_counters(line: &mut Line, mapped: Mapped)
    requires none { line.old ≡ [] }
    ensures text { line.new ≡ counters_text mapped.structured mapped.dynamic mapped.lent }
    ensures length { length line.new ≤ 67 }
{
    if mapped.lent {
        line.put(b" lent\n");
    } else {
        line.put(b"\n");
    }
    line.put_field(b" dynamic ", mapped.dynamic);
    line.put_field(b" structured ", mapped.structured);
}
