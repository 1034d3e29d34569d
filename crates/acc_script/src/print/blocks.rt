//! The blocks whose mapping has ended, written without allocation.

ghost use Rattle.std.specs.Prelude.{◌<◌};
ghost use Rattle.acc_base.specs.Devices.{view};
ghost use Rattle.acc_script.specs.Ends.{Wrote};
ghost use Rattle.acc_script.specs.Texts.{ended_text, ended_texts};

use crate::Sink;
use crate::print::lines::Line;
use acc_base::Ended;
use acc_table::Table;

/// Writes a line for each block of a device whose mapping has ended, by rising place; false where the sink failed.
pub fn write_ended<W: Sink>(table: &Table, writer: &mut W, device: u64) -> bool
    requires there { device < table.now.limits.devices }
    ensures { Wrote (W.told writer.old) (W.told writer.new) (ended_texts 0 (view device table.now.state).records) result }
{
    table.laws();
    let mut from = 0u64;
    'each: while let Some(ended) = table.ended(device, from) {
        if !write_block(writer, ended) {
            return false;
        }
        from = ended.place + 1;
    }
    true
}

fn write_block<W: Sink>(writer: &mut W, ended: Ended) -> bool
    ensures { Wrote (W.told writer.old) (W.told writer.new) (ended_text ended) result }
{
    let mut line = Line::new();
    line.put(b"\n");
    line.put_field(b" pins ", ended.pins);
    line.put_field(b" ", ended.size);
    line.put_address(ended.place);
    line.put(b"ended ");
    line.write(writer)
}
