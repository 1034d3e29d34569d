//! The queues in which transfers wait, written without allocation.

ghost use Rattle.std.specs.Prelude.{◌<◌};
ghost use Rattle.acc_base.specs.Devices.{view};
ghost use Rattle.acc_script.specs.Ends.{Wrote};
ghost use Rattle.acc_script.specs.Texts.{queue_text, waiting_text, queues_text};

use crate::Sink;
use crate::print::lines::Line;
use acc_base::QUEUE_COUNT;
use acc_table::Table;

/// Writes a line for each queue of a device that is not empty, by rising number; false where the sink failed.
pub fn write_queues<W: Sink>(table: &Table, writer: &mut W, device: u64) -> bool
    requires there { device < table.now.limits.devices }
    ensures { Wrote (W.told writer.old) (W.told writer.new) (queues_text 0 (view device table.now.state).records.queues) result }
{
    table.laws();
    for q in 0..QUEUE_COUNT {
        if !write_waiting(writer, q, table.queue_len(device, q)) {
            return false;
        }
    }
    true
}

#[tactic(auto, using(crate::proofs::Fronts::took_nothing))]
fn write_waiting<W: Sink>(writer: &mut W, q: u64, len: u64) -> bool
    ensures { Wrote (W.told writer.old) (W.told writer.new) (waiting_text q len) result }
{
    if len == 0 {
        return true;
    }
    write_queue(writer, q, len)
}

fn write_queue<W: Sink>(writer: &mut W, q: u64, len: u64) -> bool
    ensures { Wrote (W.told writer.old) (W.told writer.new) (queue_text q len) result }
{
    let mut line = Line::new();
    line.put(b"\n");
    line.put_field(b" length ", len);
    line.put_field(b"queue ", q);
    line.write(writer)
}
