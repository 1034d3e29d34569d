//! The report of a table, written without allocation.

ghost use Rattle.std.specs.Prelude.{◌<◌, ◌≤◌, length};
ghost use Rattle.acc_base.specs.Devices.{device_at, view};
ghost use Rattle.acc_script.specs.Ends.{Wrote};
ghost use Rattle.acc_script.specs.Texts.{device_text, only_text, one_text, each_text, several_text, memories_text, report_text, sizes_text, used_text, totals_text};
ghost use Rattle.acc_script.specs.Runs.{Printed};

use crate::Sink;
use crate::print::blocks::write_ended;
use crate::print::lines::Line;
use crate::print::queues::write_queues;
use crate::print::ranges::write_ranges;
use acc_base::{Config, Fault};
use acc_table::Table;

/// Writes the report of a table, without allocation. It shows the sizes of the memories in bytes, what each device has,
/// and how many regions are open and how many events there were. Several devices stand in the order of their numbers.
/// What was written is proved where the sink makes its bytes known.
///
/// Of a device it shows how many bytes its blocks take, and then three lists:
///
/// - its mapped ranges by rising start, with counters, attached pointers, and whether the block is lent;
/// - the blocks whose mapping has ended, by rising place;
/// - the queues that are not empty, by rising number.
///
/// # Errors
///
/// [`Fault::Write`] where the sink fails. It took a front of the report.
pub fn report<W: Sink>(table: &Table, writer: &mut W) -> Result<(), Fault>
    ensures { Printed (W.told writer.old) (W.told writer.new) (report_text table.now) result }
{
    if write_report(table, writer) {
        Ok(())
    } else {
        Err(Fault::Write)
    }
}

/// Writes the report as [`report`] does; false where the sink failed.
pub fn write_report<W: Sink>(table: &Table, writer: &mut W) -> bool
    ensures { Wrote (W.told writer.old) (W.told writer.new) (report_text table.now) result }
{
    if !write_memories(table, writer) {
        return false;
    }
    write_totals(writer, table.regions(), table.events())
}

/// Writes the lines of all devices. The number of a device that is alone is not written.
fn write_memories<W: Sink>(table: &Table, writer: &mut W) -> bool
    ensures { Wrote (W.told writer.old) (W.told writer.new) (memories_text table.now) result }
{
    if table.config().devices() == 1 {
        write_only(table, writer)
    } else {
        write_several(table, writer)
    }
}

#[tactic(auto, using(crate::proofs::Fronts::writing_laws))]
fn write_only<W: Sink>(table: &Table, writer: &mut W) -> bool
    ensures { Wrote (W.told writer.old) (W.told writer.new) (only_text table.now) result }
{
    table.laws();
    if !write_sizes(writer, table.config(), b" used ", table.used(0)) {
        return false;
    }
    write_device(table, writer, 0)
}

#[tactic(auto, using(crate::proofs::Fronts::writing_laws))]
fn write_several<W: Sink>(table: &Table, writer: &mut W) -> bool
    ensures { Wrote (W.told writer.old) (W.told writer.new) (several_text table.now) result }
{
    let config = table.config();
    if !write_sizes(writer, config, b" devices ", config.devices()) {
        return false;
    }
    write_each(table, writer)
}

fn write_each<W: Sink>(table: &Table, writer: &mut W) -> bool
    ensures { Wrote (W.told writer.old) (W.told writer.new) (each_text 0 table.now.state.devices) result }
{
    table.laws();
    let count = table.config().devices();
    for device in 0..count {
        if !write_one(table, writer, device) {
            return false;
        }
    }
    true
}

#[tactic(auto, using(crate::proofs::Fronts::writing_laws))]
fn write_one<W: Sink>(table: &Table, writer: &mut W, device: u64) -> bool
    requires there { device < table.now.limits.devices }
    ensures { Wrote (W.told writer.old) (W.told writer.new) (one_text device (device_at device table.now.state.devices)) result }
{
    if !write_used(writer, device, table.used(device)) {
        return false;
    }
    write_device(table, writer, device)
}

#[tactic(auto, using(crate::proofs::Fronts::writing_laws))]
fn write_device<W: Sink>(table: &Table, writer: &mut W, device: u64) -> bool
    requires there { device < table.now.limits.devices }
    ensures { Wrote (W.told writer.old) (W.told writer.new) (device_text (view device table.now.state).records) result }
{
    if !write_ranges(table, writer, device) {
        return false;
    }
    if !write_ended(table, writer, device) {
        return false;
    }
    write_queues(table, writer, device)
}

/// Writes the sizes of the memories, and one number more with its name.
fn write_sizes<W: Sink>(writer: &mut W, config: Config, name: &[u8], number: u64) -> bool
    requires short { length name.now ≤ 16 }
    ensures { Wrote (W.told writer.old) (W.told writer.new) (sizes_text config name.now number) result }
{
    let mut line = Line::new();
    line.put(b"\n");
    line.put_field(name, number);
    line.put_field(b" device ", config.device());
    line.put_field(b"host ", config.host());
    line.write(writer)
}

fn write_used<W: Sink>(writer: &mut W, device: u64, used: u64) -> bool
    ensures { Wrote (W.told writer.old) (W.told writer.new) (used_text device used) result }
{
    let mut line = Line::new();
    line.put(b"\n");
    line.put_field(b" used ", used);
    line.put_field(b"device ", device);
    line.write(writer)
}

fn write_totals<W: Sink>(writer: &mut W, regions: u64, events: u64) -> bool
    ensures { Wrote (W.told writer.old) (W.told writer.new) (totals_text regions events) result }
{
    let mut line = Line::new();
    line.put(b"\n");
    line.put_field(b" events ", events);
    line.put_field(b"regions ", regions);
    line.write(writer)
}
