//! What holds of every table, law by law.

ghost use Rattle.acc_table.specs.Laws.{IsLawful};

use crate::tables::Table;

/// The laws hold of this table, as they do of every table. Nothing is done.
///
/// On each device:
///
/// - Mapped ranges are not empty, lie in host memory, and do not overlap. Blocks and holes are the device, with no
///   address in two of them.
/// - Each range has a block of its own, and each other block is named by a queued transfer.
/// - No range has both counters zero. Both are the counts over the history, and the structured one is how often open
///   regions hold the block. The attachment counter of every pointer is that of the history, too.
/// - Open regions have rising numbers. Queues are within their limit, and each queued transfer lies in its block. No
///   block is lent twice, and each that is lent is mapped. Each memory has its size where it is not lent.
/// - Whatever happened on other devices, the device has what its own events alone lead to.
///
/// And of all:
///
/// - No region is open on two devices.
/// - The history is legal and leads to what the devices have. There are no more events than tickets and places in the
///   trace, and no more open regions than the limit says. Each limit is within its bounds.
pub fn hold(table: &Table)
    ensures { IsLawful table.now }
{
    table.laws();
    for device in 0..table.config().devices() {
        let Some(view) = table.on(device) else {
            unreachable!()
        };
        view.laws();
    }
}
