//! Whether two devices had the same open regions, and the same bytes in their blocks.

ghost use Rattle.std.specs.Prelude.{◌≡◌, map};
ghost use Rattle.std.specs.Cmp.Lexicographic.{pointwise};
ghost use Rattle.acc_dev.specs.Device.{memory_saved};
ghost use Rattle.acc_present.specs.Present.{region_of};
ghost use Rattle.acc_clauses.specs.Alike.{is_same_region, is_same_memory};

use acc_dev::SavedBlock;
use acc_present::OpenRegion;

/// Whether two regions have one number, and hold the same.
fn is_same_region(region: &OpenRegion, other: &OpenRegion) -> bool
    ensures { result ≡ is_same_region (region_of region.now) (region_of other.now) }
{
    region.number == other.number && region.holdings == other.holdings
}

/// Whether the same regions were open, and held the same.
pub(crate) fn are_same_regions(regions: &[OpenRegion], others: &[OpenRegion]) -> bool
    ensures { result ≡ pointwise is_same_region (map region_of regions.now) (map region_of others.now) }
{
    if regions.len() != others.len() {
        return false;
    }
    for (region, other) in regions.iter().zip(others) {
        if !is_same_region(region, other) {
            return false;
        }
    }
    true
}

/// Whether the bytes are those of one block, and the same.
fn is_same_memory(memory: &SavedBlock, other: &SavedBlock) -> bool
    ensures { result ≡ is_same_memory (memory_saved memory.now) (memory_saved other.now) }
{
    memory.block == other.block && memory.bytes == other.bytes
}

/// Whether the same blocks had the same bytes.
pub(crate) fn are_same_memories(memories: &[SavedBlock], others: &[SavedBlock]) -> bool
    ensures { result ≡ pointwise is_same_memory (map memory_saved memories.now) (map memory_saved others.now) }
{
    if memories.len() != others.len() {
        return false;
    }
    for (memory, other) in memories.iter().zip(others) {
        if !is_same_memory(memory, other) {
            return false;
        }
    }
    true
}
