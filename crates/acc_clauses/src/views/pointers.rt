//! The pointers in host memory and on a device (OpenACC 3.3, section 2.6.8).

ghost use Rattle.std.specs.Prelude.{◌≡◌, ◌^◌, ◌<◌, ◌≤◌, ◌==◌, ◌&&◌, ◌↔◌, IsTrue, [], Some, find, true, false};
ghost use Rattle.acc_base.specs.Section.{covers, is_within, host_memory};
ghost use Rattle.acc_base.specs.Loans.{is_lent};
ghost use Rattle.acc_base.specs.Pointers.{attachment_of, host_pointer, device_pointer};
ghost use Rattle.acc_base.specs.Attachments.{count_at, next_pointer, pointer_at};
ghost use Rattle.acc_base.specs.Detaching.{block_with};

use crate::sections::pointer_at;
use crate::views::View;
use acc_base::{Attachment, Found, Section};

impl View<'_> {
    /// How often a pointer in a block is attached. `pointer` is its host address.
    pub(crate) fn count(&self, block: u64, pointer: u64) -> u64
        ensures value { result ≡ count_at block pointer self.now.state.records.attached }
        ensures limit { result ≤ self.now.limits.counter_max }
        ensures bound { self.now.limits.counter_max < 2 ^ 32 }
    {
        self.laws();
        self.environment.attached.count(block, pointer)
    }

    /// The attachment counter (OpenACC 3.3, section 2.6.8) of the pointer at a host address, in the block whose range
    /// has its eight bytes. 0 where the pointer is not present.
    pub fn attachment(&self, pointer: u64) -> u64
        ensures { result ≡ attachment_of pointer self.now.state.records }
    {
        match self.find(pointer_at(pointer)) {
            Found::Inside { block, .. } => self.count(block, pointer),
            Found::Empty | Found::Partly | Found::Absent => 0,
        }
    }

    /// The least host address, from one on, at which an attached pointer of a block begins.
    fn next_pointer(&self, block: u64, from: u64) -> Option<u64>
        ensures { result ≡ next_pointer block from self.now.state.records.attached }
    {
        self.environment.attached.next_pointer(block, from)
    }

    /// Whether no pointer is attached on the device.
    pub fn has_no_pointer(&self) -> bool
        ensures { IsTrue result ↔ (self.now.state.records.attached ≡ []) }
    {
        self.environment.attached.is_empty()
    }

    /// The attached pointer of a block that has the least host address in a section, with its counter.
    pub fn next_attached(&self, block: u64, section: Section) -> Option<Attachment>
        ensures { result ≡ find (λ a. a.block == block && covers section a.pointer) self.now.state.records.attached }
    {
        self.laws();
        match self.next_pointer(block, section.start) {
            Some(pointer) => {
                if section.len <= pointer - section.start {
                    return None;
                }
                let count = self.count(block, pointer);
                Some(Attachment {
                    block,
                    pointer,
                    count,
                })
            }
            None => None,
        }
    }

    /// The address that a pointer in host memory holds.
    pub(crate) fn host_pointer(&self, pointer: u64) -> u64
        requires { is_within (pointer_at pointer) (host_memory self.now.limits.host) ≡ true }
        ensures { result ≡ host_pointer pointer self.now.state }
    {
        let Some(address) = self.host.pointer_at(pointer) else {
            unreachable!()
        };
        address
    }

    /// The address that a pointer in a block holds on the device, where the block, which is not lent, has its eight
    /// bytes.
    pub(crate) fn device_pointer(&self, block: u64, pointer: u64) -> u64
        ensures { block_with pointer self.now.state.records.ranges ≡ Some block → is_lent block self.now.state.records.loans ≡ false → result ≡ device_pointer block pointer self.now.state }
    {
        self.laws();
        let Some(bytes) = self.bytes(block) else {
            return 0;
        };
        let from = pointer.saturating_sub(self.start(block)) as usize;
        if bytes.len().saturating_sub(from) < 8 {
            return 0;
        }
        let mut address = [0; 8];
        address.copy_from_slice(&bytes[from..from + 8]);
        u64::from_le_bytes(address)
    }
}
