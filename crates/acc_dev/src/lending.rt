//! The loans of a device: a block is taken out by a lease, which is put back.

ghost use Rattle.std.specs.Prelude.{◌≡◌, ◌+◌, ◌≤◌, ◌↔◌, IfOk, IfErr, OnOk, OnErr, IsOk, true, false};
ghost use Rattle.acc_base.specs.Bytes.{bytes_of};
ghost use Rattle.acc_base.specs.Loans.{loan_of, is_lent, len_of};
ghost use Rattle.acc_base.specs.Leases.{is_returnable};
ghost use Rattle.acc_dev.specs.Marks.{is_ended_at};
ghost use Rattle.acc_dev.specs.Device.{number_at, HasBlock, IsTakenOut, IsLoanRefused, IsPutBack};

use crate::devices::Device;
use crate::entries::{copy_at, lend_at, loan_at, restore_at, slot, slot_of_block};
use crate::returning::slot_back;
use acc_base::{Fault, Loan};
use acc_lend::Lease;

impl Device {
    /// Moves the bytes of a mapped block of the device into a lease (OpenACC 3.3, sections 2.5 and 2.6). The lease is
    /// of the `len` bytes from place `offset` on, which end within the block. The block stays where it is, and is lent
    /// until [`Device::put_back`] takes the lease. With `keep`, a copy of all bytes of the block stays too. Without it
    /// no byte is copied, and nothing is allocated.
    ///
    /// # Errors
    ///
    /// [`Fault::Lent`] with the number of the block, exactly where it is lent already; else [`Fault::Memory`], and only
    /// with `keep`. The device is then as before.
    pub fn take_out(
        &mut self,
        block: u64,
        serial: u64,
        offset: u64,
        len: u64,
        keep: bool,
    ) -> Result<Lease, Fault>
        requires there { HasBlock self.old block }
        requires mapped { is_ended_at block self.old.marks ≡ false }
        requires within { offset + len ≤ len_of block self.old.blocks }
        ensures free { IsOk result → is_lent block self.old.loans ≡ false }
        ensures refused { IfErr result (IsLoanRefused self.old block keep) }
        ensures lease { IfOk result (λ lease. lease ≡ record { device = number_at self.old.memory.start; serial = serial; block = block; offset = offset; len = len; bytes = bytes_of block self.old.memories }) }
        ensures out { OnOk result (IsTakenOut self.old self.new (record { serial = serial; block = block; offset = offset; len = len }) keep) }
        ensures same { OnErr result (self.new ≡ self.old) }
    {
        let slot = slot_of_block(&self.index, block);
        if loan_at(&self.slab, slot).is_some() {
            return Err(Fault::Lent { block });
        }
        let loan = Loan {
            serial,
            block,
            offset,
            len,
        };
        let stays = copy_at(&self.slab, slot, self.alloc, keep)?;
        let device = self.number();
        Ok(lend_at(&mut self.slab, slot, stays, device, loan))
    }

    /// Moves the bytes of a lease back into its block, which is no longer lent, and frees a kept copy. No byte is
    /// copied, and nothing is allocated. With `kept`, the lease's bytes are compared with the copy that was kept.
    ///
    /// # Errors
    ///
    /// [`Fault::NoLease`] with the lease's serial number, and the lease itself, exactly where one of these holds. The
    /// lease is of another device. The device has no loan of this serial number, block, place and length of the
    /// section. The lease has not as many bytes as the block. Or, with `kept`, one of its bytes outside of the section
    /// is not the copy's. The device is then as before.
    pub fn put_back(&mut self, lease: Lease, kept: bool) -> Result<(), (Lease, Fault)>
        ensures fits { IsOk result ↔ (is_returnable kept (number_at self.old.memory.start) lease self.old.blocks self.old.loans self.old.memories ≡ true) }
        ensures back { IfErr result (λ back. (back.0 ≡ lease) × (back.1 ≡ Fault.NoLease lease.serial)) }
        ensures put { OnOk result (IsPutBack self.old self.new lease) }
        ensures same { OnErr result (self.new ≡ self.old) }
    {
        let serial = lease.serial();
        let Some(slot) = slot_back(&self.slab, &self.index, self.number(), &lease, kept) else {
            return Err((lease, Fault::NoLease { serial }));
        };
        restore_at(&mut self.slab, slot, lease.into_block());
        Ok(())
    }

    /// The loan of a block; `None` exactly where the device has no such block, or it is not lent.
    pub fn loan(&self, block: u64) -> Option<Loan>
        ensures { result ≡ loan_of block self.now.loans }
    {
        let slot = slot(&self.index, block)?;
        loan_at(&self.slab, slot)
    }

    /// Whether [`Device::put_back`] accepts a lease. It needs no memory.
    pub fn is_returnable(&self, lease: &Lease, kept: bool) -> bool
        ensures { result ≡ is_returnable kept (number_at self.now.memory.start) lease.now self.now.blocks self.now.loans self.now.memories }
    {
        slot_back(&self.slab, &self.index, self.number(), lease, kept).is_some()
    }
}
