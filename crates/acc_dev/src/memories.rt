//! Host memory as one value.

ghost use Rattle.std.specs.Prelude.{◌-◌, ◌≡◌, ◌+◌, ◌<◌, ◌≤◌, ◌⊎◌, IfOk, IfErr, OnOk, OnErr, IfSome, IfNone, OnSome, length, replicate};
ghost use Rattle.std.specs.Int.{w64, from_le_bytes};
ghost use Rattle.acc_base.specs.Limits.{IsSize};
ghost use Rattle.acc_base.specs.Section.{host_base};
ghost use Rattle.acc_base.specs.Overwriting.{overwritten};
ghost use Rattle.acc_dev.specs.Host.{IsInHost, IsOutOfHost, IsRead, IsWritten, bytes_in};

use acc_base::{Fault, HOST_BASE, Section};
use std::alloc::{AllocError, Global};
use std::marker::Model;

/// Host memory: a byte at each host address from [`HOST_BASE`] on (OpenACC 3.3, section 2.6, data environment).
///
/// Contracts see the list of its bytes: the byte at an address is the list's element at the address less
/// [`HOST_BASE`].
pub struct HostMem {
    bytes: Vec<u8>,
}

// By hand, so that a crate above does not prove the drops of its parts again.
impl Drop for HostMem {
    fn drop(self) {
        let HostMem { bytes: _ } = self;
    }
}

impl Model for HostMem {
    ghost use Rattle.std.specs.Prelude.{ℕ, List};

    ghost Value = { List ℕ };

    ghost view = { λ memory. memory.bytes.items };
}

impl Clone for HostMem {
    ghost is_clone = { λ memory copy. copy ≡ memory };

    /// A memory of the same bytes.
    ///
    /// # Errors
    ///
    /// [`AllocError`] where there is no memory for its bytes.
    fn clone(&self) -> Result<Self, AllocError> {
        let bytes = Vec::from_slice(*self.bytes.allocator(), &self.bytes)?;
        Ok(HostMem { bytes })
    }
}

impl HostMem {
    /// A memory of `size` bytes, which are all 0. The size is a multiple of 16, from 16 to 67,108,864.
    ///
    /// # Errors
    ///
    /// [`Fault::Memory`] alone.
    pub fn new(alloc: Global, size: u64) -> Result<HostMem, Fault>
        requires { IsSize size }
        ensures ok { IfOk result (λ memory. memory ≡ replicate size 0) }
        ensures only { IfErr result (λ fault. fault ≡ Fault.Memory) }
    {
        let bytes = vec![in alloc; 0; size as usize]?;
        Ok(HostMem { bytes })
    }

    /// The bytes of a section, as many as it is long. An empty section has none, wherever it starts.
    ///
    /// `None` exactly where some address of the section is outside of the memory. A section may reach past the last
    /// `u64`.
    pub fn read(&self, section: Section) -> Option<&[u8]>
        ensures each { IfSome result (λ bytes. IsRead self.now section bytes.now) }
        ensures part { IfSome result (λ bytes. bytes.now ≡ bytes_in self.now section) }
        ensures none { IfNone result (IsOutOfHost self.now section) }
    {
        let at = index_of(self.bytes.len(), section)?;
        Some(&self.bytes[at..at + section.len as usize])
    }

    /// Writes bytes at the host addresses from `addr` on. No bytes are accepted at every address.
    ///
    /// # Errors
    ///
    /// [`Fault::OutOfHost`] with item 0, exactly where an address to be written is outside of the memory. Then nothing
    /// is written.
    pub fn write(&mut self, addr: u64, bytes: &[u8]) -> Result<(), Fault>
        ensures each { OnOk result (IsWritten self.old self.new (record { start = addr; len = length bytes.now }) bytes.now) }
        ensures whole { OnOk result (self.new ≡ overwritten (addr - host_base) bytes.now self.old) }
        ensures refused { IfErr result (λ fault. fault ≡ Fault.OutOfHost 0) }
        ensures outside { OnErr result (IsOutOfHost self.old (record { start = addr; len = length bytes.now })) }
        ensures unchanged { OnErr result (self.new ≡ self.old) }
    {
        let section = Section {
            start: addr,
            len: bytes.len() as u64,
        };
        let Some(at) = index_of(self.bytes.len(), section) else {
            return Err(Fault::OutOfHost { item: 0 });
        };
        self.bytes[at..at + bytes.len()].copy_from_slice(bytes);
        Ok(())
    }

    /// All bytes of the memory in a vector of their own. The memory stays as it is.
    ///
    /// # Errors
    ///
    /// [`Fault::Memory`] alone.
    pub fn copy(&self, alloc: Global) -> Result<Vec<u8>, Fault>
        ensures ok { IfOk result (λ bytes. bytes.items ≡ self.now) }
        ensures only { IfErr result (λ fault. fault ≡ Fault.Memory) }
    {
        Ok(Vec::from_slice(alloc, &self.bytes)?)
    }

    /// The number, little-endian, that the eight bytes from `addr` on are: the host address that a pointer there
    /// holds.
    ///
    /// `None` exactly where one of the eight addresses is outside of the memory.
    pub fn pointer_at(&self, addr: u64) -> Option<u64>
        ensures value { IfSome result (λ pointer. pointer ≡ from_le_bytes w64 (bytes_in self.now (record { start = addr; len = 8 }))) }
        ensures in_host { OnSome result (IsInHost self.now (record { start = addr; len = 8 })) }
        ensures none { IfNone result (IsOutOfHost self.now (record { start = addr; len = 8 })) }
    {
        let bytes = self.read(Section {
            start: addr,
            len: 8,
        })?;
        let mut pointer = [0; 8];
        pointer.copy_from_slice(bytes);
        Some(u64::from_le_bytes(pointer))
    }
}

/// The index of a section's first byte in a memory of so many bytes, and 0 for an empty section. `None` where an
/// address of the section is outside.
fn index_of(size: usize, section: Section) -> Option<usize>
    ensures within { IfSome result (λ at. at + section.len ≤ size) }
    ensures start { IfSome result (λ at. 0 < section.len → section.start ≡ HOST_BASE + at) }
    ensures none { IfNone result ((0 < section.len) × ((section.start < HOST_BASE) ⊎ (HOST_BASE + size < section.start + section.len))) }
{
    if section.len == 0 {
        return Some(0);
    }
    let at = section.start.checked_sub(HOST_BASE)? as usize;
    let room = size.checked_sub(at)?;
    if section.len as usize > room {
        return None;
    }
    Some(at)
}
