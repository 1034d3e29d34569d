//! What all devices of a table share.

ghost use Rattle.std.specs.Prelude.{◌≡◌, IfOk, IfErr, IfSome, IfNone, length};
ghost use Rattle.acc_base.specs.declared.faults.Fault.TheVariants.{Memory};
ghost use Rattle.acc_base.specs.Limits.{recorded};
ghost use Rattle.acc_base.specs.Bytes.{host_after_write};
ghost use Rattle.acc_base.specs.declared.items.Section.{Section};
ghost use Rattle.acc_dev.specs.Host.{bytes_in, IsRead, IsOutOfHost};
ghost use Rattle.acc_clauses.specs.Devices.{HaveRisen, new_shared};
ghost use Rattle.acc_clauses.specs.Acts.{CanWrite};

use acc_base::{Config, Fault, Section};
use acc_dev::HostMem;
use std::alloc::{AllocError, Global};
use std::marker::Model;

/// What all devices of a table share: host memory, and the numbers of the next data region and the next loan.
///
/// Contracts see the bytes of host memory and the numbers.
pub struct Shared {
    pub(crate) host: HostMem,
    pub(crate) next_region: u64,
    pub(crate) next_serial: u64,
}

// By hand, so that a crate above does not prove the drops of its parts again.
impl Drop for Shared {
    fn drop(self) {
        let Shared {
            host: _,
            next_region: _,
            next_serial: _,
        } = self;
    }
}

impl Model for Shared {
    ghost use Rattle.acc_clauses.specs.Devices.{SharedContents};

    ghost Value = { SharedContents };

    ghost view = { λ s. record { host = s.host; numbers = record { region = s.next_region; serial = s.next_serial } } };
}

impl Clone for Shared {
    ghost is_clone = { λ shared copy. copy ≡ shared };

    /// The same, in memory of its own.
    ///
    /// # Errors
    ///
    /// [`AllocError`] where there is no memory for it.
    fn clone(&self) -> Result<Shared, AllocError> {
        Ok(Shared {
            host: self.host.clone()?,
            next_region: self.next_region,
            next_serial: self.next_serial,
        })
    }
}

impl Shared {
    /// What the devices of a new table share: host memory is zero, and all numbers begin at 1.
    ///
    /// # Errors
    ///
    /// [`Fault::Memory`] alone.
    pub fn new(alloc: Global, config: &Config) -> Result<Shared, Fault>
        ensures ok { IfOk result (λ shared. shared ≡ new_shared config.now.host) }
        ensures only { IfErr result (λ fault. fault ≡ Memory) }
    {
        config.laws();
        Ok(Shared {
            host: HostMem::new(alloc, config.host())?,
            next_region: 1,
            next_serial: 1,
        })
    }

    /// The number that the next data region gets.
    pub fn next_region(&self) -> u64
        ensures { result ≡ self.now.numbers.region }
    {
        self.next_region
    }

    /// The serial number that the next loan gets.
    pub fn next_serial(&self) -> u64
        ensures { result ≡ self.now.numbers.serial }
    {
        self.next_serial
    }

    /// Writes bytes into host memory from an address on. An empty write may stand anywhere; else each address that is
    /// written is in host memory. It allocates nothing and is never refused.
    pub fn host_write(&mut self, addr: u64, bytes: &[u8])
        requires { CanWrite (record { start = addr; len = length bytes.now }) self.old.host }
        ensures host { self.new.host ≡ host_after_write addr (length bytes.now) bytes.now self.old.host }
        ensures numbers { self.new.numbers ≡ self.old.numbers }
        ensures risen { HaveRisen self.old self.new }
    {
        let Ok(()) = self.host.write(addr, bytes) else {
            unreachable!()
        };
    }

    /// The bytes of a section of host memory. `None` exactly where some address of it is outside of host memory.
    pub fn host_read(&self, section: Section) -> Option<&[u8]>
        ensures each { IfSome result (λ bytes. IsRead self.now.host section bytes.now) }
        ensures part { IfSome result (λ bytes. bytes.now ≡ bytes_in self.now.host section) }
        ensures none { IfNone result (IsOutOfHost self.now.host section) }
    {
        self.host.read(section)
    }

    /// The bytes of host memory with `full`; else none.
    ///
    /// # Errors
    ///
    /// [`Fault::Memory`] alone.
    pub fn saved_host(&self, alloc: Global, full: bool) -> Result<Vec<u8>, Fault>
        ensures ok { IfOk result (λ saved. saved.items ≡ recorded full self.now.host) }
        ensures only { IfErr result (λ fault. fault ≡ Memory) }
    {
        if full {
            self.host.copy(alloc)
        } else {
            Ok(Vec::new(alloc))
        }
    }
}
