//! What one device has, side by side.

ghost use Rattle.std.specs.Prelude.{◌≡◌, ◌<◌, IfOk, IfErr};
ghost use Rattle.acc_base.specs.declared.faults.Fault.TheVariants.{Memory};
ghost use Rattle.acc_base.specs.Limits.{limits_on};
ghost use Rattle.acc_clauses.specs.Devices.{IsNewEnvironment};

use acc_base::{Config, Fault};
use acc_dev::Device;
use acc_present::{Attached, Present, Queues};
use std::alloc::{AllocError, Global};

/// What one device has: the present table, the blocks of its memory, the attachment counters and the queues, side by
/// side. How they fit one another, and host memory, is said by what holds them.
#[derive(Drop)]
pub(crate) struct Environment {
    /// The mapped ranges and the open regions.
    pub(crate) present: Present,
    /// The blocks of device memory.
    pub(crate) device: Device,
    /// The attachment counters of the pointers in the blocks.
    pub(crate) attached: Attached,
    /// The transfers that are yet to be made.
    pub(crate) queues: Queues,
}

impl Clone for Environment {
    ghost use Rattle.acc_clauses.specs.Devices.{IsSameEnvironment};

    ghost is_clone = { IsSameEnvironment };

    fn clone(&self) -> Result<Environment, AllocError> {
        Ok(Environment {
            present: self.present.clone()?,
            device: self.device.clone()?,
            attached: self.attached.clone()?,
            queues: self.queues.clone()?,
        })
    }
}

impl Environment {
    /// That of the device of a number, where nothing is mapped and no block was born.
    pub(crate) fn new(alloc: Global, config: &Config, number: u64) -> Result<Environment, Fault>
        requires { number < config.now.devices }
        ensures ok { IfOk result (IsNewEnvironment (limits_on number config.now)) }
        ensures only { IfErr result (λ fault. fault ≡ Memory) }
    {
        config.laws();
        let queues = Queues::new(alloc, config.queue_cap())?;
        let device = Device::new(alloc, number, config.device())?;
        Ok(Environment {
            present: Present::new(alloc, config.counter_max()),
            device,
            attached: Attached::new(alloc, config.counter_max()),
            queues,
        })
    }
}
