//! A table and the arrays of a script, and what statements do to them.

ghost use Rattle.std.specs.Prelude.{◌≡◌, IfSome, MatchResult};
ghost use Rattle.acc_base.specs.declared.calls.Call.TheVariants.{HostWrite};
ghost use Rattle.acc_base.specs.declared.faults.Fault.TheVariants.{Memory};
ghost use Rattle.acc_read.specs.Meanings.{meaning_of};
ghost use Rattle.acc_read.specs.Statements.{Kernel};
ghost use Rattle.acc_script.specs.Kernels.{source_of};
ghost use Rattle.acc_script.specs.Sessions.{session_state, Performs, CallsFor, effect_of, refusal_of};
ghost use Rattle.acc_base.specs.Calls.{device_there};
ghost use Rattle.acc_script.specs.Scripts.{new_session, back_from, shown, selected};
ghost use Rattle.acc_table.specs.Queries.{host_read_of, newest_of};

use crate::kernels::{KernelRunner, source_of};
use crate::print::effects::Effect;
use acc_base::{Config, Fault, Section};
use acc_lend::Lease;
use acc_read::{Arrays, ScriptKernel, Statement};
use acc_table::{Call, Reply, Table, abandon};
use std::alloc::Global;

/// A table, the arrays that the script has declared, and which device its lines are for.
pub struct Session {
    /// The table on which statements make calls.
    pub table: Table,
    /// The arrays that the script has declared, by their names.
    pub arrays: Arrays,
    /// The number of the current device.
    pub device: u64,
    pub(crate) alloc: Global,
}

// By hand, so that a crate above does not prove the drops of its parts again.
impl Drop for Session {
    fn drop(self) {
        let Session {
            table: _,
            arrays: _,
            device: _,
            alloc: _,
        } = self;
    }
}

impl Session {
    /// Returns a session with a new table of these limits and no array. The first device is the current one.
    ///
    /// # Errors
    ///
    /// [`Fault::Memory`] alone.
    pub fn new(alloc: Global, config: Config) -> Result<Session, Fault>
        ensures { MatchResult result (λ session. session_state session ≡ new_session config) (λ fault. fault ≡ Memory) }
    {
        Ok(Session {
            table: Table::new(alloc, config)?,
            arrays: Arrays::new(alloc, config.host() as u32),
            device: 0,
            alloc,
        })
    }

    /// Runs a statement, and returns what it has to print.
    ///
    /// # Errors
    ///
    /// [`Fault::Memory`] alone, for a statement that declares an array, or whose call makes an event. Nothing changed
    /// then, but a kernel's block stays lent where there is no memory to bring it back.
    #[inline(always)]
    pub fn perform<K: KernelRunner>(
        &mut self,
        kernels: &K,
        statement: Statement<'_>,
    ) -> Result<Effect, Fault>
        requires { K.able kernels.now }
        ensures { Performs (session_state self.old) (meaning_of statement.entry) (session_state self.new) result }
    {
        match statement {
            Statement::Blank => Ok(Effect::Nothing),
            Statement::Declare { name, array } => {
                self.arrays.insert(name, array)?;
                Ok(Effect::Nothing)
            }
            Statement::Direct(directive) => self.call(Call::Do(directive)),
            Statement::Select(device) => Ok(self.select(device)),
            Statement::Kernel {
                region,
                kernel,
                section,
            } => self.launch(kernels, region, kernel, section),
            Statement::Write { addr, bytes } => {
                let mut room = [0u8; 64];
                let copy = &mut room[..bytes.len()];
                bytes.copy_to(copy);
                self.write(addr, copy)
            }
            Statement::Point { addr, target } => self.write(addr, &target.to_le_bytes()),
            Statement::Show(section) => Ok(self.answer_show(section)),
            Statement::Peek(section) => Ok(Effect::DeviceBytes {
                device: self.device,
                section,
            }),
            Statement::Present(section) => Ok(Effect::Presence(
                self.table.is_present(self.device, section),
            )),
            Statement::Address(addr) => {
                Ok(Effect::Place(self.table.device_address(self.device, addr)))
            }
            Statement::Report => Ok(Effect::Reported),
        }
    }

    /// Returns the number of the open region that was entered last, on whichever device.
    pub fn innermost(&self) -> Option<u64>
        ensures { result ≡ newest_of (session_state self.now).world.state.devices }
    {
        self.table.innermost()
    }

    /// Chooses the current device. This is no call on the table: a device that is not there is refused here.
    fn select(&mut self, device: u64) -> Effect
        ensures { selected (session_state self.old) device (device_there (session_state self.old).world device) ≡ record { state = session_state self.new; effect = result } }
    {
        if self.table.config().devices() <= device {
            return Effect::Refused(Fault::NoDevice { device });
        }
        self.device = device;
        Effect::Nothing
    }

    /// Makes a call on the table. It drops a lease that the table replies, or that comes back with a refused call.
    #[inline(always)]
    #[tactic(auto, using(crate::proofs::Refused::refused_call))]
    fn call(&mut self, call: Call) -> Result<Effect, Fault>
        ensures { CallsFor (session_state self.old) call (session_state self.new) result }
    {
        match self.table.apply(call) {
            Ok(reply) => Ok(effect_of(reply)),
            Err(back) => refused(back),
        }
    }

    /// Writes bytes into host memory.
    #[inline(always)]
    #[tactic(auto, using(crate::proofs::Refused::refused_call))]
    fn write(&mut self, addr: u64, bytes: &[u8]) -> Result<Effect, Fault>
        ensures { CallsFor (session_state self.old) (HostWrite addr bytes.now) (session_state self.new) result }
    {
        match self.table.host_write(addr, bytes) {
            Ok(()) => Ok(Effect::Nothing),
            Err(fault) => refusal_of(fault),
        }
    }

    /// Runs a kernel over a section of host memory that is lent to it in an open region (OpenACC 3.3, section 2.5,
    /// compute constructs). The bytes of its source have to be in host memory.
    #[tactic(auto, using(crate::proofs::Launched::launch_refused, crate::proofs::Launched::launch_done))]
    fn launch<K: KernelRunner>(
        &mut self,
        kernels: &K,
        region: u64,
        kernel: ScriptKernel,
        section: Section,
    ) -> Result<Effect, Fault>
        requires { K.able kernels.now }
        ensures { Performs (session_state self.old) (Kernel region kernel section) (session_state self.new) result }
    {
        if self.table.host_read(source_of(kernel)).is_none() {
            return Ok(Effect::Refused(Fault::OutOfHost { item: 1 }));
        }
        match self.table.apply(Call::Lend { region, section }) {
            Ok(Reply::Lease(lease)) => self.work(kernels, kernel, lease),
            Ok(reply) => {
                reply.abandon();
                Ok(Effect::Nothing)
            }
            Err(back) => refused(back),
        }
    }

    /// Drops the lease, so that its block stays lent, where bringing it back is refused or there is no memory for that.
    fn work<K: KernelRunner>(
        &mut self,
        kernels: &K,
        kernel: ScriptKernel,
        lease: Lease,
    ) -> Result<Effect, Fault>
        requires { K.able kernels.now }
        ensures { IfSome (host_read_of (source_of kernel) (session_state self.old).world.state.host)
            (λ src. CallsFor (session_state self.old) (back_from kernel src lease) (session_state self.new) result) }
    {
        let src = self.table.host_read(source_of(kernel)).unwrap_or(&[]);
        let lease = kernels.run(kernel, lease, src);
        self.call(Call::Gather(lease))
    }

    /// What `show` has to print: a section's bytes, or a refusal where host memory does not have them. The bytes
    /// themselves are read where they are written.
    fn answer_show(&self, section: Section) -> Effect
        ensures { result ≡ shown section (host_read_of section (session_state self.now).world.state.host) }
    {
        match self.table.host_read(section) {
            None => Effect::Refused(Fault::OutOfHost { item: 0 }),
            Some(_) => Effect::HostBytes(section),
        }
    }
}

/// What an accepted call has to print. It drops a lease.
fn effect_of(reply: Reply) -> Effect
    ensures { result ≡ effect_of reply }
{
    let effect = if matches!(&reply, Reply::Idle) {
        Effect::EmptyQueue
    } else {
        Effect::Nothing
    };
    reply.abandon();
    effect
}

/// What a refused call has to print. It drops the call.
fn refused(back: (Call, Fault)) -> Result<Effect, Fault>
    ensures { result ≡ refusal_of back.1 }
{
    let (call, fault) = back;
    abandon(call);
    refusal_of(fault)
}

/// What a refusal has to print; lack of memory ends the run.
fn refusal_of(fault: Fault) -> Result<Effect, Fault>
    ensures { result ≡ refusal_of fault }
{
    match fault {
        Fault::Memory => Err(Fault::Memory),
        fault => Ok(Effect::Refused(fault)),
    }
}
