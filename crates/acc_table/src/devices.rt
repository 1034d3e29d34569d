//! What the devices of a table have, and what they share.

ghost use Rattle.std.specs.Prelude.{◌≡◌, ◌<◌, ◌≤◌, ◌^◌, length, is_some, IfOk, IfErr, IfSome, IfNone};
ghost use Rattle.acc_base.specs.declared.faults.Fault.TheVariants.{Memory};
ghost use Rattle.acc_base.specs.Limits.{Limits, limits_on};
ghost use Rattle.acc_base.specs.Register.{region_at};
ghost use Rattle.acc_base.specs.Calls.{base_of};
ghost use Rattle.acc_base.specs.Devices.{device_at, view, new_whole, open_regions, device_of_region};
ghost use Rattle.acc_table.specs.Devices.{whole_of, AreSet, AreNewUpTo};

use acc_base::{Config, Fault};
use acc_clauses::{Base, DeviceData, Shared, View};
use std::alloc::Global;

/// What the devices of a table have, and what they share.
#[derive(Drop)]
pub(crate) struct Devices {
    /// Host memory, and the numbers of the next region and the next loan.
    pub(crate) shared: Shared,
    /// What each device has, in the place of its number.
    pub(crate) each: Vec<DeviceData>,
}

/// What each device of a new table has.
fn new_each(alloc: Global, config: &Config) -> Result<Vec<DeviceData>, Fault>
    ensures ok { IfOk result (λ each. AreNewUpTo config.now config.now.devices each.items) }
    ensures only { IfErr result (λ fault. fault ≡ Memory) }
{
    config.laws();
    let mut each = Vec::new(alloc);
    for device in 0..config.devices() {
        each.push(DeviceData::new(alloc, config, device)?)?;
    }
    Ok(each)
}

impl Devices {
    /// Nothing is mapped on any device, no region is open, and host memory is zero.
    pub(crate) fn new(alloc: Global, config: &Config) -> Result<Devices, Fault>
        ensures set { IfOk result (AreSet config.now) }
        ensures new { IfOk result (λ devices. whole_of devices ≡ new_whole config.now.devices config.now.host) }
        ensures only { IfErr result (λ fault. fault ≡ Memory) }
    {
        Ok(Devices {
            shared: Shared::new(alloc, config)?,
            each: new_each(alloc, config)?,
        })
    }

    /// What a device has, to look at. `None` exactly where there is no such device.
    pub(crate) fn view(&self, device: u64) -> Option<View<'_>>
        requires { (l : Limits) × AreSet l self.now }
        ensures there { IfSome result (λ v. (l : Limits) → AreSet l self.now → v ≡ record { limits = limits_on device l; state = view device (whole_of self.now) }) }
        ensures known { IfSome result (λ _. device < length self.now.each.items) }
        ensures none { IfNone result (length self.now.each.items ≤ device) }
    {
        Some(self.each.get(device as usize)?.view(&self.shared))
    }

    /// What all devices have as a base, where so many events had led here: with the bytes of all memories, or without.
    pub(crate) fn base(
        &self,
        alloc: Global,
        config: &Config,
        full: bool,
        events: u64,
    ) -> Result<Base, Fault>
        requires { AreSet config.now self.now }
        ensures ok { IfOk result (λ base. base ≡ base_of full (whole_of self.now) events) }
        ensures only { IfErr result (λ fault. fault ≡ Memory) }
    {
        let host = self.shared.saved_host(alloc, full)?;
        let mut saved = Vec::new(alloc);
        for device in 0..config.devices() {
            if let Some(view) = self.view(device) {
                saved.push(view.saved(alloc, full)?)?;
            }
        }
        Ok(Base::of(
            saved,
            self.shared.next_region(),
            self.shared.next_serial(),
            host,
            events,
        ))
    }

    /// How many of the open data regions were entered on a device.
    fn regions_on(&self, device: u64) -> u64
        requires { (l : Limits) × AreSet l self.now }
        ensures { result ≡ length (device_at device (whole_of self.now).devices).regions }
    {
        match self.view(device) {
            Some(view) => view.regions(),
            None => 0,
        }
    }

    /// How many data regions are open on all devices.
    pub(crate) fn regions(&self) -> u64
        requires set { (l : Limits) × AreSet l self.now }
        requires few { open_regions (whole_of self.now) < 2 ^ 64 }
        ensures { result ≡ open_regions (whole_of self.now) }
    {
        let mut open = 0;
        for device in 0..self.each.len() as u64 {
            open += self.regions_on(device);
        }
        open
    }

    /// Whether a region of the number is open that was entered on a device.
    fn has_region(&self, device: u64, number: u64) -> bool
        requires { (l : Limits) × AreSet l self.now }
        ensures { result ≡ is_some (region_at number (device_at device (whole_of self.now).devices).regions) }
    {
        match self.view(device) {
            Some(view) => view.has_region(number),
            None => false,
        }
    }

    /// The device on which a region of the number is open; 0 where none is.
    pub(crate) fn device_of_region(&self, number: u64) -> u64
        requires { (l : Limits) × AreSet l self.now }
        ensures { result ≡ device_of_region number (whole_of self.now) }
    {
        for device in 0..self.each.len() as u64 {
            if self.has_region(device, number) {
                return device;
            }
        }
        0
    }
}
