//! The limits of a table.

ghost use Rattle.std.specs.Prelude.{◌≡◌, ◌^◌, ◌↔◌, false, true, IsTrue, MatchResult};
ghost use Rattle.acc_base.specs.Limits.{limits_of, IsWithinBounds, IsSize, IsFromOne};

use crate::{Fault, MEMORY_MAX};
use std::marker::Model;

/// The limits of a table: the sizes of host memory and of each device's, and how much it may hold.
///
/// Each value lies within the bounds that [`Config::new`] and [`Config::with_devices`] state.
#[derive(Clone, Copy, Debug, PartialEq, Eq)]
pub struct Config {
    host: u64,
    device: u64,
    regions: u64,
    tickets: u64,
    counter_max: u64,
    queue_cap: u64,
    trace_cap: u64,
    full: bool,
    devices: u64,
}

impl Model for Config {
    ghost use Rattle.acc_base.specs.Limits.{Limits, limits_of, IsWithinBounds};

    ghost Value = { Limits };

    ghost view = { λ c. limits_of c.host c.device c.regions c.tickets c.counter_max c.queue_cap c.trace_cap c.full c.devices };

    ghost invariant = { λ c. IsWithinBounds (limits_of c.host c.device c.regions c.tickets c.counter_max c.queue_cap c.trace_cap c.full c.devices) };

    ghost inverse = { λ l. record {
      host = l.host;
      device = l.device;
      regions = l.regions;
      tickets = l.tickets;
      counter_max = l.counter_max;
      queue_cap = l.queue_cap;
      trace_cap = l.trace_cap;
      full = l.full;
      devices = l.devices;
    } };
}

impl Config {
    /// A configuration of these limits, of tables of one device whose traces are counted.
    ///
    /// - `host` and `device`: the sizes of host and device memory in bytes, each a multiple of 16 from 16 to
    ///   67,108,864;
    /// - `regions`: how many data regions may be open at a time, 1 to 65,536;
    /// - `tickets`: how many events there may be in all, 1 to 2^40;
    /// - `counter_max`: the greatest value of a counter, 1 to 4,294,967,295;
    /// - `queue_cap`: how many transfers may wait in one queue, 1 to 4,096;
    /// - `trace_cap`: how many events the stored trace may have, 1 to 16,777,216.
    ///
    /// # Errors
    ///
    /// [`Fault::BadConfig`] exactly where one of the seven is out of its bounds.
    pub fn new(
        host: u64,
        device: u64,
        regions: u64,
        tickets: u64,
        counter_max: u64,
        queue_cap: u64,
        trace_cap: u64,
    ) -> Result<Config, Fault>
        ensures { MatchResult result
            (λ c. (c ≡ limits_of host device regions tickets counter_max queue_cap trace_cap false 1) × IsWithinBounds c)
            (λ e. (e ≡ Fault.BadConfig) × ¬ IsWithinBounds (limits_of host device regions tickets counter_max queue_cap trace_cap false 1)) }
    {
        if is_size(host)
            && is_size(device)
            && is_from_one(regions, 65_536)
            && is_from_one(tickets, 1 << 40)
            && is_from_one(counter_max, 4_294_967_295)
            && is_from_one(queue_cap, 4_096)
            && is_from_one(trace_cap, 16_777_216)
        {
            Ok(Config {
                host,
                device,
                regions,
                tickets,
                counter_max,
                queue_cap,
                trace_cap,
                full: false,
                devices: 1,
            })
        } else {
            Err(Fault::BadConfig)
        }
    }

    /// The same limits, of tables whose traces are full. An event then stores the bytes that its call brought, and a
    /// base the bytes of all memories. A lent block keeps a copy of its bytes. So a base and the events since give all
    /// memories. A counted trace stores none of these.
    pub fn with_full_trace(self) -> Config
        ensures { result ≡ record self { full = true } }
    {
        Config { full: true, ..self }
    }

    /// The same limits, of tables of so many devices, 1 to 4 (OpenACC 3.3, section 3.2, `acc_set_device_num`). Each
    /// device has a memory of the size that the configuration says, and mapped ranges, counters, open regions and
    /// queues of its own. Host memory, the trace and the numbers of regions exist once. The limits of open regions and
    /// of events are those of all devices together.
    ///
    /// # Errors
    ///
    /// [`Fault::BadConfig`] exactly where the number is not from 1 to 4.
    pub fn with_devices(self, devices: u64) -> Result<Config, Fault>
        ensures { MatchResult result
            (λ c. (c ≡ record self { devices = devices }) × IsFromOne 4 devices)
            (λ e. (e ≡ Fault.BadConfig) × ¬ IsFromOne 4 devices) }
    {
        if is_from_one(devices, 4) {
            Ok(Config { devices, ..self })
        } else {
            Err(Fault::BadConfig)
        }
    }

    /// Each limit is within the bounds that [`Config::new`] and [`Config::with_devices`] state, and the limits are
    /// those of the first device. Nothing is done.
    pub fn laws(&self)
        ensures bounds { IsWithinBounds self.now }
        ensures first { self.now.number ≡ 0 }
    {
        let _ = &self.host;
    }

    /// The size of host memory in bytes: a multiple of 16 from 16 to 67,108,864.
    pub fn host(&self) -> u64
        ensures value { result ≡ self.now.host }
        ensures bounds { IsSize result }
    {
        self.host
    }

    /// The size of device memory in bytes: a multiple of 16 from 16 to 67,108,864.
    pub fn device(&self) -> u64
        ensures value { result ≡ self.now.device }
        ensures bounds { IsSize result }
    {
        self.device
    }

    /// How many data regions may be open at a time: 1 to 65,536.
    pub fn regions(&self) -> u64
        ensures value { result ≡ self.now.regions }
        ensures bounds { IsFromOne 65536 result }
    {
        self.regions
    }

    /// How many events there may be in all: 1 to 2^40.
    pub fn tickets(&self) -> u64
        ensures value { result ≡ self.now.tickets }
        ensures bounds { IsFromOne (2 ^ 40) result }
    {
        self.tickets
    }

    /// The greatest value of a reference or attachment counter: 1 to 4,294,967,295.
    pub fn counter_max(&self) -> u64
        ensures value { result ≡ self.now.counter_max }
        ensures bounds { IsFromOne 4294967295 result }
    {
        self.counter_max
    }

    /// How many transfers may wait in one queue: 1 to 4,096.
    pub fn queue_cap(&self) -> u64
        ensures value { result ≡ self.now.queue_cap }
        ensures bounds { IsFromOne 4096 result }
    {
        self.queue_cap
    }

    /// How many events the stored trace may have: 1 to 16,777,216.
    pub fn trace_cap(&self) -> u64
        ensures value { result ≡ self.now.trace_cap }
        ensures bounds { IsFromOne 16777216 result }
    {
        self.trace_cap
    }

    /// Whether traces are full.
    pub fn full(&self) -> bool
        ensures { result ≡ self.now.full }
    {
        self.full
    }

    /// How many devices there are: 1 to 4. Their numbers begin at 0.
    pub fn devices(&self) -> u64
        ensures value { result ≡ self.now.devices }
        ensures bounds { IsFromOne 4 result }
    {
        self.devices
    }
}

/// The number of bytes may be the size of a memory.
fn is_size(bytes: u64) -> bool
    ensures { IsTrue result ↔ IsSize bytes }
{
    16 <= bytes && bytes <= MEMORY_MAX && bytes % 16 == 0
}

/// The number is from 1 to a greatest one.
fn is_from_one(n: u64, most: u64) -> bool
    ensures { IsTrue result ↔ IsFromOne most n }
{
    1 <= n && n <= most
}
