//! The open data regions that were entered on a device.

ghost use Rattle.std.specs.Prelude.{◌≡◌, MatchOption, None, Some, is_some, length};
ghost use Rattle.acc_base.specs.Register.{holdings_at, newest_region, region_at};

use crate::views::View;
use acc_base::Holding;

impl<'a> View<'a> {
    /// How many data regions are open that were entered on the device.
    pub fn regions(&self) -> u64
        ensures { result ≡ length self.now.state.register.regions }
    {
        self.environment.present.regions()
    }

    /// Of those, the number of the one that was entered last.
    pub fn newest_region(&self) -> Option<u64>
        ensures { result ≡ newest_region self.now.state.register.regions }
    {
        self.environment.present.newest_region()
    }

    /// Whether a region of the number is open on the device.
    pub fn has_region(&self, number: u64) -> bool
        ensures { result ≡ is_some (region_at number self.now.state.register.regions) }
    {
        self.holdings(number).is_some()
    }

    /// What an open region holds, in the written order of its items (OpenACC 3.3, section 2.6.5). `None` exactly where no
    /// region of the number is open.
    pub fn holdings(&self, number: u64) -> Option<&'a [Holding]>
        ensures { MatchOption result (holdings_at number self.now.state.register.regions ≡ None) (λ holdings. holdings_at number self.now.state.register.regions ≡ Some holdings.now) }
    {
        self.environment.present.holdings(number)
    }
}
