//! An open data region, as its caller holds it.

ghost use Rattle.std.specs.Prelude.{◌≡◌};
ghost use Rattle.acc_table.specs.declared.calls.Reply.TheVariants.{Entered};
ghost use Rattle.acc_table.specs.Replies.{HasNumber};

use acc_table::Reply;
use std::marker::Model;

/// An open data region (OpenACC 3.3, section 2.6.5, data construct). It has to be spent: by
/// [`Runtime::exit`](crate::Runtime::exit), which closes it, or by [`Region::abandon`].
///
/// Contracts see a region as its number.
pub struct Region {
    number: u64,
}

impl Model for Region {
    ghost use Rattle.std.specs.Prelude.{ℕ};

    ghost Value = { ℕ };

    ghost view = { λ region. region.number };
}

impl Region {
    /// The region that was entered.
    pub(crate) fn of(reply: Reply) -> Region
        requires { HasNumber reply }
        ensures { reply ≡ Entered result }
    {
        match reply {
            Reply::Entered { number } => Region { number },
            Reply::Done | Reply::Drained { count: _ } | Reply::Idle => unreachable!(),
            Reply::Lease(lease) => {
                lease.abandon();
                unreachable!()
            }
        }
    }

    /// The number of the region. Numbers rise from 1, and none is used twice.
    pub fn number(&self) -> u64
        ensures { result ≡ self.now }
    {
        self.number
    }

    /// Lets the region go, which stays open for good.
    pub fn abandon(self) {
        let Region { number: _ } = self;
    }
}
