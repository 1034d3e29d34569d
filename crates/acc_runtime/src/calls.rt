//! The ten calls that make events, as the table behind the lock and a runtime both make them.

ghost use Rattle.std.specs.Prelude.{◌≡◌};
ghost use Rattle.acc_base.specs.declared.calls.Call.TheVariants.{Do, HostWrite, Lend};
ghost use Rattle.acc_base.specs.declared.directives.Directive.TheVariants.{Enter, Exit, EnterData, ExitData, Update, Wait, Step};

use crate::regions::Region;
use acc_base::{
    Directive, EnterClause, ExitClause, Item, List, RegionClause, Section, UpdateClause,
};
use acc_lend::Lease;
use acc_table::Call;

pub(crate) fn enter(device: u64, items: Vec<Item<RegionClause>>) -> Call
    ensures { result ≡ Do (Enter device items.items) }
{
    let items = List::from_vec(items);
    Call::Do(Directive::Enter { device, items })
}

pub(crate) fn exit(region: &Region) -> Call
    ensures { result ≡ Do (Exit region.now) }
{
    let number = region.number();
    Call::Do(Directive::Exit { number })
}

pub(crate) fn enter_data(device: u64, items: Vec<Item<EnterClause>>, queue: Option<u64>) -> Call
    ensures { result ≡ Do (EnterData device items.items queue) }
{
    let items = List::from_vec(items);
    Call::Do(Directive::EnterData {
        device,
        items,
        queue,
    })
}

pub(crate) fn exit_data(
    device: u64,
    items: Vec<Item<ExitClause>>,
    finalize: bool,
    queue: Option<u64>,
) -> Call
    ensures { result ≡ Do (ExitData device items.items finalize queue) }
{
    let items = List::from_vec(items);
    Call::Do(Directive::ExitData {
        device,
        items,
        finalize,
        queue,
    })
}

pub(crate) fn update(
    device: u64,
    items: Vec<Item<UpdateClause>>,
    if_present: bool,
    queue: Option<u64>,
) -> Call
    ensures { result ≡ Do (Update device items.items if_present queue) }
{
    let items = List::from_vec(items);
    Call::Do(Directive::Update {
        device,
        items,
        if_present,
        queue,
    })
}

pub(crate) fn wait(device: u64, queue: Option<u64>) -> Call
    ensures { result ≡ Do (Wait device queue) }
{
    Call::Do(Directive::Wait { device, queue })
}

pub(crate) fn step(device: u64, queue: u64) -> Call
    ensures { result ≡ Do (Step device queue) }
{
    Call::Do(Directive::Step { device, queue })
}

pub(crate) fn host_write(addr: u64, bytes: Vec<u8>) -> Call
    ensures { result ≡ HostWrite addr bytes.items }
{
    let bytes = List::from_vec(bytes);
    Call::HostWrite { addr, bytes }
}

pub(crate) fn lend(region: &Region, section: Section) -> Call
    ensures { result ≡ Lend region.now section }
{
    let region = region.number();
    Call::Lend { region, section }
}
