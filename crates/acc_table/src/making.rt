//! How a judged directive becomes an event. All growths come before the first change.

ghost use Rattle.std.specs.Prelude.{◌≡◌, ◌+◌, ◌<◌, ◌≤◌, ◌^◌, ◌++◌, ◌∷◌, [], false, length, Ok, vec_len, vec_capacity, option_map, IsOk, IfOk, IfErr, OnOk, OnErr, IfSome};
ghost use Rattle.acc_base.specs.declared.directives.Directive.{Directive};
ghost use Rattle.acc_base.specs.declared.faults.Fault.TheVariants.{Memory};
ghost use Rattle.acc_base.specs.Limits.{recorded};
ghost use Rattle.acc_base.specs.Bytes.{host_after_write};
ghost use Rattle.acc_base.specs.Judge.{few_items, device_named, own_device, plan_of, written};
ghost use Rattle.acc_clauses.specs.Acts.{CanWrite, HasPlanRoom, lens_born};
ghost use Rattle.acc_clauses.specs.Overlays.{dids_in};
ghost use Rattle.acc_clauses.specs.Stored.{AreContentsSound};
ghost use Rattle.acc_clauses.specs.Devices.{SharedContents, HaveRisen, contents_with};
ghost use Rattle.acc_clauses.specs.Planned.{IsPlanOf, in_written_order, state_by};
ghost use Rattle.acc_table.specs.Making.{kind_of, number_told, event_told, reply_told, apart_of, planned_verdict, MayBeToldOf, IsCommitted, IsAsBefore};

use crate::calls::Reply;
use acc_base::{Did, Directive, Event, Fault, List};
use acc_clauses::{Acted, DeviceData, Plan, Shared};
use std::alloc::{AllocError, Global};

/// The number that the event of a directive has from the state before it. It is that of the region that is entered, of
/// the transfers that a wait makes, or of the block that a step's transfer names. It is 0 for all others. `None` where
/// there is nothing to do: in the step of an empty queue.
fn number_told(device: &DeviceData, shared: &Shared, directive: &Directive) -> Option<u64>
    requires { length shared.now.host ≡ device.now.limits.host }
    ensures { result ≡ number_told directive.now (contents_with device.now shared.now).state }
{
    match directive {
        Directive::Enter { .. } => Some(shared.next_region()),
        Directive::Wait { queue, .. } => Some(device.view(shared).waiting(*queue)),
        Directive::Step { queue, .. } => device.view(shared).head_block(*queue),
        _ => Some(0),
    }
}

/// Which directive it is. A kind that was told before a call is known behind it, where what a reference leads to is read
/// anew. So where the caller names the directive, its event and its reply are written without a question.
#[derive(Clone, Copy)]
pub(crate) enum Kind {
    Enter,
    Exit,
    EnterData,
    ExitData,
    Update,
    Wait,
    Step,
}

/// The kind of a directive.
#[inline(always)]
fn kind_of(directive: &Directive) -> Kind
    ensures { result ≡ kind_of directive.now }
{
    match directive {
        Directive::Enter { .. } => Kind::Enter,
        Directive::Exit { .. } => Kind::Exit,
        Directive::EnterData { .. } => Kind::EnterData,
        Directive::ExitData { .. } => Kind::ExitData,
        Directive::Update { .. } => Kind::Update,
        Directive::Wait { .. } => Kind::Wait,
        Directive::Step { .. } => Kind::Step,
    }
}

/// The event of a directive of a kind on a device, with this number and what its items did, in written order.
#[inline(always)]
fn event_told(kind: Kind, device: u64, directive: Directive, number: u64, did: List<Did>) -> Event
    requires { kind ≡ kind_of directive }
    ensures { result ≡ event_told device directive number did }
{
    match (kind, directive) {
        (Kind::Enter, Directive::Enter { items, .. }) => Event::Entered {
            device,
            number,
            items,
            did,
        },
        (Kind::Exit, Directive::Exit { number }) => Event::Left {
            device,
            number,
            did,
        },
        (Kind::EnterData, Directive::EnterData { items, queue, .. }) => Event::EnteredData {
            device,
            items,
            queue,
            did,
        },
        (
            Kind::ExitData,
            Directive::ExitData {
                items,
                finalize,
                queue,
                ..
            },
        ) => Event::ExitedData {
            device,
            items,
            finalize,
            queue,
            did,
        },
        (
            Kind::Update,
            Directive::Update {
                items,
                if_present,
                queue,
                ..
            },
        ) => Event::Updated {
            device,
            items,
            if_present,
            queue,
            did,
        },
        (Kind::Wait, Directive::Wait { queue, .. }) => Event::Waited {
            device,
            queue,
            count: number,
        },
        (Kind::Step, Directive::Step { queue, .. }) => Event::Stepped {
            device,
            queue,
            block: number,
        },
        _ => unreachable!(),
    }
}

/// The reply to a directive of a kind whose event has this number.
fn reply_told(kind: Kind, number: u64) -> Reply
    ensures { (directive : Directive) → kind ≡ kind_of directive → result ≡ reply_told directive number }
{
    match kind {
        Kind::Enter => Reply::Entered { number },
        Kind::Wait => Reply::Drained { count: number },
        _ => Reply::Done,
    }
}

/// Of what the items do, in written order, what stands in memory of its own: all of it, but nothing where that is of one
/// item. On the exit from a region the last item acts first.
pub fn copy_apart(
    alloc: Global,
    directive: &Directive,
    acts: &[Acted],
) -> Result<Vec<Did>, AllocError>
    ensures { IfOk result (λ apart. apart.items ≡ apart_of (in_written_order directive.now (dids_in acts.now))) }
{
    if acts.len() == 1 {
        return Ok(Vec::new(alloc));
    }
    let mut apart = Vec::with_capacity(alloc, acts.len())?;
    for x in acts {
        apart.push_reserved(x.did);
    }
    if let Directive::Exit { .. } = directive {
        apart.reverse();
    }
    Ok(apart)
}

/// The list of what the items do, in written order, of which this stands in memory of its own.
#[inline(always)]
pub fn list_of(directive: &Directive, acts: &[Acted], apart: Vec<Did>) -> List<Did>
    requires { apart.items ≡ apart_of (in_written_order directive.now (dids_in acts.now)) }
    ensures { result ≡ in_written_order directive.now (dids_in acts.now) }
{
    match acts {
        [only] => List::one(only.did),
        _ => List::from_vec(apart),
    }
}

/// Makes room for a planned directive on its device and for its event in the trace. It returns of what the items will do
/// what stands in memory of its own. Where room is refused, no bytes are kept for births, unless some were before.
fn make_room(
    device: &mut DeviceData,
    trace: &mut Vec<Event>,
    directive: &Directive,
    plan: &Plan,
) -> Result<Vec<Did>, Fault>
    requires planned { (s : SharedContents) × let c = contents_with device.old s in AreContentsSound c × IsPlanOf c.limits directive.now c.state plan.now }
    ensures limits { device.new.limits ≡ device.old.limits }
    ensures device { device.new.device ≡ device.old.device }
    ensures trace { trace.new.items ≡ trace.old.items }
    ensures apart { IfOk result (λ apart. apart.items ≡ apart_of (in_written_order directive.now plan.now.dids)) }
    ensures room { OnOk result (HasPlanRoom directive.now plan.now device.new.room) }
    ensures births { OnOk result (device.new.room.births ≡ lens_born plan.now.tasks plan.now.dids) }
    ensures refused { OnErr result (device.old.room.births ≡ [] → device.new.room.births ≡ []) }
    ensures place { OnOk result (vec_len trace.new < vec_capacity trace.new) }
    ensures only { IfErr result (λ fault. fault ≡ Memory) }
{
    let apart = copy_apart(*trace.allocator(), directive, plan.acts())?;
    trace.reserve(1)?;
    device.reserve(directive, plan)?;
    Ok(apart)
}

/// Judges a directive, makes room for it and its event, and does it. It returns the number of the event, and of what
/// the items did what stands in memory of its own; or `None` where there is nothing to do. The event is left to be
/// stored. All this is behind a reference, so that the directive is moved but once: into its event.
///
/// # Errors
///
/// What the device refuses to plan, or [`Fault::Memory`] where there is no such refusal. Nothing changed but room.
#[inline(never)]
fn enact(
    device: &mut DeviceData,
    shared: &mut Shared,
    trace: &mut Vec<Event>,
    plan: &mut Plan,
    directive: &Directive,
) -> Result<Option<(u64, Vec<Did>)>, Fault>
    requires items { few_items directive.now ≡ Ok tt }
    requires own { own_device device.old.limits.number (device_named directive.now) ≡ Ok tt }
    requires sound { AreContentsSound (contents_with device.old shared.old) }
    requires births { device.old.device.records.births + 64 ≤ 2 ^ 48 }
    requires regions { shared.old.numbers.region < 2 ^ 48 }
    ensures judged { let c = contents_with device.old shared.old in OnOk result (plan_of c.limits directive.now c.state ≡ Ok (planned_verdict directive.now plan.new c)) }
    ensures planned { let c = contents_with device.old shared.old in OnOk result (IsPlanOf c.limits directive.now c.state plan.new) }
    ensures number { IfOk result (λ told. option_map (λ t. t.0) told ≡ number_told directive.now (contents_with device.old shared.old).state) }
    ensures apart { IfOk result (λ told. IfSome told (λ t. t.1.items ≡ apart_of (in_written_order directive.now plan.new.dids))) }
    ensures place { IfOk result (λ told. IfSome told (λ _. vec_len trace.new < vec_capacity trace.new)) }
    ensures limits { device.new.limits ≡ device.old.limits }
    ensures state { let c = contents_with device.old shared.old in OnOk result ((contents_with device.new shared.new).state ≡ state_by c.limits.full (planned_verdict directive.now plan.new c) c.state) }
    ensures trace { trace.new.items ≡ trace.old.items }
    ensures refused { let c = contents_with device.old shared.old in IfErr result (MayBeToldOf (plan_of c.limits directive.now c.state)) }
    ensures same { OnErr result ((contents_with device.new shared.new).state ≡ (contents_with device.old shared.old).state) }
    ensures sound { AreContentsSound (contents_with device.new shared.new) }
    ensures risen { HaveRisen shared.old shared.new }
{
    device.plan(shared, directive, plan)?;
    let Some(number) = number_told(device, shared, directive) else {
        return Ok(None);
    };
    let apart = make_room(device, trace, directive, plan)?;
    device.commit(shared, directive, plan);
    Ok(Some((number, apart)))
}

/// Judges a directive, makes room for it, does it and stores its event, and returns the reply.
///
/// # Errors
///
/// What the device refuses to plan, or [`Fault::Memory`] where there is no such refusal. The directive comes back, and
/// nothing changed.
#[inline(always)]
pub fn carry_out(
    device: &mut DeviceData,
    shared: &mut Shared,
    trace: &mut Vec<Event>,
    plan: &mut Plan,
    directive: Directive,
) -> Result<Reply, (Directive, Fault)>
    requires items { few_items directive ≡ Ok tt }
    requires own { own_device device.old.limits.number (device_named directive) ≡ Ok tt }
    requires sound { AreContentsSound (contents_with device.old shared.old) }
    requires births { device.old.device.records.births + 64 ≤ 2 ^ 48 }
    requires regions { shared.old.numbers.region < 2 ^ 48 }
    ensures judged { let c = contents_with device.old shared.old in OnOk result (plan_of c.limits directive c.state ≡ Ok (planned_verdict directive plan.new c)) }
    ensures planned { let c = contents_with device.old shared.old in OnOk result (IsPlanOf c.limits directive c.state plan.new) }
    ensures done { let c = contents_with device.old shared.old in IfOk result (λ reply. IsCommitted (planned_verdict directive plan.new c) reply c (contents_with device.new shared.new) trace.old.items trace.new.items) }
    ensures back { IfErr result (λ back. back.0 ≡ directive) }
    ensures refused { let c = contents_with device.old shared.old in IfErr result (λ back. MayBeToldOf (plan_of c.limits directive c.state) back.1) }
    ensures same { OnErr result (IsAsBefore (contents_with device.old shared.old) (contents_with device.new shared.new) trace.old.items trace.new.items) }
    ensures sound { AreContentsSound (contents_with device.new shared.new) }
    ensures risen { HaveRisen shared.old shared.new }
{
    let kind = kind_of(&directive);
    match enact(device, shared, trace, plan, &directive) {
        Ok(Some((number, apart))) => {
            let reply = reply_told(kind, number);
            let did = list_of(&directive, plan.acts(), apart);
            trace.push_reserved(event_told(kind, device.number(), directive, number, did));
            Ok(reply)
        }
        Ok(None) => Ok(Reply::Idle),
        Err(fault) => Err((directive, fault)),
    }
}

/// What an event stores of these bytes: all of them with full traces, and else none.
pub fn recorded(full: bool, bytes: List<u8>, alloc: Global) -> List<u8>
    ensures { result ≡ recorded full bytes }
{
    if full {
        bytes
    } else {
        List::from_vec(Vec::new(alloc))
    }
}

/// Makes room in the trace for one event more, writes bytes into host memory and stores the event.
///
/// # Errors
///
/// [`Fault::Memory`] alone, where there was no such room. The bytes come back, and nothing changed.
pub fn write_host(
    shared: &mut Shared,
    trace: &mut Vec<Event>,
    full: bool,
    addr: u64,
    bytes: List<u8>,
) -> Result<(), (List<u8>, Fault)>
    requires can { CanWrite (record { start = addr; len = length bytes }) shared.old.host }
    ensures host { OnOk result (shared.new.host ≡ host_after_write addr (length bytes) bytes shared.old.host) }
    ensures numbers { shared.new.numbers ≡ shared.old.numbers }
    ensures risen { HaveRisen shared.old shared.new }
    ensures trace { OnOk result (trace.new.items ≡ trace.old.items ++ written full addr bytes ∷ []) }
    ensures succeeds { vec_len trace.old < vec_capacity trace.old → IsOk result }
    ensures back { IfErr result (λ back. (back.0 ≡ bytes) × (back.1 ≡ Memory)) }
    ensures same { OnErr result (shared.new ≡ shared.old) }
    ensures same_trace { OnErr result (trace.new.items ≡ trace.old.items) }
{
    if trace.reserve(1).is_err() {
        return Err((bytes, Fault::Memory));
    }
    shared.host_write(addr, bytes.as_slice());
    let len = bytes.as_slice().len() as u64;
    let bytes = recorded(full, bytes, *trace.allocator());
    trace.push_reserved(Event::HostWritten { addr, len, bytes });
    Ok(())
}

/// The same of bytes that stay where they are. With full traces the event has a copy of them.
///
/// # Errors
///
/// [`Fault::Memory`] alone, where there was no room for the event or for the copy. Nothing changed.
pub fn copy_to_host(
    shared: &mut Shared,
    trace: &mut Vec<Event>,
    full: bool,
    addr: u64,
    bytes: &[u8],
) -> Result<(), Fault>
    requires can { CanWrite (record { start = addr; len = length bytes.now }) shared.old.host }
    ensures host { OnOk result (shared.new.host ≡ host_after_write addr (length bytes.now) bytes.now shared.old.host) }
    ensures numbers { shared.new.numbers ≡ shared.old.numbers }
    ensures risen { HaveRisen shared.old shared.new }
    ensures trace { OnOk result (trace.new.items ≡ trace.old.items ++ written full addr bytes.now ∷ []) }
    ensures memory { IfErr result (λ fault. fault ≡ Memory) }
    ensures same { OnErr result (shared.new ≡ shared.old) }
    ensures same_trace { OnErr result (trace.new.items ≡ trace.old.items) }
{
    trace.reserve(1)?;
    let alloc = *trace.allocator();
    let kept = if full {
        List::from_slice(alloc, bytes)?
    } else {
        List::from_vec(Vec::new(alloc))
    };
    shared.host_write(addr, bytes);
    trace.push_reserved(Event::HostWritten {
        addr,
        len: bytes.len() as u64,
        bytes: kept,
    });
    Ok(())
}
