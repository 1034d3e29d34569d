//! A directive is judged, and not carried out.

ghost use Rattle.std.specs.Prelude.{◌≡◌, IfOk, IfErr};
ghost use Rattle.acc_base.specs.declared.calls.Call.TheVariants.{Do};
ghost use Rattle.acc_base.specs.declared.faults.Fault.TheVariants.{Memory};
ghost use Rattle.acc_base.specs.Calls.{judge};
ghost use Rattle.acc_clauses.specs.Planned.{in_written_order};
ghost use Rattle.acc_table.specs.Foreseen.{test_of, AreForeseen};

use crate::making::{copy_apart, list_of};
use crate::tables::Table;
use acc_base::{Did, Directive, Fault, List};
use acc_clauses::Plan;
use std::alloc::Global;

/// What each item of a planned directive does, in written order.
fn dids_of(alloc: Global, directive: &Directive, plan: &Plan) -> Result<List<Did>, Fault>
    ensures ok { IfOk result (λ did. did ≡ in_written_order directive.now plan.now.dids) }
    ensures only { IfErr result (λ fault. fault ≡ Memory) }
{
    let apart = copy_apart(alloc, directive, plan.acts())?;
    Ok(list_of(directive, plan.acts(), apart))
}

impl Table {
    /// Judges a directive, and does not carry it out. It is no event, allocates nothing, and changes nothing.
    ///
    /// # Errors
    ///
    /// That of [`Table::apply`] for this directive (OpenACC 3.3, sections 2.6.5, 2.6.6 and 2.16, and the update and wait
    /// directives), but never [`Fault::Memory`].
    #[tactic(auto, using(crate::proofs::Foretold::judged_before))]
    pub fn judge(&mut self, directive: &Directive) -> Result<(), Fault>
        ensures judged { result ≡ test_of (judge self.old (Do directive.now)) }
        ensures same { self.new ≡ self.old }
    {
        let device = self.admit(directive)?;
        let data = &mut *self.data;
        let devices = &data.devices;
        devices.each[device as usize].plan(&devices.shared, directive, &mut data.plan)
    }

    /// What each item of a directive would do, in written order, as its event would say; nothing where it has no items.
    /// It is no event, and changes nothing. It allocates for the result alone, where that is not of one item.
    ///
    /// # Errors
    ///
    /// That of [`Table::judge`], or [`Fault::Memory`] where there is none.
    #[tactic(auto, using(crate::proofs::Foretold::judged_before))]
    pub fn foresee(&mut self, directive: &Directive) -> Result<List<Did>, Fault>
        ensures foreseen { AreForeseen (judge self.old (Do directive.now)) result }
        ensures same { self.new ≡ self.old }
    {
        let device = self.admit(directive)?;
        let data = &mut *self.data;
        let devices = &data.devices;
        let plan = &mut *data.plan;
        devices.each[device as usize].plan(&devices.shared, directive, plan)?;
        dids_of(*data.trace.allocator(), directive, plan)
    }
}
