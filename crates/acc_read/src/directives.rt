//! The directives of a script, and which device they are for.

ghost use Rattle.acc_read.specs.Statements.{data_at, end_at, enter_at, exit_at, update_at, wait_at, step_at, select_at};
ghost use Rattle.acc_read.specs.Meanings.{Says};

use crate::arrays::Arrays;
use crate::clauses::clauses_at;
use crate::queues::last_enclosed_at;
use crate::statements::Statement;
use crate::tokens::{is_at_end, keyword_at};
use crate::troubles::Trouble;
use acc_base::{Directive, ScriptFault};
use std::alloc::Global;

/// The start of a `data` construct on a device (OpenACC 3.3, section 2.6.5).
#[tactic(auto, unfolding(crate::specs::Statements::data_at), using(crate::proofs::Wanting::data_wants))]
pub fn data_at(
    alloc: Global,
    arrays: &Arrays,
    device: u64,
    text: &[u8],
) -> Result<Statement<'static>, Trouble>
    ensures { Says result (data_at arrays.now device text.now) }
{
    let items = clauses_at(alloc, arrays, text)?.items;
    Ok(Statement::Direct(Directive::Enter { device, items }))
}

/// The end of the `data` construct whose region is the innermost open one.
///
/// # Errors
///
/// `NoOpenRegion` where none is open, behind all other faults.
#[tactic(auto, unfolding(crate::specs::Statements::end_at))]
pub fn end_at(innermost: Option<u64>, text: &[u8]) -> Result<Statement<'static>, Trouble>
    ensures { Says result (end_at innermost text.now) }
{
    let rest = keyword_at("data", text)?;
    if !is_at_end(rest) {
        return Err(Trouble::Line(ScriptFault::Syntax));
    }
    let number = innermost.ok_or(ScriptFault::NoOpenRegion)?;
    Ok(Statement::Direct(Directive::Exit { number }))
}

/// The `enter data` directive, on a device (OpenACC 3.3, section 2.6.6).
#[tactic(auto, unfolding(crate::specs::Statements::enter_at), using(crate::proofs::Wanting::enter_wants))]
pub fn enter_at(
    alloc: Global,
    arrays: &Arrays,
    device: u64,
    text: &[u8],
) -> Result<Statement<'static>, Trouble>
    ensures { Says result (enter_at arrays.now device text.now) }
{
    let rest = keyword_at("data", text)?;
    let clauses = clauses_at(alloc, arrays, rest)?;
    Ok(Statement::Direct(Directive::EnterData {
        device,
        queue: clauses.queue,
        items: clauses.items,
    }))
}

/// The `exit data` directive, on a device (OpenACC 3.3, section 2.6.6).
#[tactic(auto, unfolding(crate::specs::Statements::exit_at), using(crate::proofs::Wanting::exit_wants))]
pub fn exit_at(
    alloc: Global,
    arrays: &Arrays,
    device: u64,
    text: &[u8],
) -> Result<Statement<'static>, Trouble>
    ensures { Says result (exit_at arrays.now device text.now) }
{
    let rest = keyword_at("data", text)?;
    let clauses = clauses_at(alloc, arrays, rest)?;
    Ok(Statement::Direct(Directive::ExitData {
        device,
        finalize: clauses.has_option,
        queue: clauses.queue,
        items: clauses.items,
    }))
}

/// The `update` directive, on a device (OpenACC 3.3, the update directive).
#[tactic(auto, unfolding(crate::specs::Statements::update_at), using(crate::proofs::Wanting::update_wants))]
pub fn update_at(
    alloc: Global,
    arrays: &Arrays,
    device: u64,
    text: &[u8],
) -> Result<Statement<'static>, Trouble>
    ensures { Says result (update_at arrays.now device text.now) }
{
    let clauses = clauses_at(alloc, arrays, text)?;
    Ok(Statement::Direct(Directive::Update {
        device,
        if_present: clauses.has_option,
        queue: clauses.queue,
        items: clauses.items,
    }))
}

/// The `wait` directive, of one queue of a device or of all (OpenACC 3.3, the wait directive).
#[tactic(auto, unfolding(crate::specs::Statements::wait_at, crate::specs::Statements::wait_one_at))]
pub fn wait_at(device: u64, text: &[u8]) -> Result<Statement<'static>, Trouble>
    ensures { Says result (wait_at device text.now) }
{
    if is_at_end(text) {
        return Ok(Statement::Direct(Directive::Wait {
            device,
            queue: None,
        }));
    }
    let queue = Some(last_enclosed_at(text)?);
    Ok(Statement::Direct(Directive::Wait { device, queue }))
}

/// The step of a queue of a device, which is no directive of OpenACC (section 2.16).
#[tactic(auto, unfolding(crate::specs::Statements::step_at))]
pub fn step_at(device: u64, text: &[u8]) -> Result<Statement<'static>, Trouble>
    ensures { Says result (step_at device text.now) }
{
    let queue = last_enclosed_at(text)?;
    Ok(Statement::Direct(Directive::Step { device, queue }))
}

/// The `set` directive, which chooses the device that later lines are for (OpenACC 3.3, the set directive).
#[tactic(auto, unfolding(crate::specs::Statements::select_at))]
pub fn select_at(text: &[u8]) -> Result<Statement<'static>, Trouble>
    ensures { Says result (select_at text.now) }
{
    let rest = keyword_at("device_num", text)?;
    let device = last_enclosed_at(rest)?;
    Ok(Statement::Select(device))
}
