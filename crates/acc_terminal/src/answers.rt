//! What a line prints when it is run by itself.

ghost use Rattle.std.specs.Prelude.{◌≡◌, ◌||◌, codes, false};
ghost use Rattle.acc_script.specs.Runs.{LineRuns, Printed};
ghost use Rattle.acc_script.specs.Sessions.{session_state};

use acc_base::Fault;
use acc_follow::{Copier, RunSink, Setting, Views};
use acc_read::ScriptKernel;
use acc_script::{
    ByCall, KernelRunner, Lease, Session, Sink, Watcher, run_in_threads, run_line, write_all,
};
use std::alloc::Global;
use std::sync::Wait;
use std::thread::Threads;

/// Runs the line of a number as [`run_line`] does, with kernels in threads. Views may show its statement before what it
/// prints, or that as JSON.
///
/// # Errors
///
/// Those of [`run_line`], and [`Fault::Memory`] where there is none for what is shown.
pub fn run_shown<R: Threads + Wait + Sync + AllocGlobal, O: Sink, X: Watcher<O>>(
    rt: &R,
    setting: Setting,
    number: u64,
    session: &mut Session,
    line: &[u8],
    out: &mut O,
    watcher: &mut X,
) -> Result<bool, Fault>
    ensures plain { (setting.views.echo || setting.views.json) ≡ false → LineRuns number (session_state session.old) line.now (O.told out.old) (O.told out.new) (session_state session.new) result }
{
    let Setting { parts, views, .. } = setting;
    let kernels = ByCall(move |kernel: ScriptKernel, lease: Lease, src: &[u8]| {
        run_in_threads(rt, parts, kernel, lease, src)
    });
    if views.echo | views.json {
        return run_copied(
            rt.alloc(),
            &kernels,
            views,
            number,
            session,
            line,
            out,
            watcher,
        );
    }
    run_line(&kernels, number, session, line, out, watcher)
}

/// Runs the line of a number, and copies what it prints.
fn run_copied<K: KernelRunner, O: Sink, X: Watcher<O>>(
    alloc: Global,
    kernels: &K,
    views: Views,
    number: u64,
    session: &mut Session,
    line: &[u8],
    out: &mut O,
    watcher: &mut X,
) -> Result<bool, Fault>
    requires { K.able kernels.now }
{
    let mut printed = RunSink::new(alloc, views);
    let mut lines = Vec::new(alloc);
    let mut copier = Copier::new(alloc, views, out, watcher, &mut lines);
    let ending = run_line(kernels, number, session, line, &mut printed, &mut copier);
    copier.ended(ending)
}

/// Writes the empty line that ends an answer.
///
/// # Errors
///
/// [`Fault::Write`].
pub fn end_answer<O: Sink>(out: &mut O) -> Result<(), Fault>
    ensures { Printed (O.told out.old) (O.told out.new) (codes "\n") result }
{
    if write_all(out, b"\n") {
        Ok(())
    } else {
        Err(Fault::Write)
    }
}
