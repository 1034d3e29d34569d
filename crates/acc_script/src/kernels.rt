//! The kernels of a script, and what runs them.

ghost use Rattle.std.specs.Prelude.{◌≡◌};
ghost use Rattle.acc_lend.specs.Loans.{section, with_section};
ghost use Rattle.acc_script.specs.Kernels.{source_of, kernel_run};

use acc_base::Section;
use acc_lend::{Add, Cuts, Lease, Number, Open, Plus, Pointwise, Xor, run_one, run_parts};
use acc_read::ScriptKernel;
use std::sync::Wait;
use std::thread::Threads;

/// The section of host memory whose bytes a kernel reads: the source of `plus`, and for other kernels an empty one.
pub fn source_of(kernel: ScriptKernel) -> Section
    ensures { result ≡ source_of kernel }
{
    match kernel {
        ScriptKernel::Add(_) | ScriptKernel::Xor(_) | ScriptKernel::Number(_) => {
            Section { start: 0, len: 0 }
        }
        ScriptKernel::Plus(source) => source,
    }
}

/// Runs the kernels of scripts. So what runs a script starts no thread itself.
pub trait KernelRunner {
    /// What has to hold of it, where kernels are run.
    ghost able: { Self → Type 0 } = { λ _. Unit {0} };

    /// Runs a kernel over all the bytes of a loan, with the bytes of its source (OpenACC 3.3, section 2.5, compute
    /// constructs).
    fn run(&self, kernel: ScriptKernel, lease: Lease, src: &[u8]) -> Lease
        requires { able self.now }
        ensures { result ≡ kernel_run kernel lease src.now };
}

/// Runs each kernel in one part. It starts no thread, waits for none, and allocates nothing.
#[derive(Clone, Copy)]
pub struct InOnePart;

impl KernelRunner for InOnePart {
    fn run(&self, kernel: ScriptKernel, mut lease: Lease, src: &[u8]) -> Lease
        ensures { result ≡ kernel_run kernel lease src.now }
    {
        match kernel {
            ScriptKernel::Add(number) => run_one(&mut lease, &Add(number), src),
            ScriptKernel::Xor(number) => run_one(&mut lease, &Xor(number), src),
            ScriptKernel::Number(number) => run_one(&mut lease, &Number(number), src),
            ScriptKernel::Plus(_) => run_one(&mut lease, &Plus, src),
        }
        lease
    }
}

/// Runs each kernel by a call of a closure, as one of [`run_in_threads`]. A method of a trait can start no thread by a
/// bound of its block; a closure may.
#[derive(Drop)]
pub struct ByCall<F>(pub F);

impl<F: Fn(ScriptKernel, Lease, &[u8]) -> Lease> KernelRunner for ByCall<F> {
    ghost able = { λ s. F.IsAlwaysCallable s.0 × ((kernel : _) (lease : _) (src : _) (back : _) → F.post s.0 kernel lease src back → back ≡ kernel_run kernel lease src.now) };

    fn run(&self, kernel: ScriptKernel, lease: Lease, src: &[u8]) -> Lease {
        (self.0)(kernel, lease, src)
    }
}

/// Runs a kernel over all the bytes of a loan, cut into at most `parts` parts, from 1 to 64. They run at the same time,
/// each in a thread of its own. With any other number of parts it is not cut. Where a thread does not start, or there is
/// no memory for the list of the parts, it goes on with fewer.
pub fn run_in_threads<R: Threads + Wait + Sync + AllocGlobal>(
    rt: &R,
    parts: usize,
    kernel: ScriptKernel,
    mut lease: Lease,
    src: &[u8],
) -> Lease
    ensures { result ≡ kernel_run kernel lease src.now }
{
    match kernel {
        ScriptKernel::Add(number) => run_evenly(rt, parts, &Add(number), &mut lease, src),
        ScriptKernel::Xor(number) => run_evenly(rt, parts, &Xor(number), &mut lease, src),
        ScriptKernel::Number(number) => run_evenly(rt, parts, &Number(number), &mut lease, src),
        ScriptKernel::Plus(_) => run_evenly(rt, parts, &Plus, &mut lease, src),
    }
    lease
}

/// Parts of one length run at the same time. Where there is no memory for the list of parts, the kernel runs in one
/// part, so it never fails.
fn run_evenly<R: Threads + Wait + Sync + AllocGlobal, K: Pointwise + Sync>(
    rt: &R,
    parts: usize,
    kernel: &K,
    lease: &mut Lease,
    src: &[u8],
)
    ensures { lease.new ≡ with_section lease.old (K.image kernel.now 0 (section lease.old) src.now) }
{
    match Cuts::even(rt.alloc(), lease.len(), parts) {
        Ok(cuts) => run_parts(rt, lease, &cuts, kernel, src, &Open),
        Err(_) => run_one(lease, kernel, src),
    }
}
