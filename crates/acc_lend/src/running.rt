//! Kernels over a loan.

ghost use Rattle.std.specs.Prelude.{◌≡◌, length, sum};
ghost use Rattle.std.specs.Thread.{IsSync};
ghost use Rattle.acc_lend.specs.Cuts.{IsCutInto};
ghost use Rattle.acc_lend.specs.Loans.{section, with_section, IsKeptOutside};

use crate::cutting::Cuts;
use crate::gates::Gate;
use crate::kernels::{Kernel, Pointwise};
use crate::leases::Lease;
use std::sync::Wait;
use std::thread::{Threads, join_mut};

/// Runs a kernel once over all the bytes that are lent (OpenACC 3.3, section 2.5, compute constructs), with these bytes
/// to read. No other byte of the block changes. It allocates nothing, and does not wait.
pub fn run_one<K: Kernel>(lease: &mut Lease, kernel: &K, src: &[u8])
    ensures image { section lease.new ≡ K.image kernel.now 0 (section lease.old) src.now }
    ensures outside { IsKeptOutside lease.old lease.new }
    ensures whole { lease.new ≡ with_section lease.old (K.image kernel.now 0 (section lease.old) src.now) }
{
    kernel.run(0, lease.section_mut(), src);
}

/// Runs a kernel over all the bytes that are lent (OpenACC 3.3, section 2.5, compute constructs). They are cut into
/// parts, which are worked on at the same time, each in a thread of its own. The bytes are left as [`run_one`] leaves
/// them, whatever the cuts and the gate are.
///
/// The cuts have as many bytes in all as are lent. A part is a slice of the lease's own bytes, so nothing is copied.
/// The gate is called around each. The call returns when every part has been run, and the gate has let each go. Where a
/// thread cannot be started, parts run one after the other. Nothing is refused, and memory is allocated for threads
/// alone.
pub fn run_parts<R: Threads + Wait + Sync, K: Pointwise + Sync, G: Gate<R> + Sync>(
    rt: &R,
    lease: &mut Lease,
    cuts: &Cuts,
    kernel: &K,
    src: &[u8],
    gate: &G,
)
    requires { sum cuts.now ≡ lease.old.len }
    ensures image { section lease.new ≡ K.image kernel.now 0 (section lease.old) src.now }
    ensures outside { IsKeptOutside lease.old lease.new }
    ensures whole { lease.new ≡ with_section lease.old (K.image kernel.now 0 (section lease.old) src.now) }
{
    let work = Work {
        rt,
        kernel,
        src,
        gate,
    };
    work.run(0, 0, cuts.lengths(), lease.section_mut());
}

// A kernel with what it reads, and the gate around each part.
#[derive(Drop)]
struct Work<'a, R, K, G> {
    rt: &'a R,
    kernel: &'a K,
    src: &'a [u8],
    gate: &'a G,
}

impl<R: Threads + Wait + Sync, K: Pointwise + Sync, G: Gate<R> + Sync> Work<'_, R, K, G> {
    // Runs the kernel over bytes of a loan that are cut into parts of these lengths. The first byte has place `at` in
    // the loan, and the first part the number `first`. Each half of the parts is run in a thread of its own.
    #[cycle(halves)]
    fn run(&self, first: usize, at: usize, lengths: &[usize], bytes: &mut [u8])
        requires { IsCutInto first at lengths.now (length bytes.old) }
        ensures { bytes.new ≡ K.image self.now.kernel.now at bytes.old self.now.src.now }
    {
        if lengths.len() == 1 {
            self.gate.before(self.rt, first);
            self.kernel.run(at, bytes, self.src);
            self.gate.after(self.rt, first);
            return;
        }
        let half = lengths.len() / 2;
        let (low, high) = lengths.split_at(half);
        let middle: usize = low.iter().sum();
        let (front, back) = bytes.split_at_mut(middle);
        let second = first + half;
        let behind = at + middle;
        join_mut(
            self.rt,
            &mut ||
                requires { IsSync R.row × IsSync K.row × IsSync G.row × IsCutInto first at low.now (length front.now) }
                ensures { front.exit.now ≡ K.image self.entry.now.kernel.now at front.entry.now self.entry.now.src.now }
            { self.run(first, at, low, front) },
            &mut ||
                requires { IsSync R.row × IsSync K.row × IsSync G.row × IsCutInto second behind high.now (length back.now) }
                ensures { back.exit.now ≡ K.image self.entry.now.kernel.now behind back.entry.now self.entry.now.src.now }
            { self.run(second, behind, high, back) },
        );
    }
}
