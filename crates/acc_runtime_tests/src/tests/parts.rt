//! Parts of a kernel that work at the same time, or in turn where no thread can be started.

ghost use Rattle.acc_lend.specs.Images.{each_byte, number_image};
ghost use Rattle.acc_lend.specs.ImageLaws.{each_byte-append, length-each_byte};

use crate::tests::gates::Meeting;
use crate::tests::same;
use acc_base::Fault;
use acc_lend::{Cuts, Kernel, Lease, Number, Pointwise, run_parts};
use std::process::Abort;
use std::rt::Clock;
use std::sync::Wait;
use std::sync::atomic::{AtomicU64, Ordering};
use std::thread::Threads;

/// Numbers bytes, and counts them.
#[derive(Drop)]
struct Counting<'a> {
    number: Number,
    count: &'a AtomicU64,
}

impl Kernel for Counting<'_> {
    ghost image = { λ kernel at part src. each_byte (number_image kernel.number.0) at part };

    fn run(&self, at: usize, part: &mut [u8], src: &[u8]) {
        self.number.run(at, part, src);
        self.count.fetch_add(part.len() as u64, Ordering::SeqCst);
    }

    ghost keeps_length = { λ kernel at part src. length-each_byte (number_image kernel.number.0) at part };
}

impl Pointwise for Counting<'_> {
    ghost joined = { λ kernel at first second src. each_byte-append (number_image kernel.number.0) at first second };
}

/// Numbers eight bytes in four parts, where memory for the bytes and for the cuts is not refused.
fn number_eight<R: Threads + Wait + Sync + AllocGlobal + Clock>(
    rt: &R,
    meeting: &Meeting,
) -> Result<(), Fault> {
    let bytes = vec![in rt.alloc(); 0u8; 8]?;
    let cuts = Cuts::even(rt.alloc(), 8, 4)?;
    let mut lease = Lease::of(1, 1, 0, 8, bytes, 0);
    let kernel = Counting {
        number: Number(1),
        count: &meeting.work,
    };
    run_parts(rt, &mut lease, &cuts, &kernel, &[], meeting);
    lease.abandon();
    Ok(())
}

/// Each part does its work while all others are held, and the gate is called around it.
fn number_first<R: Threads + Wait + Sync + AllocGlobal + Clock + Abort>(
    rt: &R,
    first: usize,
) -> Result<(), Fault> {
    let meeting = Meeting::new(Some(first), 4);
    number_eight(rt, &meeting)?;
    same(rt, meeting.took_place(), Some(2));
    Ok(())
}

#[test]
fn any_part_may_be_the_first(rt: HostRuntime) -> Result<(), Fault> {
    for first in 0..4 {
        number_first(&rt, first)?;
    }
    Ok(())
}

/// Each byte is numbered once, also where no thread can be started.
#[test]
fn a_refused_growth_leaves_no_part_out(rt: HostRuntime) -> Result<(), Fault> {
    let meeting = Meeting::new(None, 4);
    if number_eight(&rt, &meeting).is_err() {
        number_eight(&rt, &meeting)?;
    }
    same(&rt, meeting.work.load(Ordering::SeqCst), 8);
    Ok(())
}
