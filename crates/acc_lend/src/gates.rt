//! What is called around each part of a kernel's work.

/// What is called in the thread of each part, around the kernel's work on it. Parts are numbered from 0.
///
/// Tests make parts wait for one another by it. No clause says anything of a gate, and what a kernel leaves does not
/// depend on it.
pub trait Gate<R> {
    /// Called before the kernel works on part `n`.
    fn before(&self, rt: &R, n: usize);

    /// Called after the kernel has worked on part `n`.
    fn after(&self, rt: &R, n: usize);
}

/// The gate that lets each part pass.
#[derive(Clone, Copy, Debug)]
pub struct Open;

impl<R> Gate<R> for Open {
    fn before(&self, _rt: &R, _n: usize) {}

    fn after(&self, _rt: &R, _n: usize) {}
}
