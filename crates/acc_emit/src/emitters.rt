//! A script that is being emitted.

use crate::emitting::Origin;
use crate::marks::Marks;
use crate::regions::NestedRegion;
use crate::sheets::Sheet;
use crate::twins::twin_of;
use crate::wanted::Wanted;
use acc_base::{Config, Fault, Section};
use acc_script::Session;
use std::alloc::Global;

/// A script that is being emitted.
#[derive(Drop)]
pub struct Emitter<'a> {
    /// The allocator.
    pub alloc: Global,
    /// What the program is made of.
    pub origin: Origin<'a>,
    /// The twin of the script's own session, whose bytes are others where nothing has filled them.
    pub twin: Box<Session>,
    /// The bytes that are not compared.
    pub marks: Marks,
    /// The text of the program so far.
    pub sheet: Sheet,
    /// The sections of the blocks that the last directive left without bytes.
    pub births: Vec<Section>,
    /// The open regions, the innermost last.
    pub regions: Vec<NestedRegion>,
    /// The output that it has to have.
    pub wanted: Wanted<'a>,
    /// How many bytes the lines so far printed.
    pub printed: usize,
    /// A line was refused, with which the program ends.
    pub is_over: bool,
}

impl<'a> Emitter<'a> {
    /// Returns a new twin of a session of these limits, and an empty program, in the language and with the output that
    /// are asked for.
    ///
    /// # Errors
    ///
    /// [`Fault::Memory`] alone.
    pub fn new(alloc: Global, config: Config, origin: Origin<'a>) -> Result<Emitter<'a>, Fault> {
        let marks = Marks::new(alloc, config.host())?;
        let twin = twin_of(alloc, config)?;
        Ok(Emitter {
            alloc,
            origin,
            twin,
            marks,
            sheet: Sheet::new(alloc, origin.language),
            births: Vec::new(alloc),
            regions: Vec::new(alloc),
            wanted: Wanted::new(origin.output),
            printed: 0,
            is_over: false,
        })
    }
}
