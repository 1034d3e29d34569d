//! Where pictures go.

use acc_base::Fault;

/// When a picture was made.
#[derive(Clone, Copy)]
pub enum Frame {
    /// At the end of the script.
    Last,
    /// Behind the line of a number.
    Line(u64),
    /// Behind each line: the page that shows the script step by step.
    Each,
}

/// Keeps pictures.
pub trait PictureSink {
    /// Keeps a picture, the bytes of a file of SVG; those of a file of HTML for the page.
    ///
    /// # Errors
    ///
    /// [`Stop::Picture`] where the picture cannot be kept; [`Fault::Memory`] where there is no memory for its name.
    fn keep(&self, frame: Frame, picture: &[u8]) -> Result<(), Stop>;
}

/// Why a script that is followed ended early.
#[derive(Clone, Copy)]
pub enum Stop {
    /// A fault of the run.
    Fault(Fault),
    /// A picture could not be kept.
    Picture(Unkept),
}

/// A picture that could not be kept.
#[derive(Clone, Copy)]
pub struct Unkept {
    /// When it was made.
    pub frame: Frame,
    /// Why, in words.
    pub reason: &'static str,
}

impl From<Fault> for Stop {
    fn from(fault: Fault) -> Self {
        Stop::Fault(fault)
    }
}
