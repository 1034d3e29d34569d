//! How the lines of a script are run.

use acc_follow::PictureSink;

/// Which of the program's streams are terminals.
#[derive(Clone, Copy)]
pub struct Terminals {
    /// Standard input: a person types the script.
    pub input: bool,
    /// Standard error: a person reads why a line is at fault.
    pub errors: bool,
}

impl Terminals {
    /// No stream is one.
    pub const NONE: Terminals = Terminals {
        input: false,
        errors: false,
    };
}

/// How the lines of a script are run. Where none of these holds, the script is read whole, and its first fault ends it.
#[derive(Clone, Copy)]
pub struct Manner {
    /// Whether a prompt asks for each line. The words of a prompt are done then.
    pub asks: bool,
    /// Whether an empty line follows what a line prints.
    pub answers: bool,
    /// Whether the script goes on behind a line at fault.
    pub goes_on: bool,
}

impl Manner {
    /// Whether each line is done when it is read.
    pub fn is_live(self) -> bool {
        self.asks || self.answers
    }
}

/// Keeps the pictures of a script, and what is typed, and knows its file.
pub trait Keeper: PictureSink {
    /// The name of the script's file, which stands in front of its faults; `None` for standard input.
    fn file(&self) -> Option<&str>;

    /// Keeps a script that was typed, as a file of this name.
    ///
    /// # Errors
    ///
    /// Why it cannot be kept, in words.
    fn save(&self, name: &str, script: &[u8]) -> Result<(), &'static str>;
}
