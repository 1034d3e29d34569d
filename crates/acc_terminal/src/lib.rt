//! What a person gives to the program, and reads of it: the options of the command line and of a script's first line, a
//! script line by line as it comes, also at a prompt, faults and colours.
#![tactic(auto)]

mod answers;
mod colours;
mod dialogues;
mod fault_lines;
mod histories;
mod line_readers;
mod manners;
mod options;
mod pipes;
mod prompt_words;

pub use colours::are_wanted;
pub use dialogues::run_script;
pub use fault_lines::{put_place, tell, tell_fault};
pub use manners::{Keeper, Terminals};
pub use options::{Options, options_of, parsed_words, with_first_line};
pub use pipes::{Errors, Output};
