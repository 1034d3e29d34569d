//! Scripts as tests: the files that have them, scripts by chance, what their comments say, what came of them, and how
//! that is told. No test is run here.
#![tactic(auto)]

mod chances;
mod file_stores;
mod machines;
mod notes;
mod random_scripts;
mod random_statements;
mod reports;
mod told_names;
mod trials;

pub use chances::Chance;
pub use file_stores::{Disk, FileFault, FileStore};
pub use machines::{Machine, bytes_of};
pub use notes::{Note, first_words, lines_of, options_in};
pub use random_scripts::random_script;
pub use reports::{BAIL_OUT, Report};
pub use told_names::told_name;
pub use trials::{
    Played, Trial, blessed, compared, expectation, output_name, put_numbers, put_texts,
};
