//! What a line of a script says: lines, tokens, arrays and where they lie, clauses, directives, statements. Nothing is
//! run here. Texts made in memory, and the arrays by their addresses, are for those who tell of a line.
//!
//! `specs/` says what a line means, apart from any code. A new statement is one case more in `statements`, and a new
//! clause one more in `grammar`.
#![tactic(auto)]

mod arrays;
mod byte_words;
mod clauses;
mod directives;
mod grammar;
mod items;
mod kept;
mod kernels;
mod lines;
mod names;
mod objects;
mod pages;
mod places;
mod queues;
mod runs;
mod statements;
mod tokens;
mod troubles;
mod writes;

pub use arrays::{Array, Arrays};
pub use byte_words::ByteWord;
pub use items::ItemKind;
pub use kernels::ScriptKernel;
pub use lines::next_line;
pub use names::{Names, Spot};
pub use pages::{Page, make_room};
pub use statements::{Statement, before_comment, is_text_byte, line_at, statement_text};
pub use tokens::{is_blank, is_text, is_word_byte};
pub use troubles::Trouble;
