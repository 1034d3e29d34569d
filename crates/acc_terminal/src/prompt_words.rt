//! The words of a prompt that are no statements.

use acc_read::statement_text;

/// What a line at a prompt asks for that is no statement of a script.
#[derive(Clone, Copy)]
pub enum Word<'a> {
    /// To go back to what there was before the last line that changed something.
    Undo,
    /// To keep the lines so far as a file of this name.
    Save(&'a str),
    /// To tell these lines.
    History,
    /// To tell the statements.
    Help,
    /// Nothing: this is one of these words, and how it has to be used.
    Misused(&'a str, &'static str),
}

impl Word<'_> {
    /// What a line asks for before its comment; `None` for a statement.
    pub fn of(line: &[u8]) -> Option<Word<'_>> {
        let text = str::from_utf8(statement_text(line)).ok()?;
        let word = text.split_ascii_whitespace().next()?;
        let rest = text.strip_prefix(word)?.trim();
        match (word, rest) {
            ("undo", "") => Some(Word::Undo),
            ("history", "") => Some(Word::History),
            ("help", "") => Some(Word::Help),
            ("save", "") => Some(Word::Misused(word, "wants a FILE")),
            ("save", _) => Some(Word::Save(rest)),
            ("undo" | "history" | "help", _) => Some(Word::Misused(word, "stands alone")),
            _ => None,
        }
    }
}
