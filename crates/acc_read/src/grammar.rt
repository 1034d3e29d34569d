//! The words of the clauses of each directive.

ghost use Rattle.std.specs.Prelude.{◌≡◌};
ghost use Rattle.acc_read.specs.Grammar.{Grammar, region_grammar, enter_grammar, exit_grammar, update_grammar};

use crate::items::ItemKind;
use crate::tokens::is_text;
use acc_base::{EnterClause, ExitClause, RegionClause, UpdateClause};

/// The clauses of a directive, by their words.
pub trait ScriptClause: Copy {
    /// The words of the clauses, their modifiers, what each lists, the option, and `async`.
    ghost grammar: { Grammar Self };

    /// The clause of a word, where the directive has one.
    fn from_word(word: &[u8]) -> Option<Self>
        ensures { result ≡ grammar.clause_of word.now };

    /// The clause with the modifier of a word, where it has such a one.
    fn with_modifier(self, word: &[u8]) -> Option<Self>
        ensures { result ≡ grammar.modified self word.now };

    /// What the clause lists.
    fn lists(self) -> ItemKind
        ensures { result ≡ grammar.lists self };

    /// The word is the option of the directive, where it has one.
    fn is_option(word: &[u8]) -> bool
        ensures { result ≡ grammar.is_option word.now };

    /// The word is `async`, where the directive has it.
    fn is_async(word: &[u8]) -> bool
        ensures { result ≡ grammar.is_async word.now };
}

impl ScriptClause for RegionClause {
    ghost grammar = { region_grammar };

    fn from_word(word: &[u8]) -> Option<RegionClause> {
        if is_text(word, "copy") {
            Some(RegionClause::Copy)
        } else if is_text(word, "copyin") {
            Some(RegionClause::Copyin)
        } else if is_text(word, "copyout") {
            Some(RegionClause::Copyout { zero: false })
        } else if is_text(word, "create") {
            Some(RegionClause::Create { zero: false })
        } else if is_text(word, "no_create") {
            Some(RegionClause::NoCreate)
        } else if is_text(word, "present") {
            Some(RegionClause::Present)
        } else if is_text(word, "attach") {
            Some(RegionClause::Attach)
        } else {
            None
        }
    }

    fn with_modifier(self, word: &[u8]) -> Option<RegionClause> {
        match self {
            RegionClause::Copyin if is_text(word, "readonly") => Some(RegionClause::Copyin),
            RegionClause::Copyout { .. } if is_text(word, "zero") => {
                Some(RegionClause::Copyout { zero: true })
            }
            RegionClause::Create { .. } if is_text(word, "zero") => {
                Some(RegionClause::Create { zero: true })
            }
            _ => None,
        }
    }

    fn lists(self) -> ItemKind {
        match self {
            RegionClause::Attach => ItemKind::Pointers,
            _ => ItemKind::Items,
        }
    }

    fn is_option(_word: &[u8]) -> bool {
        false
    }

    fn is_async(_word: &[u8]) -> bool {
        false
    }
}

impl ScriptClause for EnterClause {
    ghost grammar = { enter_grammar };

    fn from_word(word: &[u8]) -> Option<EnterClause> {
        if is_text(word, "copyin") {
            Some(EnterClause::Copyin)
        } else if is_text(word, "create") {
            Some(EnterClause::Create { zero: false })
        } else if is_text(word, "attach") {
            Some(EnterClause::Attach)
        } else {
            None
        }
    }

    fn with_modifier(self, word: &[u8]) -> Option<EnterClause> {
        match self {
            EnterClause::Copyin if is_text(word, "readonly") => Some(EnterClause::Copyin),
            EnterClause::Create { .. } if is_text(word, "zero") => {
                Some(EnterClause::Create { zero: true })
            }
            _ => None,
        }
    }

    fn lists(self) -> ItemKind {
        match self {
            EnterClause::Attach => ItemKind::Pointers,
            _ => ItemKind::Items,
        }
    }

    fn is_option(_word: &[u8]) -> bool {
        false
    }

    fn is_async(word: &[u8]) -> bool {
        is_text(word, "async")
    }
}

impl ScriptClause for ExitClause {
    ghost grammar = { exit_grammar };

    fn from_word(word: &[u8]) -> Option<ExitClause> {
        if is_text(word, "copyout") {
            Some(ExitClause::Copyout)
        } else if is_text(word, "delete") {
            Some(ExitClause::Delete)
        } else if is_text(word, "detach") {
            Some(ExitClause::Detach)
        } else {
            None
        }
    }

    fn with_modifier(self, _word: &[u8]) -> Option<ExitClause> {
        None
    }

    fn lists(self) -> ItemKind {
        match self {
            ExitClause::Detach => ItemKind::Pointers,
            _ => ItemKind::Items,
        }
    }

    fn is_option(word: &[u8]) -> bool {
        is_text(word, "finalize")
    }

    fn is_async(word: &[u8]) -> bool {
        is_text(word, "async")
    }
}

impl ScriptClause for UpdateClause {
    ghost grammar = { update_grammar };

    fn from_word(word: &[u8]) -> Option<UpdateClause> {
        if is_text(word, "self") || is_text(word, "host") {
            Some(UpdateClause::ToSelf)
        } else if is_text(word, "device") {
            Some(UpdateClause::ToDevice)
        } else {
            None
        }
    }

    fn with_modifier(self, _word: &[u8]) -> Option<UpdateClause> {
        None
    }

    fn lists(self) -> ItemKind {
        ItemKind::Sections
    }

    fn is_option(word: &[u8]) -> bool {
        is_text(word, "if_present")
    }

    fn is_async(word: &[u8]) -> bool {
        is_text(word, "async")
    }
}
