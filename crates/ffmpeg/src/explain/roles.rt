//! What each word of a command line is, by the list of options.
use ff_words::{Concern, Kind, OPTIONS};

/// What a word is.
#[derive(Clone, Copy, Debug, PartialEq, Eq)]
pub(crate) enum Role {
    /// An option: whom it concerns, and its kind of value.
    Named(Concern, Kind),
    /// The value of an option of this kind.
    Value(Kind),
    /// The name of an output.
    Output,
    /// It begins with `-`, goes on, and is no option.
    Unknown,
}

// Whether an option of this kind stands without a value.
fn is_bare(kind: Kind) -> bool {
    match kind {
        Kind::Nothing
        | Kind::Keeps
        | Kind::Replaces
        | Kind::NoStats
        | Kind::NoVideo
        | Kind::NoAudio
        | Kind::Shortest
        | Kind::Help
        | Kind::Version => true,
        _ => false,
    }
}

// The option of this name.
fn option_of(word: &str) -> Role {
    for (name, concern, kind) in OPTIONS.iter() {
        if *name == word {
            return Role::Named(*concern, *kind);
        }
    }
    Role::Unknown
}

/// What a word is behind one that is this; the first is behind none.
pub(crate) fn role_behind(before: Option<Role>, word: &str) -> Role {
    if let Some(Role::Named(_, kind)) = before
        && !is_bare(kind)
    {
        return Role::Value(kind);
    }
    match word.as_bytes() {
        [b'-'] => Role::Output,
        [b'-', ..] => option_of(word),
        _ => Role::Output,
    }
}
