//! The classes of characters in the string of a filtergraph.
ghost use Rattle.std.specs.Prelude.{◌≡◌};
ghost use Rattle.ff_lang.specs.Letters.{is_word_byte, is_label_byte, is_blank as is_blank_byte, is_special as is_special_byte, is_escaped as is_escaped_byte};

/// How many letters a name, a key or a label has at most.
pub(super) const LONGEST: usize = 64;

/// Whether it is a letter, a digit or `_`.
#[tactic(auto, unfolding(crate::specs::Letters::is_word_byte))]
pub(super) fn is_word(c: char) -> bool
    ensures { result ≡ is_word_byte c }
{
    (c >= '0' && c <= '9') || (c >= 'A' && c <= 'Z') || (c >= 'a' && c <= 'z') || c == '_'
}

/// Whether it is a letter, a digit, `_`, `:` or `.`.
#[tactic(auto, unfolding(crate::specs::Letters::is_label_byte))]
pub(super) fn is_label(c: char) -> bool
    ensures { result ≡ is_label_byte c }
{
    is_word(c) || c == ':' || c == '.'
}

/// Whether it is a space, a tab or LF.
#[tactic(auto, unfolding(crate::specs::Letters::is_blank))]
pub(super) fn is_blank(c: char) -> bool
    ensures { result ≡ is_blank_byte c }
{
    c == ' ' || c == '\t' || c == '\n'
}

/// Whether it means something in a value: a quote, a backslash, a colon, a comma, a semicolon or a bracket.
#[tactic(auto, unfolding(crate::specs::Letters::is_special))]
pub(super) fn is_special(c: char) -> bool
    ensures { result ≡ is_special_byte c }
{
    c == '\'' || c == '\\' || c == ':' || c == ',' || c == ';' || c == '[' || c == ']'
}

/// Whether a printed value has `\` before it: where it means something there, or is `=`.
#[tactic(auto, unfolding(crate::specs::Letters::is_escaped))]
pub(super) fn is_escaped(c: char) -> bool
    ensures { result ≡ is_escaped_byte c }
{
    is_special(c) || c == '='
}
