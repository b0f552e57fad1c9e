//! The names of files that words give.
ghost use Rattle.std.specs.Prelude.{◌≡◌, ◌≤◌, length, option_map, IfOk};
ghost use Rattle.std.specs.List.{prefix_len};
ghost use Rattle.ff_words.specs.Names.{after_file as behind_file, is_scheme_byte as in_scheme, has_scheme as scheme_of};
ghost use Rattle.ff_words.specs.Names.{is_foreign as never_file, file_name as file_named};
ghost use Rattle.ff_words.specs.Names.{input_name as input_named, output_name as output_named, trace_name as trace_named};

// What stands behind `file:`.
fn after_file(word: &str) -> Option<&str>
    ensures { option_map (λ s. s.now) result ≡ behind_file word.now }
{
    word.strip_prefix("file:")
}

fn is_scheme_byte(byte: u8) -> bool
    ensures { result ≡ in_scheme byte }
{
    byte.is_ascii_alphanumeric() || matches!(byte, b'+' | b'-' | b'.')
}

// How many bytes of a scheme it begins with.
fn scheme_len(word: &[u8]) -> usize
    ensures value { result ≡ prefix_len in_scheme word.now }
    ensures within { result ≤ length word.now }
{
    word.iter()
        .take_while(|byte| is_scheme_byte(**byte))
        .count()
}

// Whether it begins with a scheme and `://`.
fn has_scheme(word: &[u8]) -> bool
    ensures { result ≡ scheme_of word.now }
{
    let len = scheme_len(word);
    len > 0 && word[len..].starts_with(b"://")
}

// Whether it says something else than a file.
fn is_foreign(word: &[u8]) -> bool
    ensures { result ≡ never_file word.now }
{
    word.starts_with(b"pipe:") || has_scheme(word)
}

// The name of a file.
fn file_name(word: &str) -> Option<&str>
    ensures { option_map (λ s. s.now) result ≡ file_named word.now }
{
    match after_file(word) {
        Some(name) => Some(name),
        None => {
            if is_foreign(word.as_bytes()) {
                None
            } else {
                Some(word)
            }
        }
    }
}

/// The name of an input.
#[tactic(auto, unfolding(crate::specs::Names::input_name))]
pub(crate) fn input_name(word: &str) -> Option<&str>
    ensures { option_map (λ s. s.now) result ≡ input_named word.now }
{
    if word == "-" || word == "pipe:" || word == "pipe:0" {
        Some("/dev/stdin")
    } else {
        file_name(word)
    }
}

/// The name of an output that is a file.
#[tactic(auto, unfolding(crate::specs::Names::output_name))]
pub(crate) fn output_name(word: &str) -> Option<&str>
    ensures { option_map (λ s. s.now) result ≡ output_named word.now }
{
    if word == "-" || word == "pipe:" || word == "pipe:1" {
        Some("/dev/stdout")
    } else {
        file_name(word)
    }
}

/// The name of a trace.
#[tactic(auto, unfolding(crate::specs::Names::trace_name))]
pub(crate) fn trace_name(word: &str) -> Option<&str>
    ensures { option_map (λ s. s.now) result ≡ trace_named word.now }
{
    if word == "-" { None } else { file_name(word) }
}
