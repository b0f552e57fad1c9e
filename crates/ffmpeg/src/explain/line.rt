//! A command line, word by word.
use crate::explain::roles::{Role, role_behind};
use ff_format::FORMATS;
use ff_words::Kind;
use std::alloc::{AllocError, Global};

/// The words of a command line, and what each of them is.
#[derive(Drop)]
pub(crate) struct CommandLine<'a> {
    words: &'a [String],
    roles: Vec<Role>,
}

/// A file of a command line: where the first of its options may stand, and where its name stands.
#[derive(Clone, Copy, Debug, PartialEq, Eq)]
pub(crate) struct FilePlace {
    /// The place behind the file before.
    pub(crate) first: usize,
    /// The place of its name.
    pub(crate) name: usize,
}

// Whether an output of the format of this name is a file.
fn is_file_format(name: &str) -> bool {
    for (own, _ending, format, _read, _written) in FORMATS.iter() {
        if *own == name {
            return format.has_file();
        }
    }
    true
}

impl<'a> CommandLine<'a> {
    /// The words, of which each is looked at.
    pub(crate) fn new(alloc: Global, words: &'a [String]) -> Result<CommandLine<'a>, AllocError> {
        let mut roles = Vec::new(alloc);
        let mut before = None;
        for word in words.iter() {
            let role = role_behind(before, word.as_str());
            roles.push(role)?;
            before = Some(role);
        }
        Ok(CommandLine { words, roles })
    }

    /// The word at a place; the empty string behind the last.
    pub(crate) fn word(&self, place: usize) -> &'a str {
        match self.words.get(place) {
            Some(word) => word.as_str(),
            None => "",
        }
    }

    /// The name of the file that the word at a place stands for.
    pub(crate) fn named(&self, place: usize) -> &'a str {
        let word = self.word(place);
        let name = word.strip_prefix("file:").unwrap_or(word);
        match self.role(place) {
            Some(Role::Value(Kind::Input)) => match word {
                "-" | "pipe:" | "pipe:0" => "/dev/stdin",
                _ => name,
            },
            Some(Role::Output) => match word {
                "-" | "pipe:" | "pipe:1" => "/dev/stdout",
                _ => name,
            },
            _ => name,
        }
    }

    /// What the word at a place is.
    pub(crate) fn role(&self, place: usize) -> Option<Role> {
        self.roles.get(place).copied()
    }

    /// The name at a place, where it is that of an output that is a file.
    pub(crate) fn output_at(&self, place: usize) -> Option<&'a str> {
        if self.role(place) != Some(Role::Output) || self.goes_nowhere(place) {
            return None;
        }
        Some(self.named(place))
    }

    /// Whether files that are there are kept: the last of `-n` and `-y` counts.
    pub(crate) fn keeps_files(&self) -> bool {
        let mut keeps = false;
        for role in self.roles.iter() {
            match role {
                Role::Named(_, Kind::Keeps) => keeps = true,
                Role::Named(_, Kind::Replaces) => keeps = false,
                _ => {}
            }
        }
        keeps
    }

    /// The option whose value stands at a place.
    pub(crate) fn option_of(&self, place: usize) -> &'a str {
        self.word(place.saturating_sub(1))
    }

    /// The value of this number, from 0, of all that options of this kind have.
    pub(crate) fn value(&self, kind: Kind, number: u32) -> Option<&'a str> {
        let all = FilePlace {
            first: 0,
            name: self.words.len(),
        };
        self.own_value(all, kind, number)
    }

    /// The value of this number, from 0, that options of this kind have before the name of a file and for it.
    pub(crate) fn own_value(&self, file: FilePlace, kind: Kind, number: u32) -> Option<&'a str> {
        let mut left = number;
        for place in file.first..file.name {
            if self.role(place) != Some(Role::Value(kind)) {
                continue;
            }
            if left == 0 {
                return Some(self.word(place));
            }
            left -= 1;
        }
        None
    }

    /// The last such value, which counts where they don't add up.
    pub(crate) fn last_value(&self, file: FilePlace, kind: Kind) -> Option<&'a str> {
        let mut last = None;
        for place in file.first..file.name {
            if self.role(place) == Some(Role::Value(kind)) {
                last = Some(self.word(place));
            }
        }
        last
    }

    /// The input of this number.
    pub(crate) fn input(&self, number: u32) -> Option<FilePlace> {
        self.file(Role::Value(Kind::Input), number)
    }

    /// The output of this number.
    pub(crate) fn output(&self, number: u32) -> Option<FilePlace> {
        self.file(Role::Output, number)
    }

    /// A name that is written, and that stands for another file as well.
    pub(crate) fn repeated(&self) -> Option<&'a str> {
        for (place, role) in self.roles.iter().enumerate() {
            let is_written = *role == Role::Output || *role == Role::Value(Kind::Trace);
            if is_written && !self.goes_nowhere(place) && self.is_named_elsewhere(place) {
                return Some(self.word(place));
            }
        }
        None
    }

    // Whether a word is the name of an output that goes nowhere: the last format before it says so.
    fn goes_nowhere(&self, place: usize) -> bool {
        if self.role(place) != Some(Role::Output) {
            return false;
        }
        let mut has_file = true;
        for (at, role) in self.roles.iter().enumerate() {
            if at >= place {
                return !has_file;
            }
            if *role == Role::Output || *role == Role::Value(Kind::Input) {
                has_file = true;
            }
            if *role == Role::Value(Kind::Format) {
                has_file = is_file_format(self.word(at));
            }
        }
        !has_file
    }

    // Whether another word is the name of a file, and the same.
    fn is_named_elsewhere(&self, place: usize) -> bool {
        for (other, role) in self.roles.iter().enumerate() {
            let is_name = match role {
                Role::Output | Role::Value(Kind::Input) | Role::Value(Kind::Trace) => true,
                _ => false,
            };
            if is_name
                && other != place
                && !self.goes_nowhere(other)
                && self.named(other) == self.named(place)
            {
                return true;
            }
        }
        false
    }

    // The file of this number among those whose names are this.
    fn file(&self, sort: Role, number: u32) -> Option<FilePlace> {
        let mut first = 0;
        let mut left = number;
        for (name, role) in self.roles.iter().enumerate() {
            if *role == sort {
                if left == 0 {
                    return Some(FilePlace { first, name });
                }
                left -= 1;
            }
            if *role == Role::Output || *role == Role::Value(Kind::Input) {
                first = name.saturating_add(1);
            }
        }
        None
    }
}
