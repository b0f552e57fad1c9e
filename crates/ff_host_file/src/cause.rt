//! Why calls on files failed, for a person to read. No clause speaks of it.
use std::alloc::{AllocError, Global};
use std::io;

/// Why a call on a file failed.
#[derive(Clone, Copy)]
pub enum Cause {
    /// The system said so.
    System(io::Error),
    /// The host itself reads or writes that plain file already.
    InUse,
}

impl From<io::Error> for Cause {
    fn from(error: io::Error) -> Self {
        Cause::System(error)
    }
}

impl Cause {
    /// The cause in words: those of the C library, without the number that stands behind them.
    pub fn text(&self, alloc: Global) -> Result<String, AllocError> {
        match self {
            Cause::System(error) => {
                let text = format!(in alloc; "{error}")?;
                let words = text.as_str().split(" (os error").next().unwrap_or("");
                String::from_str(alloc, words)
            }
            Cause::InUse => String::from_str(
                alloc,
                "it is a file that this command reads or writes already",
            ),
        }
    }
}

/// The causes so far, each with the name of its file.
#[derive(Drop)]
pub struct Causes {
    alloc: Global,
    list: Vec<(String, Cause)>,
}

impl Causes {
    /// None yet.
    pub fn new(alloc: Global) -> Self {
        Causes {
            alloc,
            list: Vec::new(alloc),
        }
    }

    /// One more, if there is one and there is memory for it.
    pub fn note(&mut self, name: &str, cause: Option<Cause>) {
        if let Some(cause) = cause
            && let Ok(name) = String::from_str(self.alloc, name)
        {
            let _ = self.list.push((name, cause));
        }
    }

    /// The first of this name.
    pub fn of(&self, name: &str) -> Option<Cause> {
        for (own, cause) in self.list.iter() {
            if own.as_str() == name {
                return Some(*cause);
            }
        }
        None
    }
}
