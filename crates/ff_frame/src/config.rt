//! The reasons why a filter refuses its configuration.

/// Why a filter refuses its arguments or its inputs.
#[derive(Clone, Copy, Debug, PartialEq, Eq)]
pub enum ConfigError {
    /// No filter has this name.
    UnknownFilter,
    /// The filter has no option of this name.
    UnknownOption,
    /// An option has a value that it doesn't take.
    BadOption,
    /// An input is audio where video is wanted, or the reverse.
    Kind,
    /// Too few inputs or outputs, or too many.
    Pads,
    /// Inputs that have to be alike differ.
    Mismatch,
    /// A video frame would be too small or too large, or lie outside the one that it is cut from.
    BadSize,
    /// There was no memory.
    NoMemory,
}
