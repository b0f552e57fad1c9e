//! The settings of `concat`.

/// The settings of `concat`.
#[derive(Clone, Copy, Debug)]
pub struct ConcatSettings {
    /// How many segments there are.
    pub segments: usize,
    /// Whether each has video.
    pub video: bool,
    /// Whether each has audio.
    pub audio: bool,
    /// How many arguments that give `v` or `a` are still to come.
    pub kinds_left: usize,
    /// How many arguments that give an option are still to come.
    pub left: usize,
}

/// How many segments are asked for, and of what.
#[derive(Clone, Copy, Debug)]
pub struct Asked {
    /// How many segments.
    pub segments: usize,
    /// Whether each has video.
    pub video: bool,
    /// Whether each has audio.
    pub audio: bool,
}
