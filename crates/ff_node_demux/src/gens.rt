//! A source without a file: a machine that gives frames which are made.
mod filters;
mod frames;
mod generator;

pub use filters::generator_of;
pub use frames::FrameSource;
pub use generator::Gen;
