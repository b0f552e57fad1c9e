//! What source filters give.
ghost use Rattle.std.specs.Prelude.{◌≡◌, ◌<◌, IfOk};
ghost use Rattle.ff_source.specs.ColorOptions.{IsColor};
ghost use Rattle.ff_source.specs.SilenceOptions.{IsSilence};
ghost use Rattle.ff_source.specs.Sources.{CanGive, IsSource, head_of, count_of, frame_of};

use crate::color::Pictures;
use crate::color_options::{ColorSettings, make_color};
use crate::silence::Silence;
use crate::silence_options::{SilenceSettings, make_silence};
use ff_filter::read_args;
use ff_frame::{ConfigError, StreamHead};
use ff_lang::{Arg, SourceName};
use ff_stream::Item;
use std::alloc::{AllocError, Global};

/// What a source filter gives.
#[derive(Clone, Copy, Debug)]
pub enum Made {
    /// Pictures of one colour.
    Pictures(Pictures),
    /// Silence.
    Silence(Silence),
}

impl Made {
    /// The head of its stream.
    pub fn head(&self) -> StreamHead
        ensures { result ≡ head_of self.now }
    {
        match self {
            Made::Pictures(pictures) => pictures.head(),
            Made::Silence(silence) => silence.head(),
        }
    }

    /// How many frames it has.
    pub(crate) fn frames(&self) -> u64
        ensures { result ≡ count_of self.now }
    {
        match self {
            Made::Pictures(pictures) => pictures.count,
            Made::Silence(silence) => silence.frames(),
        }
    }

    /// The frame of this number.
    pub(crate) fn frame(&self, alloc: Global, number: u64) -> Result<Item, AllocError>
        requires can { CanGive self.now }
        requires there { number < count_of self.now }
        ensures { IfOk result (λ item. item ≡ frame_of self.now number) }
    {
        match self {
            Made::Pictures(pictures) => pictures.frame(alloc, number),
            Made::Silence(silence) => silence.frame(alloc, number),
        }
    }
}

// The pictures that arguments make.
fn color_by(args: &[Arg]) -> Result<Made, ConfigError>
    ensures { IsColor args.now result }
{
    match read_args(ColorSettings::new(), args) {
        Err(error) => Err(error),
        Ok(settings) => make_color(&settings, settings.duration),
    }
}

// The silence that arguments make.
fn silence_by(args: &[Arg]) -> Result<Made, ConfigError>
    ensures { IsSilence args.now result }
{
    match read_args(SilenceSettings::new(), args) {
        Err(error) => Err(error),
        Ok(settings) => make_silence(&settings, settings.duration),
    }
}

// What the arguments of either source filter make.
fn either_by(name: SourceName, args: &[Arg]) -> Result<Made, ConfigError>
    ensures { IsSource name args.now result }
{
    match name {
        SourceName::Color => color_by(args),
        SourceName::ANullSrc => silence_by(args),
    }
}

/// What the arguments of a source filter make, or why they are refused. It takes no memory.
pub fn made_by(name: SourceName, args: &[Arg]) -> Result<Made, ConfigError>
    ensures is { IsSource name args.now result }
    ensures can { IfOk result CanGive }
{
    either_by(name, args)
}
