//! A source filter by its arguments, and its frames one after another.
ghost use Rattle.std.specs.Prelude.{◌≡◌, ◌∷◌, [], ◌↔◌, IfOk, IfErr, OnErr, Ok, Some, None};
ghost use Rattle.ff_stream.specs.declared.item.Item.{Item};
ghost use Rattle.ff_source.specs.Sources.{CanGive, CanGive-prop};

use crate::made::{Made, made_by};
use ff_frame::{ConfigError, StreamHead};
use ff_lang::{Arg, SourceName};
use ff_stream::Item;
use std::alloc::{AllocError, Global};

/// A source filter, which makes its frames one after another.
#[derive(Drop)]
pub struct GenSource {
    /// What it gives.
    pub made: Made,
    /// How many frames it gave.
    pub given: u64,
    /// Where the memory of its frames comes from.
    pub alloc: Global,
    pub ghost can: { CanGive made } by { CanGive-prop made },
}

impl GenSource {
    ghost use Rattle.ff_source.specs.Sources.{IsSource, head_of, frames_of};
    ghost use Rattle.ff_source.specs.laws.Left.{left};

    /// The source filter of this name by its arguments, and the head of its stream.
    ///
    /// `color` has the options `c` or `color`, `s` or `size`, `r` or `rate`, `d` or `duration`, in this order of places.
    /// The colour is `black` or `white`. The size is WxH, of whole numbers of 1 to 5 digits. The rate is as that of
    /// `fps`. They are `black`, `320x240` and 25 where they aren't given.
    ///
    /// `anullsrc` has the options `cl` or `channel_layout`, `r` or `sample_rate`, `d` or `duration`. The layout is
    /// `mono` or `stereo`, the rate a whole number from 1 to 2^31 - 1. They are `stereo` and 44100 where they aren't given.
    ///
    /// It refuses in this order: `UnknownOption` and `BadOption` by argument, `BadOption` where there is no duration,
    /// `BadSize` where a size is 0 or above 16,384. It takes no memory.
    pub fn configure(
        alloc: Global,
        name: SourceName,
        args: &[Arg],
    ) -> Result<(GenSource, StreamHead), ConfigError>
        ensures made { IfOk result (λ r. IsSource name args.now (Ok r.0.made)) }
        ensures head { IfOk result (λ r. r.1 ≡ head_of r.0.made) }
        ensures all { IfOk result (λ r. left r.0 ≡ frames_of r.0.made) }
        ensures refused { IfErr result (λ e. IsSource name args.now (Err e)) }
    {
        match made_by(name, args) {
            Err(error) => Err(error),
            Ok(made) => {
                let head = made.head();
                let source = GenSource {
                    made,
                    given: 0,
                    alloc,
                };
                Ok((source, head))
            }
        }
    }

    /// The next frame. None exactly where all were given.
    pub fn next(&mut self) -> Result<Option<Item>, AllocError>
        ensures gives { (x : Item) → result ≡ Ok (Some x) → left self.old ≡ x ∷ left self.new }
        ensures over { (result ≡ Ok None) ↔ (left self.old ≡ []) }
        ensures same { self.new.made ≡ self.old.made }
        ensures unchanged { OnErr result (self.new ≡ self.old) }
    {
        if self.given >= self.made.frames() {
            return Ok(None);
        }
        let frame = self.made.frame(self.alloc, self.given)?;
        self.given += 1;
        Ok(Some(frame))
    }
}
