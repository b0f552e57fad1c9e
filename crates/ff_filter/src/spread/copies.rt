//! The copies of a stream that `split` and `asplit` give.
ghost use Rattle.std.specs.Prelude.{◌≡◌, IfOk, IfErr, replicate};
ghost use Rattle.ff_stream.specs.declared.item.Lane.TheVariants.{Frames};
ghost use Rattle.ff_frame.specs.declared.config.ConfigError.TheVariants.{NoMemory};
ghost use Rattle.ff_filter.specs.spread.Splits.{split_view};

use crate::spread::share::Share;
use crate::spread::spreader::Spreader;
use crate::{Filter, Settings};
use ff_frame::{ConfigError, StreamHead};
use ff_stream::Item;
use ff_time::read_number;
use std::alloc::{AllocError, Global};

/// Gives each output the whole stream.
#[derive(Drop)]
pub struct Copies {
    /// The head of the input and of each output.
    pub head: StreamHead,
    /// How many outputs there are.
    pub outputs: usize,
    /// Where the memory of the copies comes from.
    pub alloc: Global,
}

impl Share for Copies {
    ghost lane_in = { λ m. Frames m.head };

    ghost lanes_out = { λ m. replicate m.outputs (Frames m.head) };

    ghost shared = { λ m q x. x };

    fn copy(&self, _port: usize, item: &Item) -> Result<Item, AllocError> {
        item.try_copy(self.alloc)
    }

    fn turn(&self, _port: usize, item: Item) -> Item {
        item
    }

    ghost goes_on = { λ m q x c. c };
}

/// The settings of `split` and `asplit`.
#[derive(Clone, Copy, Debug)]
pub struct SplitSettings {
    /// How many outputs there are.
    pub outputs: usize,
}

impl Settings for SplitSettings {
    ghost use Rattle.ff_filter.specs.spread.Splits.{split_manual};

    ghost manual = { split_manual };

    fn option(key: &str) -> Option<usize> {
        if key == "outputs" { Some(0) } else { None }
    }

    fn places() -> usize {
        1
    }

    fn set(self, _option: usize, value: &str) -> Option<SplitSettings> {
        match read_number(value, 5) {
            None => None,
            Some(number) => {
                if number < 1 || number > 16 {
                    return None;
                }
                Some(SplitSettings {
                    outputs: number as usize,
                })
            }
        }
    }
}

/// So many times the same head.
pub fn same_heads(
    alloc: Global,
    head: &StreamHead,
    count: usize,
) -> Result<Vec<StreamHead>, AllocError>
    ensures { IfOk result (λ heads. heads.items ≡ replicate count head.now) }
{
    let mut heads = Vec::with_capacity(alloc, count)?;
    'heads: for i in 0..count {
        heads.push_reserved(*head);
    }
    Ok(heads)
}

/// The machine that gives each of so many outputs the whole stream, and the heads of these. `NoMemory` where there was none.
pub fn copies_of(
    alloc: Global,
    head: &StreamHead,
    outputs: usize,
) -> Result<(Spreader<Copies>, Vec<StreamHead>), ConfigError>
    ensures view { IfOk result (λ r. ⟦<Spreader<Copies> as Filter>⟧.view r.0 ≡ split_view (head.now, outputs)) }
    ensures heads { IfOk result (λ r. r.1.items ≡ replicate outputs head.now) }
    ensures err { IfErr result (λ e. e ≡ NoMemory) }
{
    let share = Copies {
        head: *head,
        outputs,
        alloc,
    };
    match Spreader::new(alloc, share, outputs) {
        Err(_) => Err(ConfigError::NoMemory),
        Ok(machine) => match same_heads(alloc, head, outputs) {
            Err(_) => Err(ConfigError::NoMemory),
            Ok(heads) => Ok((machine, heads)),
        },
    }
}
