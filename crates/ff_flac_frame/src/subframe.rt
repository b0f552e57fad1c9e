//! Subframes as values (RFC 9639, section 9.2).
ghost use Rattle.std.specs.Prelude.{◌≡◌, IfSome, true};
ghost use Rattle.ff_flac_frame.specs.Restored.{IsRestored, IsRestored-prop};

use crate::sequence::Sequence;

/// How a subframe stands for its samples (RFC 9639, section 9.2).
#[derive(Clone, Copy, Debug, PartialEq, Eq)]
pub enum SubKind {
    /// All samples are equal.
    Constant,
    /// The samples as they are.
    Verbatim,
    /// By a fixed predictor and residuals.
    Fixed,
    /// By a linear predictor and residuals.
    Lpc,
}

/// What stands for one channel of a frame.
#[derive(Drop)]
pub struct Subframe {
    /// How many low bits of each sample are zero, and left out.
    pub wasted: u8,
    /// How it stands for its samples.
    pub kind: SubKind,
    /// How many samples the predictor looks back: 0 to 4, or 1 to 32 of a linear one.
    pub order: u8,
    /// How far a linear prediction is shifted right.
    pub shift: u8,
    /// The coefficients of a linear predictor, the nearest sample's first.
    pub coefs: Sequence<i32>,
    /// The constant, the verbatim samples, or the warm-up samples.
    pub warm: Sequence<i32>,
    /// The residuals.
    pub rest: Sequence<i32>,
    /// Whether the samples were restored as the residuals were read.
    pub(crate) is_restored: bool,
    /// Then these are the samples, without their wasted bits.
    pub(crate) samples: Sequence<i32>,
    ghost restored: { is_restored ≡ true → IsRestored kind order coefs shift warm rest samples } by { IsRestored-prop is_restored kind order coefs shift warm rest samples },
}

impl Subframe {
    /// The samples, without their wasted bits, where they were restored as the residuals were read.
    pub fn restored(&self) -> Option<&[i32]>
        ensures { IfSome result (λ xs. IsRestored self.now.kind self.now.order self.now.coefs self.now.shift self.now.warm self.now.rest xs.now) }
    {
        if self.is_restored {
            Some(self.samples.as_slice())
        } else {
            None
        }
    }
}
