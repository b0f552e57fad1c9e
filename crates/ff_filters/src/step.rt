//! Any function of one stream that gives at most one item for each. A further one is a line in [`AnyStep`] and one in
//! each of its matches here. The machine around it, and all that stands on [`crate::AnyFilter`], stay as they are.
ghost use Rattle.std.specs.Prelude.{◌≡◌, refl};
ghost use Rattle.ff_stream.specs.Stream.{opened, still_open, whole, broken};
ghost use Rattle.ff_stream.specs.laws.Order.{below_self};
ghost use Rattle.ff_filter.specs.Shifts.{shifted, shifted-below, shifted-bare};
ghost use Rattle.ff_vfilter.specs.laws.LastingLaws.{lasting-below, lasting-calm, lasting-settles, lasting-bare};
ghost use Rattle.ff_vfilter.specs.Pictures.{repainted, repainted-below};
ghost use Rattle.ff_afilter.specs.laws.LastingLaws.{lasting-below as sound-below, lasting-calm as sound-calm, lasting-settles as sound-settles, lasting-bare as sound-bare};

use ff_afilter::LastingATrim;
use ff_filter::{Filter, Given, Limited, Pass, Rebase, Step, Stepper};
use ff_stream::{Item, Refused};
use ff_vfilter::{Crop, HFlip, LastingTrim, Pad, Paint, Repaint, VFlip};

/// Any function of one stream.
#[derive(Drop)]
pub enum AnyStep {
    /// Gives each item as it came.
    Pass(Pass),
    /// Takes the time of the first item from each.
    Rebase(Rebase),
    /// The frames of a range of times.
    Trim(LastingTrim),
    /// The audio of a range of times.
    ATrim(LastingATrim),
    /// A part of each frame.
    Crop(Repaint<Crop>),
    /// Each frame on black.
    Pad(Repaint<Pad>),
    /// Each frame mirrored left to right.
    HFlip(Repaint<HFlip>),
    /// Each frame mirrored top to bottom.
    VFlip(Repaint<VFlip>),
}

impl Step for AnyStep {
    ghost use Rattle.ff_filters.specs.declared.step.AnyStep.TheVariants as any;

    ghost lane_in = { elim [
      | any.Pass m ↦ ⟦<Pass as Step>⟧.lane_in m
      | any.Rebase m ↦ ⟦<Rebase as Step>⟧.lane_in m
      | any.Trim m ↦ ⟦<LastingTrim as Step>⟧.lane_in m
      | any.ATrim m ↦ ⟦<LastingATrim as Step>⟧.lane_in m
      | any.Crop m ↦ ⟦<Repaint<Crop> as Step>⟧.lane_in m
      | any.Pad m ↦ ⟦<Repaint<Pad> as Step>⟧.lane_in m
      | any.HFlip m ↦ ⟦<Repaint<HFlip> as Step>⟧.lane_in m
      | any.VFlip m ↦ ⟦<Repaint<VFlip> as Step>⟧.lane_in m
    ] };

    ghost lane_out = { elim [
      | any.Pass m ↦ ⟦<Pass as Step>⟧.lane_out m
      | any.Rebase m ↦ ⟦<Rebase as Step>⟧.lane_out m
      | any.Trim m ↦ ⟦<LastingTrim as Step>⟧.lane_out m
      | any.ATrim m ↦ ⟦<LastingATrim as Step>⟧.lane_out m
      | any.Crop m ↦ ⟦<Repaint<Crop> as Step>⟧.lane_out m
      | any.Pad m ↦ ⟦<Repaint<Pad> as Step>⟧.lane_out m
      | any.HFlip m ↦ ⟦<Repaint<HFlip> as Step>⟧.lane_out m
      | any.VFlip m ↦ ⟦<Repaint<VFlip> as Step>⟧.lane_out m
    ] };

    ghost runs = { elim [
      | any.Pass m ↦ ⟦<Pass as Step>⟧.runs m
      | any.Rebase m ↦ ⟦<Rebase as Step>⟧.runs m
      | any.Trim m ↦ ⟦<LastingTrim as Step>⟧.runs m
      | any.ATrim m ↦ ⟦<LastingATrim as Step>⟧.runs m
      | any.Crop m ↦ ⟦<Repaint<Crop> as Step>⟧.runs m
      | any.Pad m ↦ ⟦<Repaint<Pad> as Step>⟧.runs m
      | any.HFlip m ↦ ⟦<Repaint<HFlip> as Step>⟧.runs m
      | any.VFlip m ↦ ⟦<Repaint<VFlip> as Step>⟧.runs m
    ] };

    fn step(&mut self, item: Item) -> Result<Given, Refused> {
        match self {
            AnyStep::Pass(step) => step.step(item),
            AnyStep::Rebase(step) => step.step(item),
            AnyStep::Trim(step) => step.step(item),
            AnyStep::ATrim(step) => step.step(item),
            AnyStep::Crop(step) => step.step(item),
            AnyStep::Pad(step) => step.step(item),
            AnyStep::HFlip(step) => step.step(item),
            AnyStep::VFlip(step) => step.step(item),
        }
    }

    ghost waits = { elim [
      | any.Pass m ↦ refl
      | any.Rebase m ↦ shifted-bare m.first still_open
      | any.Trim m ↦ lasting-bare m.trim.range m.lasting still_open
      | any.ATrim m ↦ sound-bare m.trim.range m.lasting still_open
      | any.Crop m ↦ refl
      | any.Pad m ↦ refl
      | any.HFlip m ↦ refl
      | any.VFlip m ↦ refl
    ] };

    ghost below = { elim [
      | any.Pass m ↦ λ r s h. h
      | any.Rebase m ↦ λ r s h. shifted-below m.first r s h
      | any.Trim m ↦ λ r s h. lasting-below m.trim.range m.lasting r s h
      | any.ATrim m ↦ λ r s h. sound-below m.trim.range m.lasting r s h
      | any.Crop m ↦ λ r s h. repainted-below (⟦<Crop as Paint>⟧.painted m.paint) r s h
      | any.Pad m ↦ λ r s h. repainted-below (⟦<Pad as Paint>⟧.painted m.paint) r s h
      | any.HFlip m ↦ λ r s h. repainted-below (⟦<HFlip as Paint>⟧.painted m.paint) r s h
      | any.VFlip m ↦ λ r s h. repainted-below (⟦<VFlip as Paint>⟧.painted m.paint) r s h
    ] };

    ghost calm = { elim [
      | any.Pass m ↦ λ r. below_self (opened r)
      | any.Rebase m ↦ λ r. below_self (opened (shifted m.first r))
      | any.Trim m ↦ λ r. lasting-calm m.trim.range m.lasting r
      | any.ATrim m ↦ λ r. sound-calm m.trim.range m.lasting r
      | any.Crop m ↦ λ r. below_self (opened (repainted (⟦<Crop as Paint>⟧.painted m.paint) r))
      | any.Pad m ↦ λ r. below_self (opened (repainted (⟦<Pad as Paint>⟧.painted m.paint) r))
      | any.HFlip m ↦ λ r. below_self (opened (repainted (⟦<HFlip as Paint>⟧.painted m.paint) r))
      | any.VFlip m ↦ λ r. below_self (opened (repainted (⟦<VFlip as Paint>⟧.painted m.paint) r))
    ] };

    ghost settles = { elim [
      | any.Pass m ↦ λ r c. c
      | any.Rebase m ↦ λ r c. c
      | any.Trim m ↦ λ r c. lasting-settles m.trim.range m.lasting r c
      | any.ATrim m ↦ λ r c. sound-settles m.trim.range m.lasting r c
      | any.Crop m ↦ λ r c. c
      | any.Pad m ↦ λ r c. c
      | any.HFlip m ↦ λ r c. c
      | any.VFlip m ↦ λ r c. c
    ] };

    ghost ends = { elim [
      | any.Pass m ↦ refl
      | any.Rebase m ↦ shifted-bare m.first whole
      | any.Trim m ↦ lasting-bare m.trim.range m.lasting whole
      | any.ATrim m ↦ sound-bare m.trim.range m.lasting whole
      | any.Crop m ↦ refl
      | any.Pad m ↦ refl
      | any.HFlip m ↦ refl
      | any.VFlip m ↦ refl
    ] };

    ghost breaks = { elim [
      | any.Pass m ↦ refl
      | any.Rebase m ↦ shifted-bare m.first broken
      | any.Trim m ↦ lasting-bare m.trim.range m.lasting broken
      | any.ATrim m ↦ sound-bare m.trim.range m.lasting broken
      | any.Crop m ↦ refl
      | any.Pad m ↦ refl
      | any.HFlip m ↦ refl
      | any.VFlip m ↦ refl
    ] };
}

/// One of the functions of [`AnyStep`].
pub trait IntoAny: Step {
    /// The same function.
    fn into_any(self) -> AnyStep
        ensures lane_in { ⟦<AnyStep as Step>⟧.lane_in result ≡ Self.lane_in self }
        ensures lane_out { ⟦<AnyStep as Step>⟧.lane_out result ≡ Self.lane_out self }
        ensures runs { ⟦<AnyStep as Step>⟧.runs result ≡ Self.runs self };
}

impl IntoAny for Pass {
    fn into_any(self) -> AnyStep {
        AnyStep::Pass(self)
    }
}

impl IntoAny for Rebase {
    fn into_any(self) -> AnyStep {
        AnyStep::Rebase(self)
    }
}

impl IntoAny for LastingTrim {
    fn into_any(self) -> AnyStep {
        AnyStep::Trim(self)
    }
}

impl IntoAny for LastingATrim {
    fn into_any(self) -> AnyStep {
        AnyStep::ATrim(self)
    }
}

impl IntoAny for Repaint<Crop> {
    fn into_any(self) -> AnyStep {
        AnyStep::Crop(self)
    }
}

impl IntoAny for Repaint<Pad> {
    fn into_any(self) -> AnyStep {
        AnyStep::Pad(self)
    }
}

impl IntoAny for Repaint<HFlip> {
    fn into_any(self) -> AnyStep {
        AnyStep::HFlip(self)
    }
}

impl IntoAny for Repaint<VFlip> {
    fn into_any(self) -> AnyStep {
        AnyStep::VFlip(self)
    }
}

/// The same machine over any function.
pub(crate) fn stepping<A: IntoAny>(filter: Stepper<Limited<A>>) -> Stepper<Limited<AnyStep>>
    ensures { ⟦<Stepper<Limited<AnyStep>> as Filter>⟧.view result ≡ ⟦<Stepper<Limited<A>> as Filter>⟧.view filter }
{
    let Stepper {
        step,
        outlet,
        after,
        shut,
    } = filter;
    let Limited {
        inner,
        head,
        before,
    } = step;
    Stepper {
        step: Limited {
            inner: inner.into_any(),
            head,
            before,
        },
        outlet,
        after,
        shut,
    }
}
