//! Two channels, under the channel code with the fewest bits.

ghost use Rattle.std.specs.Prelude.{◌≡◌, ◌+◌, ◌≤◌, ◌++◌, [], ◌∷◌, length, IfOk, OnOk, IsSome, Some, ℕ, ℤ, List};
ghost use Rattle.ff_flac_subframe.specs.rice.Least.{least};
ghost use Rattle.ff_flac_subframe.specs.laws.Outlook.{IsOutlook};
ghost use Rattle.ff_flac_enc.specs.Head.{IsHead, opened};
ghost use Rattle.ff_flac_enc.specs.Layout.{Layout, layouts, layout_size, body, mid_of, side_of};
ghost use Rattle.ff_flac_enc.specs.Channels.{best_bits};
ghost use Rattle.ff_flac_enc.specs.laws.Signal.{CanWrite};
ghost use Rattle.ff_flac_enc.specs.laws.Shape.{pair_layout};
ghost use Rattle.ff_flac_enc.specs.laws.Choice.{CanWriteFour, IsKnown, IsBest, AreOutlooks, AreKnown, ArePlanned, IsChoice};

use crate::head::{Head, open_frame};
use crate::shape::{
    Choice, Four, Known, Shape, choice_of, choice_of_all, code_of, first_depth_of, first_of,
    second_depth_of, second_of, shape_of,
};
use crate::sides::{mid_samples, side_samples};
use ff_bits::BitWriter;
use ff_flac_subframe::{Outlook, Plan, outlook_of, plan_by, write_plan};
use std::alloc::{AllocError, Global};

/// The outlooks of left, right, mid and side.
#[derive(Drop)]
pub struct Outlooks {
    /// That of the left channel.
    pub left: Outlook,
    /// That of the right channel.
    pub right: Outlook,
    /// That of the mean of the two.
    pub mid: Outlook,
    /// That of their difference.
    pub side: Outlook,
}

/// How few bits a signal may have.
fn look(alloc: Global, xs: &[i32], depth: u32) -> Result<Outlook, AllocError>
    requires { CanWrite depth xs.now }
    ensures { IfOk result (λ o. IsOutlook depth xs.now o) }
{
    outlook_of(alloc, xs, depth)
}

/// How few bits left, right, mid and side may have.
fn look_at_four(
    alloc: Global,
    left: &[i32],
    right: &[i32],
    mid: &[i32],
    side: &[i32],
    bits: u32,
) -> Result<Outlooks, AllocError>
    requires { CanWriteFour bits left.now right.now mid.now side.now }
    ensures { IfOk result (λ o. AreOutlooks bits left.now right.now mid.now side.now o) }
{
    let left = look(alloc, left, bits)?;
    let right = look(alloc, right, bits)?;
    let mid = look(alloc, mid, bits)?;
    let side = look(alloc, side, bits + 1)?;
    Ok(Outlooks {
        left,
        right,
        mid,
        side,
    })
}

/// What an outlook tells.
fn seen(outlook: &Outlook) -> Known
    ensures { (depth : ℕ) (xs : List ℤ) → IsOutlook depth xs outlook.now → IsKnown depth xs result }
{
    Known {
        bound: outlook.bound,
        plan: None,
    }
}

/// What the outlooks tell.
fn four_seen(outlooks: &Outlooks) -> Four
    ensures { (bits : ℕ) (left right mid side : List ℤ) → AreOutlooks bits left right mid side outlooks.now → AreKnown bits left right mid side result }
{
    Four {
        left: seen(&outlooks.left),
        right: seen(&outlooks.right),
        mid: seen(&outlooks.mid),
        side: seen(&outlooks.side),
    }
}

/// What is known of a signal, with its plan, which is made where there is none.
fn planned(
    alloc: Global,
    xs: &[i32],
    depth: u32,
    outlook: &Outlook,
    known: Known,
) -> Result<Known, AllocError>
    requires can { CanWrite depth xs.now }
    requires outlook { IsOutlook depth xs.now outlook.now }
    requires known { IsKnown depth xs.now known }
    ensures is { IfOk result (λ k. IsKnown depth xs.now k) }
    ensures planned { IfOk result (λ k. IsSome k.plan) }
{
    if known.plan.is_some() {
        return Ok(known);
    }
    let found = plan_by(alloc, xs, depth, outlook)?;
    Ok(Known {
        bound: found.cost,
        plan: Some(found.plan),
    })
}

/// Plans the two signals of a form.
fn plan_shape(
    alloc: Global,
    shape: Shape,
    left: &[i32],
    right: &[i32],
    mid: &[i32],
    side: &[i32],
    bits: u32,
    outlooks: &Outlooks,
    known: Four,
) -> Result<Four, AllocError>
    requires can { CanWriteFour bits left.now right.now mid.now side.now }
    requires outlooks { AreOutlooks bits left.now right.now mid.now side.now outlooks.now }
    requires known { AreKnown bits left.now right.now mid.now side.now known }
    ensures { IfOk result (λ k. AreKnown bits left.now right.now mid.now side.now k) }
{
    let wide = bits + 1;
    match shape {
        Shape::Independent => Ok(Four {
            left: planned(alloc, left, bits, &outlooks.left, known.left)?,
            right: planned(alloc, right, bits, &outlooks.right, known.right)?,
            ..known
        }),
        Shape::LeftSide => Ok(Four {
            left: planned(alloc, left, bits, &outlooks.left, known.left)?,
            side: planned(alloc, side, wide, &outlooks.side, known.side)?,
            ..known
        }),
        Shape::SideRight => Ok(Four {
            side: planned(alloc, side, wide, &outlooks.side, known.side)?,
            right: planned(alloc, right, bits, &outlooks.right, known.right)?,
            ..known
        }),
        Shape::MidSide => Ok(Four {
            mid: planned(alloc, mid, bits, &outlooks.mid, known.mid)?,
            side: planned(alloc, side, wide, &outlooks.side, known.side)?,
            ..known
        }),
    }
}

/// Plans all that isn't planned.
fn plan_all(
    alloc: Global,
    left: &[i32],
    right: &[i32],
    mid: &[i32],
    side: &[i32],
    bits: u32,
    outlooks: &Outlooks,
    known: Four,
) -> Result<Four, AllocError>
    requires can { CanWriteFour bits left.now right.now mid.now side.now }
    requires outlooks { AreOutlooks bits left.now right.now mid.now side.now outlooks.now }
    requires known { AreKnown bits left.now right.now mid.now side.now known }
    ensures is { IfOk result (λ k. AreKnown bits left.now right.now mid.now side.now k) }
    ensures all { IfOk result ArePlanned }
{
    let left = planned(alloc, left, bits, &outlooks.left, known.left)?;
    let right = planned(alloc, right, bits, &outlooks.right, known.right)?;
    let mid = planned(alloc, mid, bits, &outlooks.mid, known.mid)?;
    let side = planned(alloc, side, bits + 1, &outlooks.side, known.side)?;
    Ok(Four {
        left,
        right,
        mid,
        side,
    })
}

/// The form of the fewest bits and its plans.
///
/// The form of the lowest bounds is planned, until both of its bounds are those of plans: then no other form has fewer bits.
/// Each turn plans one signal at least.
fn choose(
    alloc: Global,
    left: &[i32],
    right: &[i32],
    mid: &[i32],
    side: &[i32],
    bits: u32,
) -> Result<Choice, AllocError>
    requires { CanWriteFour bits left.now right.now mid.now side.now }
    ensures { IfOk result (IsChoice bits left.now right.now mid.now side.now) }
{
    let outlooks = look_at_four(alloc, left, right, mid, side, bits)?;
    let mut known = four_seen(&outlooks);
    for turn in 0..3 {
        let shape = shape_of(&known);
        if let Some(choice) = choice_of(shape, &known) {
            return Ok(choice);
        }
        known = plan_shape(alloc, shape, left, right, mid, side, bits, &outlooks, known)?;
    }
    let known = plan_all(alloc, left, right, mid, side, bits, &outlooks, known)?;
    Ok(choice_of_all(&known))
}

/// What is known of a signal, with its plan.
fn planned_alone(alloc: Global, xs: &[i32], depth: u32) -> Result<Known, AllocError>
    requires { CanWrite depth xs.now }
    ensures is { IfOk result (λ k. IsKnown depth xs.now k) }
    ensures planned { IfOk result (λ k. IsSome k.plan) }
{
    let outlook = look(alloc, xs, depth)?;
    planned(alloc, xs, depth, &outlook, seen(&outlook))
}

/// The form of the fewest bits and its plans, where left, right and mid are alike.
fn choose_alike(alloc: Global, one: &[i32], side: &[i32], bits: u32) -> Result<Choice, AllocError>
    requires one { CanWrite bits one.now }
    requires side { CanWrite (bits + 1) side.now }
    ensures { IfOk result (IsChoice bits one.now one.now one.now side.now) }
{
    let one = planned_alone(alloc, one, bits)?;
    let side = planned_alone(alloc, side, bits + 1)?;
    let known = Four {
        left: one,
        right: one,
        mid: one,
        side,
    };
    Ok(choice_of_all(&known))
}

/// Writes a signal by its plan.
fn write_signal(
    alloc: Global,
    out: &mut BitWriter,
    xs: &[i32],
    depth: u32,
    plan: Plan,
) -> Result<(), AllocError>
    requires can { CanWrite depth xs.now }
    requires plan { IsBest depth xs.now plan }
    ensures { OnOk result (out.new ≡ out.old ++ best_bits depth xs.now) }
{
    write_plan(alloc, out, xs, depth, plan)
}

/// Writes the two subframes of a form.
fn write_both(
    alloc: Global,
    out: &mut BitWriter,
    choice: &Choice,
    left: &[i32],
    right: &[i32],
    mid: &[i32],
    side: &[i32],
    bits: u32,
) -> Result<(), AllocError>
    requires can { CanWriteFour bits left.now right.now mid.now side.now }
    requires choice { IsChoice bits left.now right.now mid.now side.now choice.now }
    requires mid_is { mid.now ≡ mid_of left.now right.now }
    requires side_is { side.now ≡ side_of left.now right.now }
    ensures { OnOk result (out.new ≡ out.old ++ body bits (left.now ∷ right.now ∷ []) (pair_layout bits left.now right.now choice.now.shape)) }
{
    let first = first_of(choice.shape, left, mid, side);
    let depth = first_depth_of(choice.shape, bits);
    write_signal(alloc, out, first, depth, choice.first)?;
    let second = second_of(choice.shape, right, side);
    let depth = second_depth_of(choice.shape, bits);
    write_signal(alloc, out, second, depth, choice.second)?;
    Ok(())
}

/// The header and the subframes of two channels, in the form of the fewest bits.
fn write_choice(
    alloc: Global,
    head: &Head,
    choice: &Choice,
    left: &[i32],
    right: &[i32],
    mid: &[i32],
    side: &[i32],
    bits: u32,
) -> Result<BitWriter, AllocError>
    requires head { IsHead head.now }
    requires can { CanWriteFour bits left.now right.now mid.now side.now }
    requires choice { IsChoice bits left.now right.now mid.now side.now choice.now }
    requires mid_is { mid.now ≡ mid_of left.now right.now }
    requires side_is { side.now ≡ side_of left.now right.now }
    ensures { IfOk result (λ out. (y : Layout) × (least (layout_size bits (left.now ∷ right.now ∷ [])) (layouts bits (left.now ∷ right.now ∷ [])) ≡ Some y)
        × (out ≡ opened head.now y.form ++ body bits (left.now ∷ right.now ∷ []) y)) }
{
    let mut out = open_frame(alloc, head, code_of(choice.shape))?;
    write_both(alloc, &mut out, choice, left, right, mid, side, bits)?;
    Ok(out)
}

/// The header and the subframes of two channels that are alike: so is their middle.
fn write_alike(
    alloc: Global,
    head: &Head,
    left: &[i32],
    right: &[i32],
    side: &[i32],
    bits: u32,
) -> Result<BitWriter, AllocError>
    requires head { IsHead head.now }
    requires left { CanWrite bits left.now }
    requires side { CanWrite (bits + 1) side.now }
    requires side_is { side.now ≡ side_of left.now right.now }
    requires alike { left.now ≡ right.now }
    ensures { IfOk result (λ out. (y : Layout) × (least (layout_size bits (left.now ∷ right.now ∷ [])) (layouts bits (left.now ∷ right.now ∷ [])) ≡ Some y)
        × (out ≡ opened head.now y.form ++ body bits (left.now ∷ right.now ∷ []) y)) }
{
    let choice = choose_alike(alloc, left, side, bits)?;
    write_choice(alloc, head, &choice, left, right, left, side, bits)
}

/// The header and the subframes of two channels, by their middle and their difference.
fn write_four(
    alloc: Global,
    head: &Head,
    left: &[i32],
    right: &[i32],
    mid: &[i32],
    side: &[i32],
    bits: u32,
) -> Result<BitWriter, AllocError>
    requires head { IsHead head.now }
    requires can { CanWriteFour bits left.now right.now mid.now side.now }
    requires mid_is { mid.now ≡ mid_of left.now right.now }
    requires side_is { side.now ≡ side_of left.now right.now }
    ensures { IfOk result (λ out. (y : Layout) × (least (layout_size bits (left.now ∷ right.now ∷ [])) (layouts bits (left.now ∷ right.now ∷ [])) ≡ Some y)
        × (out ≡ opened head.now y.form ++ body bits (left.now ∷ right.now ∷ []) y)) }
{
    let choice = choose(alloc, left, right, mid, side, bits)?;
    write_choice(alloc, head, &choice, left, right, mid, side, bits)
}

/// The header and the subframes of two channels, in the fewest bits.
pub fn write_pair(
    alloc: Global,
    head: &Head,
    left: &[i32],
    right: &[i32],
    bits: u32,
) -> Result<BitWriter, AllocError>
    requires head { IsHead head.now }
    requires left { CanWrite bits left.now }
    requires right { CanWrite bits right.now }
    requires bits { bits ≤ 24 }
    requires same { length left.now ≡ length right.now }
    ensures { IfOk result (λ out. (y : Layout) × (least (layout_size bits (left.now ∷ right.now ∷ [])) (layouts bits (left.now ∷ right.now ∷ [])) ≡ Some y)
        × (out ≡ opened head.now y.form ++ body bits (left.now ∷ right.now ∷ []) y)) }
{
    let side = side_samples(alloc, left, right)?;
    if left == right {
        return write_alike(alloc, head, left, right, &side, bits);
    }
    let mid = mid_samples(alloc, left, right)?;
    write_four(alloc, head, left, right, &mid, &side, bits)
}
