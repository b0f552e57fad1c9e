//! The form of two channels that has the fewest bits.

ghost use Rattle.std.specs.Prelude.{◌≡◌, ◌+◌, ◌<◌, ◌≤◌, ◌^◌, ℕ, ℤ, List, IfSome, IsSome};
ghost use Rattle.ff_flac_enc.specs.laws.Shape.{form_of, Chooses, first_depth, first_samples, second_depth, second_samples};
ghost use Rattle.ff_flac_enc.specs.laws.Choice.{first_known, second_known, AreKnown, ArePlanned, IsLowest, IsChoice};

use ff_flac_subframe::Plan;

/// The form of two channels (RFC 9639, section 9.1.3).
#[derive(Clone, Copy)]
pub enum Shape {
    /// Left and right.
    Independent,
    /// Left and side.
    LeftSide,
    /// Side and right.
    SideRight,
    /// Mid and side.
    MidSide,
}

/// Its channel code.
pub fn code_of(shape: Shape) -> u8
    ensures is { result ≡ form_of shape }
    ensures small { result < 16 }
{
    match shape {
        Shape::Independent => 1,
        Shape::LeftSide => 8,
        Shape::SideRight => 9,
        Shape::MidSide => 10,
    }
}

/// The depth of its first signal.
pub fn first_depth_of(shape: Shape, bits: u32) -> u32
    requires { bits ≤ 24 }
    ensures { result ≡ first_depth bits shape }
{
    match shape {
        Shape::SideRight => bits + 1,
        _ => bits,
    }
}

/// The depth of its second signal.
pub fn second_depth_of(shape: Shape, bits: u32) -> u32
    requires { bits ≤ 24 }
    ensures { result ≡ second_depth bits shape }
{
    match shape {
        Shape::Independent | Shape::SideRight => bits,
        Shape::LeftSide | Shape::MidSide => bits + 1,
    }
}

/// Its first signal.
pub fn first_of<'a>(shape: Shape, left: &'a [i32], mid: &'a [i32], side: &'a [i32]) -> &'a [i32]
    ensures { result.now ≡ first_samples left.now mid.now side.now shape }
{
    match shape {
        Shape::Independent | Shape::LeftSide => left,
        Shape::SideRight => side,
        Shape::MidSide => mid,
    }
}

/// Its second signal.
pub fn second_of<'a>(shape: Shape, right: &'a [i32], side: &'a [i32]) -> &'a [i32]
    ensures { result.now ≡ second_samples right.now side.now shape }
{
    match shape {
        Shape::Independent | Shape::SideRight => right,
        Shape::LeftSide | Shape::MidSide => side,
    }
}

/// The form with the fewest bits, the first of equals.
fn best_shape(left: u64, right: u64, mid: u64, side: u64) -> Shape
    requires left { left < 2 ^ 62 }
    requires right { right < 2 ^ 62 }
    requires mid { mid < 2 ^ 62 }
    requires side { side < 2 ^ 62 }
    ensures { Chooses left right mid side result }
{
    let both = left + right;
    let with_left = left + side;
    let with_right = side + right;
    let with_mid = mid + side;
    if both <= with_left && both <= with_right && both <= with_mid {
        return Shape::Independent;
    }
    if with_left <= with_right && with_left <= with_mid {
        return Shape::LeftSide;
    }
    if with_right <= with_mid {
        return Shape::SideRight;
    }
    Shape::MidSide
}

/// What is known of a signal: no spelling has fewer bits than the bound, and that of the plan has as many.
#[derive(Clone, Copy)]
pub struct Known {
    /// A number of bits below which there is no spelling.
    pub bound: u64,
    /// The plan, once one was made.
    pub plan: Option<Plan>,
}

/// What is known of left, right, mid and side.
#[derive(Clone, Copy)]
pub struct Four {
    /// What is known of left.
    pub left: Known,
    /// What is known of right.
    pub right: Known,
    /// What is known of mid.
    pub mid: Known,
    /// What is known of side.
    pub side: Known,
}

/// A form, and the plans of its two signals.
#[derive(Clone, Copy)]
pub struct Choice {
    /// The form.
    pub shape: Shape,
    /// The plan of its first signal.
    pub first: Plan,
    /// The plan of its second signal.
    pub second: Plan,
}

/// The form of the lowest bounds.
pub fn shape_of(known: &Four) -> Shape
    requires left { known.now.left.bound < 2 ^ 20 }
    requires right { known.now.right.bound < 2 ^ 20 }
    requires mid { known.now.mid.bound < 2 ^ 20 }
    requires side { known.now.side.bound < 2 ^ 20 }
    ensures { IsLowest known.now result }
{
    best_shape(
        known.left.bound,
        known.right.bound,
        known.mid.bound,
        known.side.bound,
    )
}

/// The plans of a form's two signals.
fn plans_of(shape: Shape, known: &Four) -> (Option<Plan>, Option<Plan>)
    ensures first { result.0 ≡ (first_known known.now shape).plan }
    ensures second { result.1 ≡ (second_known known.now shape).plan }
{
    match shape {
        Shape::Independent => (known.left.plan, known.right.plan),
        Shape::LeftSide => (known.left.plan, known.side.plan),
        Shape::SideRight => (known.side.plan, known.right.plan),
        Shape::MidSide => (known.mid.plan, known.side.plan),
    }
}

/// The form of the lowest bounds has the fewest bits, where both of its signals are planned.
pub fn choice_of(shape: Shape, known: &Four) -> Option<Choice>
    requires { IsLowest known.now shape }
    ensures is { (bits : ℕ) (left right mid side : List ℤ) → AreKnown bits left right mid side known.now → IfSome result (IsChoice bits left right mid side) }
    ensures all { ArePlanned known.now → IsSome result }
{
    match plans_of(shape, known) {
        (Some(first), Some(second)) => Some(Choice {
            shape,
            first,
            second,
        }),
        _ => None,
    }
}

/// The form of the fewest bits, where all four are planned.
pub fn choice_of_all(known: &Four) -> Choice
    requires left { known.now.left.bound < 2 ^ 20 }
    requires right { known.now.right.bound < 2 ^ 20 }
    requires mid { known.now.mid.bound < 2 ^ 20 }
    requires side { known.now.side.bound < 2 ^ 20 }
    requires all { ArePlanned known.now }
    ensures { (bits : ℕ) (left right mid side : List ℤ) → AreKnown bits left right mid side known.now → IsChoice bits left right mid side result }
{
    match choice_of(shape_of(known), known) {
        Some(choice) => choice,
        None => unreachable!(),
    }
}
