//! Fixed predictors (RFC 9639, section 9.2.5).
ghost use Rattle.std.specs.Prelude.{◌≡◌, ◌<◌, ◌≤◌, ◌^◌, ◌-◌, IsTrue, ◌↔◌, length, pos, ◌*ℤ◌, ◌-ℤ◌, ◌+ℤ◌, FitsSigned};
ghost use Rattle.std.specs.Int.{w64};
ghost use Rattle.ff_frame.specs.Audio.{FitsBits};
ghost use Rattle.ff_flac_frame.specs.laws.Bounds.{IsSmall, IsBounded, IsWide};
ghost use Rattle.ff_flac_frame.specs.Prediction.{ago, fixed, AllInDepth};

/// Whether a sample is within the depth.
pub fn is_in_depth(depth: u32, x: i64) -> bool
    requires low { 1 ≤ depth }
    requires high { depth ≤ 25 }
    ensures { IsTrue result ↔ FitsBits depth x }
{
    let limit = 1i64 << (depth - 1);
    -limit <= x && x < limit
}

/// The last sample, 0 where there is none.
pub fn last_of(xs: &[i32]) -> i64
    ensures { result ≡ ago 1 xs.now }
{
    match xs {
        [] => 0,
        [.., last] => *last as i64,
    }
}

/// The sample k before the next one.
fn look_back(depth: u32, xs: &[i32], k: usize) -> i64
    requires low { 1 ≤ k }
    requires there { k ≤ length xs.now }
    requires depth { depth ≤ 25 }
    requires within { AllInDepth depth xs.now }
    ensures value { result ≡ ago k xs.now }
    ensures small { IsSmall result }
{
    xs[xs.len() - k] as i64
}

fn second(a: i64, b: i64) -> i64
    requires a { IsSmall a }
    requires b { IsSmall b }
    ensures value { result ≡ (pos 2 *ℤ a) -ℤ b }
    ensures bounded { IsWide result }
{
    2 * a - b
}

fn third(a: i64, b: i64, c: i64) -> i64
    requires a { IsSmall a }
    requires b { IsSmall b }
    requires c { IsSmall c }
    ensures value { result ≡ ((pos 3 *ℤ a) -ℤ (pos 3 *ℤ b)) +ℤ c }
    ensures bounded { IsWide result }
{
    3 * a - 3 * b + c
}

fn fourth_front(a: i64, b: i64) -> i64
    requires a { IsSmall a }
    requires b { IsSmall b }
    ensures value { result ≡ (pos 4 *ℤ a) -ℤ (pos 6 *ℤ b) }
    ensures bounded { IsBounded result }
{
    4 * a - 6 * b
}

fn fourth(front: i64, c: i64, d: i64) -> i64
    requires front { IsBounded front }
    requires c { IsSmall c }
    requires d { IsSmall d }
    ensures value { result ≡ (front +ℤ (pos 4 *ℤ c)) -ℤ d }
    ensures bounded { IsWide result }
{
    front + 4 * c - d
}

/// The fixed prediction.
#[inline(always)]
fn predict(order: u32, depth: u32, xs: &[i32], last: i64) -> i64
    requires order { order ≤ 4 }
    requires there { order ≤ length xs.now }
    requires depth { depth ≤ 25 }
    requires within { AllInDepth depth xs.now }
    requires last { last ≡ ago 1 xs.now }
    requires small { IsSmall last }
    ensures value { result ≡ fixed order xs.now }
    ensures bounded { IsWide result }
{
    if order == 0 {
        return 0;
    }
    if order == 1 {
        return last;
    }
    let b = look_back(depth, xs, 2);
    if order == 2 {
        return second(last, b);
    }
    let c = look_back(depth, xs, 3);
    if order == 3 {
        return third(last, b, c);
    }
    let d = look_back(depth, xs, 4);
    fourth(fourth_front(last, b), c, d)
}

/// The sample that the residual stands for.
#[inline(always)]
pub fn next_fixed(order: u32, depth: u32, xs: &[i32], last: i64, r: &i32) -> i64
    requires order { order ≤ 4 }
    requires there { order ≤ length xs.now }
    requires depth { depth ≤ 25 }
    requires within { AllInDepth depth xs.now }
    requires last { last ≡ ago 1 xs.now }
    ensures value { result ≡ fixed order xs.now +ℤ r.now }
    ensures fits { FitsSigned w64 result }
{
    let residual = *r;
    predict(order, depth, xs, last) + residual as i64
}
