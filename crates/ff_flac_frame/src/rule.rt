//! The values that each field of a frame may have.
ghost use Rattle.std.specs.Prelude.{◌≡◌, ◌<◌, ◌≤◌, ◌^◌, ◌-◌, slice_index};
ghost use Rattle.ff_bits.specs.Reading.{some};
ghost use Rattle.ff_flac_frame.specs.Codes.{rate_table, rate_fits, form_fits, depth_fits, order_of, kind_fits, order_fits};
ghost use Rattle.ff_flac_frame.specs.laws.Rules.{passes};

/// Which values of a field are accepted.
#[derive(Clone, Copy)]
pub enum Rule {
    /// Any value.
    Any,
    /// This value alone.
    Equal(u64),
    /// A value below this one.
    Below(u64),
    /// Any value but 0.
    NotZero,
    /// A code under which this rate can be written.
    Rate(u32),
    /// A channel code of so many channels.
    Form(u8),
    /// A code of this depth.
    Depth(u8),
    /// The type code of a subframe in a block of this size.
    Kind(u32),
    /// A partition order in a block of this size, under a predictor of this order.
    Order(u32, u32),
}

fn table_rate(code: u64) -> u32
    requires { code < 12 }
    ensures { result ≡ slice_index rate_table code }
{
    match code {
        1 => 88200,
        2 => 176400,
        3 => 192000,
        4 => 8000,
        5 => 16000,
        6 => 22050,
        7 => 24000,
        8 => 32000,
        9 => 44100,
        10 => 48000,
        11 => 96000,
        _ => 0,
    }
}

#[tactic(auto, unfolding(crate::specs::Codes::rate_fits))]
fn is_rate(rate: u32, code: u64) -> bool
    ensures { result ≡ rate_fits rate code }
{
    if code == 0 {
        return true;
    }
    if code < 12 {
        return rate == table_rate(code);
    }
    if code == 12 {
        return rate % 1000 == 0 && rate / 1000 < 256;
    }
    if code == 13 {
        return rate < 65536;
    }
    if code == 14 {
        return rate % 10 == 0 && rate / 10 < 65536;
    }
    false
}

#[tactic(auto, unfolding(crate::specs::Codes::form_fits))]
fn is_form(channels: u8, code: u64) -> bool
    ensures { result ≡ form_fits channels code }
{
    (code < 8 && code + 1 == u64::from(channels)) || ((8 <= code && code <= 10) && channels == 2)
}

#[tactic(auto, unfolding(crate::specs::Codes::depth_fits))]
fn is_depth(bits: u8, code: u64) -> bool
    ensures { result ≡ depth_fits bits code }
{
    match code {
        0 => true,
        1 => bits == 8,
        2 => bits == 12,
        4 => bits == 16,
        5 => bits == 20,
        6 => bits == 24,
        7 => bits == 32,
        _ => false,
    }
}

/// The order of the predictor that a subframe's type code names; 0 where it names none.
#[tactic(auto, unfolding(crate::specs::Codes::order_of))]
pub fn order_from(kind: u64) -> u64
    ensures value { result ≡ order_of kind }
    ensures small { result ≤ kind }
{
    if kind < 8 {
        0
    } else if kind < 32 {
        kind - 8
    } else {
        kind - 31
    }
}

#[tactic(auto, unfolding(crate::specs::Codes::kind_fits))]
fn is_kind(block: u32, kind: u64) -> bool
    ensures { result ≡ kind_fits block kind }
{
    (kind < 2 || ((7 < kind && kind < 13) || 31 < kind)) && order_from(kind) <= u64::from(block)
}

#[tactic(auto, unfolding(crate::specs::Codes::order_fits))]
fn is_order(block: u32, order: u32, p: u64) -> bool
    ensures { result ≡ order_fits block order p }
{
    if p >= 16 {
        return false;
    }
    let partitions = 1u32 << p;
    block % partitions == 0 && order <= block / partitions
}

/// Whether the rule passes the value.
pub fn is_passed(rule: Rule, v: u64) -> bool
    ensures { result ≡ passes rule v }
{
    match rule {
        Rule::Any => true,
        Rule::Equal(w) => v == w,
        Rule::Below(limit) => v < limit,
        Rule::NotZero => v != 0,
        Rule::Rate(rate) => is_rate(rate, v),
        Rule::Form(channels) => is_form(channels, v),
        Rule::Depth(bits) => is_depth(bits, v),
        Rule::Kind(block) => is_kind(block, v),
        Rule::Order(block, order) => is_order(block, order, v),
    }
}

/// Whether the rule passes some number of n bits more.
pub fn is_passed_by_some(n: u32, rule: Rule, v: u64) -> bool
    requires bits { n ≤ 63 }
    requires room { v < 2 ^ (64 - n) }
    ensures { result ≡ some n (passes rule) v }
{
    match rule {
        Rule::Any => true,
        Rule::Equal(w) => w >> n == v,
        Rule::Below(limit) => v << n < limit,
        _ => {
            if n == 0 {
                is_passed(rule, v)
            } else {
                is_passed_by_some(n - 1, rule, 2 * v) || is_passed_by_some(n - 1, rule, 2 * v + 1)
            }
        }
    }
}
