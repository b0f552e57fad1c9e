//! Fields of a fixed number of bits, checked by a rule.
ghost use Rattle.std.specs.Prelude.{◌≡◌, ◌<◌, ◌≤◌, ◌^◌, length, IfOk, true};
ghost use Rattle.ff_bits.specs.Reading.{field};
ghost use Rattle.ff_flac_frame.specs.Codes.{below};
ghost use Rattle.ff_flac_frame.specs.laws.Rules.{passes};
ghost use Rattle.ff_flac_frame.specs.laws.Gives.{Gives, Fails};

use crate::end::FrameEnd;
use crate::rule::{Rule, is_passed, is_passed_by_some};
use ff_bits::BitReader;

/// The next n bits as a number that the rule passes.
pub fn read_field(reader: &mut BitReader, n: u32, rule: Rule) -> Result<u64, FrameEnd>
    requires { n ≤ 63 }
    ensures reads { Gives (λ v. v) result (field n (passes rule) reader.old) reader.new }
    ensures below { IfOk result (λ v. v < 2 ^ n) }
    ensures passed { IfOk result (λ v. passes rule v ≡ true) }
{
    let Ok(v) = reader.take(n) else {
        return Err(in_part(reader, n, rule));
    };
    if is_passed(rule, v) {
        Ok(v)
    } else {
        Err(FrameEnd::Never)
    }
}

/// The next n bits as a number below a limit.
pub fn read_below(reader: &mut BitReader, n: u32, limit: u64) -> Result<u64, FrameEnd>
    requires { n ≤ 63 }
    ensures reads { Gives (λ v. v) result (field n (below limit) reader.old) reader.new }
    ensures below { IfOk result (λ v. v < 2 ^ n) }
    ensures passed { IfOk result (λ v. v < limit) }
{
    let Ok(v) = reader.take(n) else {
        return Err(in_part(reader, n, Rule::Below(limit)));
    };
    if v < limit {
        Ok(v)
    } else {
        Err(FrameEnd::Never)
    }
}

/// The end of a field of n bits that isn't there whole.
fn in_part(reader: &mut BitReader, n: u32, rule: Rule) -> FrameEnd
    requires bits { n ≤ 63 }
    requires part { length reader.old < n }
    ensures { Fails result (field n (passes rule) reader.old) }
{
    let have = reader.left() as u32;
    let Ok(v) = reader.take(have) else {
        unreachable!();
    };
    if is_passed_by_some(n - have, rule, v) {
        FrameEnd::NotYet
    } else {
        FrameEnd::Never
    }
}
