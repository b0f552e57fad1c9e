//! The reader of durations (ffmpeg-utils, "Time duration").
ghost use Rattle.std.specs.Prelude.{◌≡◌, ◌<◌, ◌≤◌, ◌^◌, ◌↔◌, ℕ, IfErr, IsErrOf};
ghost use Rattle.ff_time.specs.Duration.{IsDuration, IsBadAt, IsTextError};

use super::TimeError;
use super::reading::Reading;

/// The bytes of the longest string, and the microseconds of the greatest duration.
const LONGEST: usize = 64;

const GREATEST: u64 = 1_000_000_000_000_000;

/// The microseconds of a duration, `[HH:]MM:SS[.m]` or `S[.m][s|ms|us]`, of at most 64 bytes. What
/// lies below one microsecond is cut off. `BadTime` where the string is none, with the first place
/// at which no duration goes on; `TooBig` where it is one above 10^15.
pub fn read_duration(text: &[u8]) -> Result<u64, TimeError>
    ensures ok { (value : ℕ) → (result ≡ Ok value)
        ↔ (IsDuration text.now value × (value ≤ 10 ^ 15)) }
    ensures too_big { IsErrOf result TimeError.TooBig
        ↔ ((value : ℕ) × IsDuration text.now value × (10 ^ 15 < value)) }
    ensures bad_time { (at : ℕ) → IsErrOf result (TimeError.BadTime at) ↔ IsBadAt text.now at }
    ensures err { IfErr result IsTextError }
{
    let mut reading = Reading::START;
    for (at, byte) in text.iter().enumerate() {
        match reading.next(*byte) {
            Some(next) if at + 1 + next.missing() <= LONGEST => reading = next,
            _ => return Err(TimeError::BadTime { at }),
        }
    }
    match reading.value() {
        Some(value) if value <= GREATEST => Ok(value),
        Some(_) => Err(TimeError::TooBig),
        None => Err(TimeError::BadTime { at: text.len() }),
    }
}
