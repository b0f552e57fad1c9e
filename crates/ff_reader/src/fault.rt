//! The faults of heads, and what the first bytes of an input answer.
ghost use Rattle.std.specs.Prelude.{◌≡◌, Err, if◌then◌else◌};
ghost use Rattle.ff_reader.specs.Heads.{early, answered, answered_or};

use ff_frame::HeadEnd;

/// Why an input has no head.
#[derive(Clone, Copy, PartialEq, Eq, Debug)]
pub enum HeadFault {
    /// The input breaks its format's grammar at this offset.
    Damaged { offset: u64 },
    /// The input is of a kind that isn't read, as the bytes at this offset say.
    Unsupported { offset: u64 },
}

fn answer_of<H>(found: Result<H, HeadFault>) -> Result<H, HeadEnd>
    ensures { result ≡ answered found }
{
    match found {
        Ok(head) => Ok(head),
        Err(HeadFault::Damaged { offset }) => Err(HeadEnd::Damaged { offset }),
        Err(HeadFault::Unsupported { offset }) => Err(HeadEnd::Unsupported { offset }),
    }
}

fn found_early<H>(few: usize, bytes: &[u8]) -> Result<H, HeadFault>
    ensures { result ≡ early few bytes.now }
{
    if bytes.len() < few {
        return Err(HeadFault::Unsupported { offset: 0 });
    }
    Err(HeadFault::Damaged {
        offset: bytes.len() as u64,
    })
}

// The answer of what the first bytes decide, of any head.
pub(crate) fn answer_in<H>(
    found: Option<Result<H, HeadFault>>,
    few: usize,
    bytes: &[u8],
    whole: bool,
) -> Result<H, HeadEnd>
    ensures { result ≡ answered_or found (if whole then answered (early few bytes.now) else Err HeadEnd.NotYet) }
{
    match found {
        Some(found) => answer_of(found),
        None if whole => answer_of(found_early(few, bytes)),
        None => Err(HeadEnd::NotYet),
    }
}

/// The answer of what the first bytes decide. Where they decide nothing, more are wanted. A whole input then ends too
/// early, before its format is named in so few bytes or after them.
// (Of a head that is Copy: the checker doesn't carry the parts of another one's type into a caller's crate.)
pub fn answer_to<H: Copy>(
    found: Option<Result<H, HeadFault>>,
    few: usize,
    bytes: &[u8],
    whole: bool,
) -> Result<H, HeadEnd>
    ensures { result ≡ answered_or found (if whole then answered (early few bytes.now) else Err HeadEnd.NotYet) }
{
    answer_in(found, few, bytes, whole)
}
