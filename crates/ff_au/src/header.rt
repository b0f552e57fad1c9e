//! The bytes of the header that is written.
ghost use Rattle.std.specs.Prelude.{◌≡◌, ◌++◌, IfOk, OnOk};
ghost use Rattle.ff_au.specs.Codecs.{IsAuCoded};
ghost use Rattle.ff_au.specs.Header.{be_32, mark, header};

use ff_frame::StreamHead;
use ff_pcm::size_of_sample;
use std::alloc::{AllocError, Global};

#[tactic(auto, unfolding(crate::specs::Header::be_32))]
fn add_32(out: &mut Vec<u8>, n: u32) -> Result<(), AllocError>
    ensures { OnOk result (out.new.items ≡ out.old.items ++ be_32 n) }
{
    out.extend_from_slice(&n.to_be_bytes())
}

#[tactic(auto, unfolding(crate::specs::Header::mark))]
fn add_mark(out: &mut Vec<u8>) -> Result<(), AllocError>
    ensures { OnOk result (out.new.items ≡ out.old.items ++ mark) }
{
    out.extend_from_slice(b".snd")
}

/// The header with this data size: `.snd`, the five fields, and four bytes 0 of annotation.
pub(crate) fn header_bytes(
    alloc: Global,
    head: &StreamHead,
    size: u32,
) -> Result<Vec<u8>, AllocError>
    requires { IsAuCoded head.now }
    ensures { IfOk result (λ bytes. bytes.items ≡ header head.now size) }
{
    let StreamHead::Audio {
        rate,
        channels,
        codec,
        ..
    } = *head
    else {
        unreachable!()
    };
    let mut out = Vec::new(alloc);
    add_mark(&mut out)?;
    add_32(&mut out, 28)?;
    add_32(&mut out, size)?;
    add_32(&mut out, size_of_sample(codec) as u32 + 1)?;
    add_32(&mut out, rate)?;
    add_32(&mut out, channels as u32)?;
    add_32(&mut out, 0)?;
    Ok(out)
}
