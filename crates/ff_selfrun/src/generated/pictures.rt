//! The generated video.
ghost use Rattle.std.specs.Prelude.{◌≡◌, ◌≤◌, ◌<◌, ◌++◌, IfOk, OnOk};
ghost use Rattle.ff_y4m.specs.Header.{frame_line};
ghost use Rattle.ff_selfrun.specs.generated.Generated.{generated_y4m, picture_head, pictures, planes};

use ff_frame::{Format, StreamHead};
use ff_time::Rational;
use ff_y4m::y4m_header;
use std::alloc::{AllocError, Global};

/// Bytes of a video frame: 16 columns and 8 rows of Y, and half as many of each of the two planes of colour.
const PICTURE: u32 = 192;

fn head() -> StreamHead
    ensures { result ≡ picture_head }
{
    StreamHead::Video {
        tb: Rational::one_over(25),
        format: Format::C420,
        width: 16,
        height: 8,
        sar_num: 1,
        sar_den: 1,
    }
}

// Adds the planes of a frame.
#[tactic(auto, unfolding(crate::specs::generated::Generated::planes))]
fn push_planes(out: &mut Vec<u8>, number: u32) -> Result<(), AllocError>
    requires { number < 90000 }
    ensures { OnOk result (out.new.items ≡ out.old.items ++ planes number) }
{
    'bytes: for k in 0..PICTURE {
        out.push(((number * 7 + k * 3) % 256) as u8)?;
    }
    Ok(())
}

// Adds a frame after its line.
fn push_picture(out: &mut Vec<u8>, number: u32) -> Result<(), AllocError>
    requires { number < 90000 }
    ensures { OnOk result (out.new.items ≡ out.old.items ++ (frame_line ++ planes number)) }
{
    out.extend_from_slice(b"FRAME\n")?;
    push_planes(out, number)
}

/// A YUV4MPEG2 file of this many seconds, at most 3,600: 16 columns and 8 rows of 4:2:0, 25 frames a second. Byte k of frame f,
/// counted over all planes, is (7 f + 3 k) mod 256.
pub fn gen_y4m(alloc: Global, seconds: u32) -> Result<Vec<u8>, AllocError>
    requires { seconds ≤ 3600 }
    ensures { IfOk result (λ bytes. bytes.items ≡ generated_y4m seconds) }
{
    let mut bytes = y4m_header(alloc, &head())?;
    'pictures: for number in 0..25 * seconds {
        push_picture(&mut bytes, number)?;
    }
    Ok(bytes)
}
