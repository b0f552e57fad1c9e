//! The number from 0 on that stands for a value.

ghost use Rattle.std.specs.Prelude.{◌≡◌, ◌<◌, ◌^◌};
ghost use Rattle.ff_flac_subframe.specs.rice.Rice.{zigzagged};

/// The number from 0 on that stands for a value: 0, 1, 2, 3 .. for 0, -1, 1, -2 ..
pub(crate) fn zigzag_of(x: i32) -> u32
    requires { zigzagged x < 2 ^ 31 }
    ensures { result ≡ zigzagged x }
{
    let twice = 2 * x;
    twice.max(-1 - twice) as u32
}
