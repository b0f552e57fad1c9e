//! The shortest coded number of a value.

ghost use Rattle.std.specs.Prelude.{◌≡◌, ◌≤◌, ◌<◌, ◌+◌, ◌*◌, ◌^◌, ◌/◌, ◌%◌};
ghost use Rattle.ff_bits.specs.Bits.{bits_of};
ghost use Rattle.ff_bits.specs.Number.{capacity, fewest, first_byte, shortest};

/// Some bits, as the lowest of a number.
#[derive(Clone, Copy)]
pub struct Code {
    /// The number whose lowest bits they are.
    pub bits: u64,
    /// How many bits there are, at most 56.
    pub count: u32,
}

/// The shortest coded number of a value.
pub fn shortest_code(value: u64) -> Code
    requires { value < 2 ^ 36 }
    ensures code { bits_of result.count result.bits ≡ shortest value }
    ensures within { result.bits < 2 ^ result.count }
    ensures few { result.count ≤ 56 }
{
    let further = fewest_further(value);
    let mut bits = first(value, further);
    for i in 0..further {
        let six = (value >> (6 * (further - 1 - i))) & 0x3f;
        bits = bits * 256 + 0x80 + six;
    }
    Code {
        bits,
        count: 8 * further + 8,
    }
}

/// How many bytes follow the first.
fn fewest_further(value: u64) -> u32
    requires { value < 2 ^ 36 }
    ensures fewest { result ≡ fewest value }
    ensures few { result ≤ 6 }
    ensures room { value < 2 ^ capacity result }
{
    match value {
        0..=0x7f => 0,
        0x80..=0x7ff => 1,
        0x800..=0xffff => 2,
        0x1_0000..=0x1f_ffff => 3,
        0x20_0000..=0x3ff_ffff => 4,
        0x400_0000..=0x7fff_ffff => 5,
        _ => 6,
    }
}

/// The first byte, where so many follow.
fn first(value: u64, further: u32) -> u64
    requires few { further ≤ 6 }
    requires room { value < 2 ^ capacity further }
    ensures byte { bits_of 8 result ≡ first_byte further value }
    ensures small { result < 256 }
{
    if further == 0 {
        return value;
    }
    256 - (1u64 << (7 - further)) + (value >> (6 * further))
}
