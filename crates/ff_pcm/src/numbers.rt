//! Numbers of two to four bytes, read and written.
ghost use Rattle.std.specs.Prelude.{◌≡◌, ◌+◌, ◌<◌, ◌≤◌, ◌^◌, ◌⊎◌, ℕ, length, slice_index};
ghost use Rattle.ff_pcm.specs.Samples.{number, high_number};

/// The number in the two bytes at a place, the lowest first.
pub(crate) fn number_2(bytes: &[u8], place: usize) -> u32
    requires { place + 2 ≤ length bytes.now }
    ensures value { result ≡ number 2 place bytes.now }
    ensures few { result < 2 ^ 16 }
{
    bytes[place] as u32 + 256 * bytes[place + 1] as u32
}

/// The number in the three bytes at a place, the lowest first.
pub(crate) fn number_3(bytes: &[u8], place: usize) -> u32
    requires { place + 3 ≤ length bytes.now }
    ensures value { result ≡ number 3 place bytes.now }
    ensures few { result < 2 ^ 24 }
{
    bytes[place] as u32 + 256 * bytes[place + 1] as u32 + 65536 * bytes[place + 2] as u32
}

/// The number in the four bytes at a place, the lowest first.
pub(crate) fn number_4(bytes: &[u8], place: usize) -> u32
    requires { place + 4 ≤ length bytes.now }
    ensures { result ≡ number 4 place bytes.now }
{
    number_3(bytes, place) + 16777216 * bytes[place + 3] as u32
}

/// The number in the two bytes at a place, the highest first.
pub(crate) fn high_number_2(bytes: &[u8], place: usize) -> u32
    requires { place + 2 ≤ length bytes.now }
    ensures value { result ≡ high_number 2 place bytes.now }
    ensures few { result < 2 ^ 16 }
{
    256 * bytes[place] as u32 + bytes[place + 1] as u32
}

/// The number in the three bytes at a place, the highest first.
pub(crate) fn high_number_3(bytes: &[u8], place: usize) -> u32
    requires { place + 3 ≤ length bytes.now }
    ensures value { result ≡ high_number 3 place bytes.now }
    ensures few { result < 2 ^ 24 }
{
    65536 * bytes[place] as u32 + 256 * bytes[place + 1] as u32 + bytes[place + 2] as u32
}

/// The number in the four bytes at a place, the highest first.
pub(crate) fn high_number_4(bytes: &[u8], place: usize) -> u32
    requires { place + 4 ≤ length bytes.now }
    ensures { result ≡ high_number 4 place bytes.now }
{
    256 * high_number_3(bytes, place) + bytes[place + 3] as u32
}

/// Writes a number into the two bytes at a place, the lowest first.
pub(crate) fn put_2(bytes: &mut [u8], place: usize, n: u32)
    requires there { place + 2 ≤ length bytes.old }
    requires small { n < 2 ^ 16 }
    ensures here { number 2 place bytes.new ≡ n }
    ensures others { (i : ℕ) → (i < place) ⊎ (place + 2 ≤ i) → slice_index bytes.new i ≡ slice_index bytes.old i }
{
    bytes[place] = (n % 256) as u8;
    bytes[place + 1] = (n / 256) as u8;
}

/// Writes a number into the three bytes at a place, the lowest first.
pub(crate) fn put_3(bytes: &mut [u8], place: usize, n: u32)
    requires there { place + 3 ≤ length bytes.old }
    requires small { n < 2 ^ 24 }
    ensures here { number 3 place bytes.new ≡ n }
    ensures others { (i : ℕ) → (i < place) ⊎ (place + 3 ≤ i) → slice_index bytes.new i ≡ slice_index bytes.old i }
{
    bytes[place] = (n % 256) as u8;
    put_2(bytes, place + 1, n / 256);
}

/// Writes a number into the four bytes at a place, the lowest first.
pub(crate) fn put_4(bytes: &mut [u8], place: usize, n: u32)
    requires there { place + 4 ≤ length bytes.old }
    ensures here { number 4 place bytes.new ≡ n }
    ensures others { (i : ℕ) → (i < place) ⊎ (place + 4 ≤ i) → slice_index bytes.new i ≡ slice_index bytes.old i }
{
    bytes[place] = (n % 256) as u8;
    put_3(bytes, place + 1, n / 256);
}

/// Writes a number into the two bytes at a place, the highest first.
pub(crate) fn put_high_2(bytes: &mut [u8], place: usize, n: u32)
    requires there { place + 2 ≤ length bytes.old }
    requires small { n < 2 ^ 16 }
    ensures here { high_number 2 place bytes.new ≡ n }
    ensures others { (i : ℕ) → (i < place) ⊎ (place + 2 ≤ i) → slice_index bytes.new i ≡ slice_index bytes.old i }
{
    bytes[place] = (n / 256) as u8;
    bytes[place + 1] = (n % 256) as u8;
}

/// Writes a number into the three bytes at a place, the highest first.
pub(crate) fn put_high_3(bytes: &mut [u8], place: usize, n: u32)
    requires there { place + 3 ≤ length bytes.old }
    requires small { n < 2 ^ 24 }
    ensures here { high_number 3 place bytes.new ≡ n }
    ensures others { (i : ℕ) → (i < place) ⊎ (place + 3 ≤ i) → slice_index bytes.new i ≡ slice_index bytes.old i }
{
    put_high_2(bytes, place, n / 256);
    bytes[place + 2] = (n % 256) as u8;
}

/// Writes a number into the four bytes at a place, the highest first.
pub(crate) fn put_high_4(bytes: &mut [u8], place: usize, n: u32)
    requires there { place + 4 ≤ length bytes.old }
    ensures here { high_number 4 place bytes.new ≡ n }
    ensures others { (i : ℕ) → (i < place) ⊎ (place + 4 ≤ i) → slice_index bytes.new i ≡ slice_index bytes.old i }
{
    put_high_3(bytes, place, n / 256);
    bytes[place + 3] = (n % 256) as u8;
}
