//! The Adler-32 sum of bytes, in runs so short that neither sum passes its integer.
ghost use Rattle.std.specs.Prelude.{◌≡◌, ◌+◌, ◌*◌, ◌%◌, ◌<◌, ◌≤◌, length};
ghost use Rattle.ff_mux.specs.Adler.{byte_sum, sum_of_sums, adler32 as adler32_of};

/// What both sums are taken modulo.
const MODULUS: u64 = 65_521;

/// The bytes of a run.
const RUN: usize = 65_536;

/// The sum of bytes and the sum of these sums.
#[derive(Clone, Copy)]
pub(crate) struct Sums {
    pub(crate) bytes: u64,
    pub(crate) sums: u64,
}

// The sums after a run of bytes, not yet reduced.
fn after_run(begun: Sums, run: &[u8]) -> Sums
    requires few { length run.now ≤ 65536 }
    requires small_bytes { begun.bytes < 65536 }
    requires small_sums { begun.sums < 65536 }
    ensures bytes { result.bytes ≡ byte_sum begun.bytes run.now }
    ensures sums { result.sums ≡ sum_of_sums begun.bytes begun.sums run.now }
{
    let mut bytes = begun.bytes;
    let mut sums = begun.sums;
    for byte in run {
        bytes += u64::from(*byte);
        sums += bytes;
    }
    Sums { bytes, sums }
}

fn reduced(sums: Sums) -> Sums
    ensures bytes { result.bytes ≡ sums.bytes % 65521 }
    ensures sums { result.sums ≡ sums.sums % 65521 }
{
    Sums {
        bytes: sums.bytes % MODULUS,
        sums: sums.sums % MODULUS,
    }
}

/// The sums after some bytes more, each modulo 65,521.
pub(crate) fn sums_after(begun: Sums, bytes: &[u8]) -> Sums
    requires small_bytes { begun.bytes < 65521 }
    requires small_sums { begun.sums < 65521 }
    ensures bytes { result.bytes ≡ byte_sum begun.bytes bytes.now % 65521 }
    ensures sums { result.sums ≡ sum_of_sums begun.bytes begun.sums bytes.now % 65521 }
    ensures few_bytes { result.bytes < 65521 }
    ensures few_sums { result.sums < 65521 }
{
    let mut sums = begun;
    let mut at = 0;
    'runs: while at < bytes.len() {
        let end = at + RUN.min(bytes.len() - at);
        sums = reduced(after_run(sums, &bytes[at..end]));
        at = end;
    }
    sums
}

/// Both sums as one number of 32 bits.
pub(crate) fn both(sums: Sums) -> u32
    requires small_bytes { sums.bytes < 65521 }
    requires small_sums { sums.sums < 65521 }
    ensures { result ≡ sums.sums * 65536 + sums.bytes }
{
    (sums.sums * 65_536 + sums.bytes) as u32
}

/// The sum of some bytes, where that of the bytes begins at a number (RFC 1950, section 2.2).
#[tactic(auto, unfolding(crate::specs::Adler::adler32))]
pub(crate) fn adler32(begun: u32, bytes: &[u8]) -> u32
    requires { begun < 65521 }
    ensures { result ≡ adler32_of begun bytes.now }
{
    let begun = Sums {
        bytes: u64::from(begun),
        sums: 0,
    };
    both(sums_after(begun, bytes))
}
