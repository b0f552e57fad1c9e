//! What is known of any bytes.
ghost use Rattle.std.specs.Prelude.{◌<◌, ℕ, All, slice_index};

/// Bytes are numbers below 256. It does nothing: its clauses are for proofs.
pub fn know_bytes(bytes: &[u8])
    ensures all { All (λ b. b < 256) bytes.now }
    ensures each { (i : ℕ) → slice_index bytes.now i < 256 }
{
    let _count = bytes.len();
}
