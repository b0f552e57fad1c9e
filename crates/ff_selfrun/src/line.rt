//! The line that the run over generated input prints.
ghost use Rattle.std.specs.Prelude.{◌≡◌, ◌++◌, IfOk, codes, decimal, length, string_bytes};
ghost use Rattle.hex.specs.Hex.{encode_lower};
ghost use Rattle.sha2.specs.Sha256.{sha256};
ghost use Rattle.ff_lists.specs.Text.{line};
ghost use Rattle.ff_selfrun.specs.SelfRun.{own_line as line_of};

use sha2::{Digest, Sha256};
use std::alloc::{AllocError, Global};

// The digest of some bytes in lower case hexadecimal (FIPS 180-4).
fn digest_text(alloc: Global, bytes: &[u8]) -> Result<String, AllocError>
    ensures { IfOk result (λ text. string_bytes text ≡ encode_lower (sha256 bytes.now)) }
{
    hex::encode(alloc, Sha256::digest(bytes))
}

fn text_of(alloc: Global, seconds: u32, count: usize, digest: &str) -> Result<String, AllocError>
    ensures { IfOk result (λ text. string_bytes text
        ≡ line (codes "selfrun " ++ decimal seconds ++ codes ": " ++ decimal count ++ codes " bytes, sha256 " ++ digest.now)) }
{
    format!(in alloc; "selfrun {seconds}: {count} bytes, sha256 {digest}\n")
}

/// The line of a run of so many seconds that wrote these bytes: their number, and their digest.
#[tactic(auto, unfolding(crate::specs::SelfRun::own_line))]
pub fn own_line(alloc: Global, seconds: u32, bytes: &[u8]) -> Result<Vec<u8>, AllocError>
    ensures { IfOk result (λ text. text.items ≡ line_of seconds bytes.now) }
{
    let digest = digest_text(alloc, bytes)?;
    Ok(text_of(alloc, seconds, bytes.len(), digest.as_str())?.into_bytes())
}
