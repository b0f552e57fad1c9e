//! Which outputs are there already.
ghost use Rattle.std.specs.Prelude.{◌≡◌, ◌<◌, ◌^◌, ℕ, length, Some, None, Ok, true, false, option_copied};
ghost use Rattle.ff_files.specs.Names.{files_of};
ghost use Rattle.ff_files.specs.There.{AreFree, IsFirstThere, IsFreeOf, IsThere};

use crate::named::{OutputFile, file_at};
use ff_host::Host;
use std::alloc::AllocError;

// Whether a file of this name is there; without a name there is none.
#[tactic(auto, using(crate::proofs::Free::there_told, crate::proofs::Free::free_told))]
fn is_there<H: Host>(host: &H, name: Option<&str>) -> Result<bool, AllocError>
    ensures there { result ≡ Ok true → IsThere (H.files host.now) (option_copied name.entry) }
    ensures free { result ≡ Ok false → IsFreeOf (H.files host.now) (option_copied name.entry) }
{
    match name {
        None => Ok(false),
        Some(name) => host.exists(name),
    }
}

/// The number of the first of these outputs whose file is there, or None where none is. Refused for want of memory alone.
#[tactic(auto, using(crate::proofs::Free::free_next))]
pub fn first_there<H: Host, N: OutputFile>(host: &H, files: &[N]) -> Result<Option<u32>, AllocError>
    requires few { length files.now < 2 ^ 32 }
    ensures first { (k : ℕ) → result ≡ Ok (Some k) → IsFirstThere (H.files host.now) (files_of N.file_name files.now) k }
    ensures free { result ≡ Ok None → AreFree (H.files host.now) (files_of N.file_name files.now) (length files.now) }
{
    for k in 0..files.len() {
        if is_there(host, file_at(files, k))? {
            return Ok(Some(k as u32));
        }
    }
    Ok(None)
}
