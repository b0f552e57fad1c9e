//! The files of the run over generated input.
ghost use Rattle.std.specs.Prelude.{◌≡◌, ◌≤◌, IfOk};
ghost use Rattle.ff_host.specs.laws.memory.QuietHost.{quiet_files};
ghost use Rattle.ff_selfrun.specs.SelfRun.{own_files};

use crate::generated::{gen_wav, gen_y4m};
use ff_host::QuietHost;
use std::alloc::{AllocError, Global};

/// A host in memory that has the two inputs, of so many seconds.
pub fn own_host(alloc: Global, seconds: u32) -> Result<QuietHost, AllocError>
    requires { seconds ≤ 3600 }
    ensures { IfOk result (λ host. quiet_files host ≡ own_files seconds) }
{
    let sound_name = String::from_str(alloc, "a.wav")?;
    let sound = gen_wav(alloc, seconds)?;
    let pictures_name = String::from_str(alloc, "v.y4m")?;
    let pictures = gen_y4m(alloc, seconds)?;
    let mut files = Vec::new(alloc);
    files.push((sound_name, sound))?;
    files.push((pictures_name, pictures))?;
    QuietHost::new(alloc, files)
}
