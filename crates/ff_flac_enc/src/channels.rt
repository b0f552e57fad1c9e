//! The channels of interleaved samples.

ghost use Rattle.std.specs.Prelude.{◌≡◌, ◌+◌, ◌*◌, ◌/◌, ◌<◌, ◌≤◌, length, map, IfOk};
ghost use Rattle.std.specs.List.{range_with_len};
ghost use Rattle.ff_flac_enc.specs.Channels.{channel_of};

use std::alloc::{AllocError, Global};

/// So many samples, to be written.
pub fn zeros(alloc: Global, count: usize) -> Result<Vec<i32>, AllocError>
    ensures { IfOk result (λ v. length v.items ≡ count) }
{
    vec![in alloc; 0; count]
}

/// Writes the samples of one channel.
fn pick_each(out: &mut [i32], samples: &[i32], n: usize, c: usize)
    requires some { 0 < n }
    requires one { c < n }
    requires few { n ≤ 8 }
    requires len { length out.old ≡ length samples.now / n }
    ensures { out.new ≡ channel_of n samples.now c }
{
    for t in 0..out.len() {
        out[t] = samples[t * n + c];
    }
}

/// The samples of one channel.
pub fn channel(alloc: Global, samples: &[i32], n: usize, c: usize) -> Result<Vec<i32>, AllocError>
    requires some { 0 < n }
    requires one { c < n }
    requires few { n ≤ 8 }
    ensures { IfOk result (λ v. v.items ≡ channel_of n samples.now c) }
{
    let mut out = zeros(alloc, samples.len() / n)?;
    pick_each(&mut out, samples, n, c);
    Ok(out)
}

/// Writes the samples of two channels.
fn split(left: &mut [i32], right: &mut [i32], samples: &[i32])
    requires left { length left.old ≡ length samples.now / 2 }
    requires right { length right.old ≡ length samples.now / 2 }
    ensures left { left.new ≡ channel_of 2 samples.now 0 }
    ensures right { right.new ≡ channel_of 2 samples.now 1 }
{
    for t in 0..left.len() {
        left[t] = samples[t * 2];
        right[t] = samples[t * 2 + 1];
    }
}

/// The samples of two channels.
pub fn two_channels(alloc: Global, samples: &[i32]) -> Result<(Vec<i32>, Vec<i32>), AllocError>
    ensures left { IfOk result (λ two. two.0.items ≡ channel_of 2 samples.now 0) }
    ensures right { IfOk result (λ two. two.1.items ≡ channel_of 2 samples.now 1) }
{
    let count = samples.len() / 2;
    let mut left = zeros(alloc, count)?;
    let mut right = zeros(alloc, count)?;
    split(&mut left, &mut right, samples);
    Ok((left, right))
}
