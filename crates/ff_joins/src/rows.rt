//! The sample frames that wait on several inputs.
ghost use Rattle.std.specs.Prelude.{◌≡◌, ◌⊎◌, ◌≤◌, ◌<◌, ◌^◌, ℕ, map, length, true, false};
ghost use Rattle.ff_joins.specs.laws.JoinCuts.{width_to};
ghost use Rattle.ff_joins.specs.laws.Lots.{lots, lane_of, skipped};

use crate::join_options::channels;
use crate::sound_inlet::SoundInlet;
use ff_filter::After;

/// Lets the first sample frames of each input go.
pub fn skip_rows(inlets: &mut Vec<SoundInlet>, count: usize)
    requires { (p : ℕ) → p < length inlets.old.items → count ≤ (lots inlets.old.items p).count }
    ensures lots { (p : ℕ) → lots inlets.new.items p ≡ skipped count (lots inlets.old.items p) }
    ensures lanes { map lane_of inlets.new.items ≡ map lane_of inlets.old.items }
    ensures len { length inlets.new.items ≡ length inlets.old.items }
{
    'skip: for p in 0..inlets.len() {
        inlets[p].skip(count);
    }
}

// The smaller of two numbers.
fn lesser(a: usize, b: usize) -> usize
    ensures left { result ≤ a }
    ensures right { result ≤ b }
    ensures either { (result ≡ a) ⊎ (result ≡ b) }
{
    if a < b { a } else { b }
}

/// The fewest sample frames that wait on one of these inputs.
pub fn fewest(inlets: &[SoundInlet]) -> usize
    requires { 0 < length inlets.now }
    ensures least { (p : ℕ) → p < length inlets.now → result ≤ (lots inlets.now p).count }
    ensures there { (p : ℕ) × (p < length inlets.now) × ((lots inlets.now p).count ≡ result) }
{
    let mut least = inlets[0].count;
    'each: for p in 0..inlets.len() {
        least = lesser(inlets[p].count, least);
    }
    least
}

// Whether so many sample frames wait on an input, and it stands so after them.
fn stands_so(inlet: &SoundInlet, count: usize, after: After) -> bool
    ensures yes { result ≡ true → (inlet.now.count ≡ count) × (inlet.now.after ≡ after) }
    ensures no { result ≡ false → inlet.now.count ≡ count → inlet.now.after ≡ after → ⊥ }
{
    inlet.count == count && inlet.after == after
}

/// Whether an input on which so many sample frames wait stands so after them.
pub fn any_stands(inlets: &[SoundInlet], count: usize, after: After) -> bool
    ensures yes { result ≡ true → (p : ℕ) × (p < length inlets.now) × ((lots inlets.now p).count ≡ count) × ((lots inlets.now p).after ≡ after) }
    ensures no { result ≡ false → (p : ℕ) → p < length inlets.now → (lots inlets.now p).count ≡ count → (lots inlets.now p).after ≡ after → ⊥ }
{
    'each: for p in 0..inlets.len() {
        if stands_so(&inlets[p], count, after) {
            return true;
        }
    }
    false
}

/// The channels of these inputs.
pub fn width(inlets: &[SoundInlet]) -> u128
    ensures is { result ≡ width_to (lots inlets.now) (length inlets.now) }
    ensures near { result ≤ 2 ^ 72 }
{
    let mut total: u128 = 0;
    'each: for p in 0..inlets.len() {
        total += channels(&inlets[p].head) as u128;
    }
    total
}
