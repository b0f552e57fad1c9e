//! The 20 machine words of the cell. 16 are last dts (all ones for none). One each holds the marks, the best inputs
//! and the count, and one stays 0.
ghost use Rattle.std.specs.Prelude.{◌≡◌, ◌≢◌, ◌+◌, ◌<◌, ◌^◌, ℕ};
ghost use Rattle.std.specs.Prelude.{length, slice_index, if◌then◌else◌};
ghost use Rattle.std.specs.Int.{bit_at};
ghost use Rattle.ff_sched.specs.Bits.{four_at};
ghost use Rattle.ff_sched.specs.laws.Words.{state_of};
ghost use Rattle.ff_sched.specs.Events.{step_of, IsSmall};

use ff_frame::Event;

/// The number of the word of marks: streams that finished in bits 0 to 15, sources that exited in bits 16 to 31.
pub const MARKS: usize = 16;

/// The number of the word of best inputs, 4 bits a graph.
pub const BEST: usize = 17;

/// The number of the word that counts the events.
pub const COUNT: usize = 18;

// The word with this bit so.
fn with_bit(word: u64, bit: u32, on: bool) -> u64
    requires { bit < 64 }
    ensures same { bit_at result bit ≡ if on then 1 else 0 }
    ensures others { (i : ℕ) → i < 64 → i ≢ bit → bit_at result i ≡ bit_at word i }
{
    if on {
        word | 1 << bit
    } else {
        word & !(1 << bit)
    }
}

// The word with this number in the four bits of this place.
fn with_four(word: u64, place: u32, number: u32) -> u64
    requires place { place < 16 }
    requires number { number < 16 }
    ensures same { four_at result place ≡ number }
    ensures others { (h : ℕ) → h < 16 → h ≢ place → four_at result h ≡ four_at word h }
{
    let at = 4 * place;
    let first = with_bit(word, at, number % 2 == 1);
    let second = with_bit(first, at + 1, number / 2 % 2 == 1);
    let third = with_bit(second, at + 2, number / 4 % 2 == 1);
    with_bit(third, at + 3, number / 8 == 1)
}

/// The words after an event.
pub fn stepped(mut words: [u64; 20], event: Event) -> [u64; 20]
    requires small { IsSmall event }
    requires wide { length words ≡ 20 }
    requires count { slice_index words 18 + 1 < 2 ^ 64 }
    ensures { state_of result ≡ step_of (state_of words) event }
{
    match event {
        Event::Grant(_) => {}
        Event::Sent(stream, time) => words[stream as usize] = time,
        Event::Finished(stream) => words[MARKS] = with_bit(words[MARKS], stream, true),
        Event::Best(graph, input) => words[BEST] = with_four(words[BEST], graph, input),
        Event::Exited(source) => words[MARKS] = with_bit(words[MARKS], 16 + source, true),
    }
    words[COUNT] += 1;
    words
}
