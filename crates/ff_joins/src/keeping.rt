//! The sample frames that an input of `join` keeps.
ghost use Rattle.std.specs.Prelude.{◌≡◌, ◌≤◌, ◌*◌, ◌/◌, ◌++◌, [], length, true, false, OnOk, OnErr, IfErr};
ghost use Rattle.ff_stream.specs.declared.item.Item.TheVariants.{Audio};
ghost use Rattle.ff_filter.specs.Joins.{Flow, before};
ghost use Rattle.ff_filter.specs.Made.{is_over as is_over_by};
ghost use Rattle.ff_filter.specs.Views.{closes};
ghost use Rattle.ff_joins.specs.Joined.{rows_of, split_rows};
ghost use Rattle.ff_joins.specs.JoinOptions.{channels_of as channels_of_head};
ghost use Rattle.ff_joins.specs.laws.Lots.{lot_of, rows_kept, comes, skipped};

use crate::join_options::channels;
use crate::sample_queue::SampleQueue;
use crate::sound_inlet::SoundInlet;
use ff_filter::{After, closing_of};
use ff_frame::{AFrame, StreamHead};
use ff_stream::{Item, Refused, discard, shared};
use std::alloc::Global;

// How many samples so many sample frames are, at most so many.
#[tactic(auto, using(crate::proofs::Framing::few_samples))]
fn samples_in(count: usize, channels: u8, most: usize) -> usize
    requires { count * channels ≤ most }
    ensures { result ≡ count * channels }
{
    count * channels as usize
}

impl SoundInlet {
    /// Nothing came yet.
    pub fn new(alloc: Global, head: StreamHead) -> SoundInlet
        ensures head { result.head ≡ head }
        ensures samples { result.samples ≡ [] }
        ensures count { result.count ≡ 0 }
        ensures after { result.after ≡ After.More }
    {
        SoundInlet {
            head,
            samples: SampleQueue::new(alloc),
            count: 0,
            after: After::More,
        }
    }

    // Keeps the sample frames of these samples. False for want of memory: then nothing has changed.
    fn keep_samples(&mut self, more: &[i32]) -> bool
        ensures kept { result ≡ true → rows_kept (lot_of self.new) ≡ rows_kept (lot_of self.old)
            ++ split_rows (channels_of_head self.old.head) (length more.now / channels_of_head self.old.head) more.now }
        ensures same { result ≡ false → lot_of self.new ≡ lot_of self.old }
        ensures head { self.new.head ≡ self.old.head }
        ensures after { self.new.after ≡ self.old.after }
    {
        let channels = channels(&self.head);
        let count = shared(more.len(), channels as usize);
        let wanted = samples_in(count, channels, more.len());
        match self.count.checked_add(count) {
            None => false,
            Some(total) => {
                if self.samples.push(&more[..wanted]).is_err() {
                    return false;
                }
                self.count = total;
                true
            }
        }
    }

    // Takes the sample frames of these samples over, where none wait.
    fn replace_samples(&mut self, samples: Vec<i32>)
        requires none { self.old.count ≡ 0 }
        ensures kept { rows_kept (lot_of self.new) ≡ split_rows (channels_of_head self.old.head) (length samples.items / channels_of_head self.old.head) samples.items }
        ensures head { self.new.head ≡ self.old.head }
        ensures after { self.new.after ≡ self.old.after }
    {
        let mut samples = samples;
        let channels = channels(&self.head);
        let count = shared(samples.len(), channels as usize);
        let wanted = samples_in(count, channels, samples.len());
        samples.truncate(wanted);
        self.samples.replace(samples);
        self.count = count;
    }

    // Keeps the sample frames of a frame. For want of memory it comes back, and nothing has changed.
    fn keep_frame(&mut self, frame: AFrame) -> Result<(), Refused>
        ensures kept { OnOk result (rows_kept (lot_of self.new) ≡ rows_kept (lot_of self.old)
            ++ split_rows (channels_of_head self.old.head) (length frame.samples / channels_of_head self.old.head) frame.samples) }
        ensures refused { IfErr result (λ r. r.item ≡ Audio frame) }
        ensures unchanged { OnErr result (lot_of self.new ≡ lot_of self.old) }
        ensures head { self.new.head ≡ self.old.head }
        ensures after { self.new.after ≡ self.old.after }
    {
        if self.count == 0 {
            self.replace_samples(frame.samples.into_vec());
            return Ok(());
        }
        if self.keep_samples(frame.samples.as_slice()) {
            Ok(())
        } else {
            Err(Refused {
                item: Item::Audio(frame),
            })
        }
    }

    // Keeps the sample frames of an item, where it has the channels of the input. For want of memory it comes back, and nothing
    // has changed.
    fn keep(&mut self, item: Item) -> Result<(), Refused>
        ensures kept { OnOk result (rows_kept (lot_of self.new) ≡ rows_kept (lot_of self.old) ++ rows_of (channels_of_head self.old.head) item) }
        ensures refused { IfErr result (λ r. r.item ≡ item) }
        ensures unchanged { OnErr result (lot_of self.new ≡ lot_of self.old) }
        ensures head { self.new.head ≡ self.old.head }
        ensures after { self.new.after ≡ self.old.after }
    {
        match item {
            Item::Audio(frame) => {
                if frame.channels == channels(&self.head) {
                    self.keep_frame(frame)
                } else {
                    Ok(())
                }
            }
            Item::Video(_) | Item::Packet(_) | Item::Trailer(_) | Item::End | Item::Broken => {
                Ok(())
            }
        }
    }

    /// Takes an item in, of which it keeps the sample frames. For want of memory it comes back, and nothing has changed.
    pub fn take_in(&mut self, item: Item) -> Result<(), Refused>
        requires open { is_over_by self.old.after ≡ false }
        ensures taken { OnOk result ((t : Flow) → comes (lot_of self.new) t ≡ comes (lot_of self.old) (before item t)) }
        ensures shut { OnOk result (is_over_by self.new.after ≡ closes item) }
        ensures head { self.new.head ≡ self.old.head }
        ensures refused { IfErr result (λ r. r.item ≡ item) }
        ensures unchanged { OnErr result (lot_of self.new ≡ lot_of self.old) }
    {
        match closing_of(&item) {
            Some(after) => {
                discard(item);
                self.after = after;
                Ok(())
            }
            None => self.keep(item),
        }
    }

    /// The input closes so.
    pub fn close(&mut self, after: After)
        ensures head { self.new.head ≡ self.old.head }
        ensures count { self.new.count ≡ self.old.count }
        ensures samples { self.new.samples ≡ self.old.samples }
        ensures after { self.new.after ≡ after }
    {
        self.after = after;
    }

    /// Lets the first sample frames go.
    pub fn skip(&mut self, count: usize)
        requires { count ≤ self.old.count }
        ensures lot { lot_of self.new ≡ skipped count (lot_of self.old) }
        ensures head { self.new.head ≡ self.old.head }
    {
        let waiting = self.samples.as_slice().len();
        let samples = samples_in(count, channels(&self.head), waiting);
        self.samples.skip(samples);
        self.count -= count;
    }
}
