//! Filters of video frames of 1920x1080 in 4:2:0, from memory to memory, measured.

use ff_filter::Filter;
use ff_frame::{Bytes, ConfigError, Format, StreamHead, VFrame};
use ff_fsync::{HStack, VStack};
use ff_lang::{Filter as Named, read_graph};
use ff_stream::Item;
use ff_time::Rational;
use ff_vfilter::{Crop, Fps, HFlip, Pad, Split, VFlip};
use std::alloc::{AllocError, Global};
use std::io;
use std::rt::Clock;
use std::time::{Duration, Instant};

/// The bytes of a frame's planes.
const PLANES: usize = 3_110_400;

/// How many frames are made at a time for each input.
const FRAMES: u64 = 24;

/// How often so many are made and go through.
const ROUNDS: u64 = 12;

/// The filters that are measured.
const GRAPH: &str = "hflip,vflip,crop=1280:720,pad=2048:1152:64:36,split,fps=50,hstack,vstack";

/// A filter that is measured: how many frames went in, and how long it took.
#[derive(Drop)]
struct Measured<F> {
    alloc: Global,
    filter: F,
    fed: u64,
    sum: u64,
    time: Duration,
}

/// Prints how many megabytes go in a second, for each filter.
pub fn measure(rt: &(impl Print + AllocGlobal + Clock)) -> io::Result<()> {
    let Ok(graph) = read_graph(rt.alloc(), GRAPH) else {
        return Ok(());
    };
    for chain in graph.chains.as_slice() {
        for named in chain.filters.as_slice() {
            of_filter(rt, named)?;
        }
    }
    Ok(())
}

/// The heads of so many inputs.
fn heads_of(alloc: Global, count: usize, tb: Rational) -> Result<Vec<StreamHead>, AllocError> {
    let mut heads = Vec::new(alloc);
    for _ in 0..count {
        heads.push(StreamHead::Video {
            tb,
            format: Format::C420,
            width: 1920,
            height: 1080,
            sar_num: 1,
            sar_den: 1,
        })?;
    }
    Ok(heads)
}

fn of_filter(rt: &(impl Print + AllocGlobal + Clock), named: &Named) -> io::Result<()> {
    let Ok(tb) = Rational::new(1, 25) else {
        return Ok(());
    };
    let (alloc, args) = (rt.alloc(), named.args.as_slice());
    let one = heads_of(alloc, 1, tb)?;
    let two = heads_of(alloc, 2, tb)?;
    match named.name.as_str() {
        "hflip" => run(rt, named, HFlip::configure(alloc, args, one.as_slice())),
        "vflip" => run(rt, named, VFlip::configure(alloc, args, one.as_slice())),
        "crop" => run(rt, named, Crop::configure(alloc, args, one.as_slice())),
        "pad" => run(rt, named, Pad::configure(alloc, args, one.as_slice())),
        "split" => run(rt, named, Split::configure(alloc, args, one.as_slice())),
        "fps" => run(rt, named, Fps::configure(alloc, args, one.as_slice())),
        "hstack" => run(rt, named, HStack::configure(alloc, args, two.as_slice())),
        "vstack" => run(rt, named, VStack::configure(alloc, args, two.as_slice())),
        _ => Ok(()),
    }
}

/// Runs a filter, and prints its speed.
fn run<F: Filter>(
    rt: &(impl Print + AllocGlobal + Clock),
    named: &Named,
    made: Result<(F, Vec<StreamHead>), ConfigError>,
) -> io::Result<()>
where
    F: Drop,
{
    let Ok((filter, _heads)) = made else {
        return Ok(());
    };
    let mut measured = Measured {
        alloc: rt.alloc(),
        filter,
        fed: 0,
        sum: 0,
        time: Duration::from_secs(0),
    };
    for round in 0..ROUNDS {
        let frames = measured.frames(round)?;
        let start = Instant::now(rt)?;
        measured.go(frames)?;
        measured.time = measured.time.saturating_add(start.elapsed(rt)?);
    }
    let fed = measured.fed.min(1_000_000) as f64;
    let megabytes = fed * PLANES as f64 / 1e6 / measured.time.as_secs_f64();
    let (name, sum) = (named.name.as_str(), measured.sum);
    println!(rt; "{name}: {megabytes:.0} MB/s ({sum})")
}

impl<F: Filter> Measured<F> {
    /// A frame at this time.
    fn frame(&self, time: u64) -> Result<Item, AllocError> {
        let mut bytes = Vec::with_capacity(self.alloc, PLANES)?;
        bytes.resize(PLANES, (time % 251) as u8)?;
        Ok(Item::Video(VFrame {
            pts: (time % 1_000_000) as i64,
            duration: 1,
            format: Format::C420,
            width: 1920,
            height: 1080,
            planes: Bytes::new(bytes),
        }))
    }

    /// The frames of a round, each with the input that it is for.
    fn frames(&self, round: u64) -> Result<Vec<(usize, Item)>, AllocError> {
        let mut frames = Vec::new(self.alloc);
        for time in 0..FRAMES {
            for port in 0..self.filter.inputs() {
                let time = round.saturating_mul(FRAMES).saturating_add(time);
                frames.push((port, self.frame(time)?))?;
            }
        }
        Ok(frames)
    }

    /// Feeds the frames, and takes after each all that is due.
    fn go(&mut self, frames: Vec<(usize, Item)>) -> Result<(), AllocError> {
        for (port, item) in frames {
            if port < self.filter.inputs() && !self.filter.is_shut(port) {
                if self.filter.feed(port, item).is_err() {
                    return Err(AllocError);
                }
                self.fed = self.fed.saturating_add(1);
            }
            for port in 0..self.filter.outputs() {
                self.take(port)?;
            }
        }
        Ok(())
    }

    /// Takes what is due on an output, at most eight items, and sums one byte of each.
    fn take(&mut self, port: usize) -> Result<(), AllocError> {
        for _ in 0..8 {
            if port >= self.filter.outputs() || self.filter.is_stopped(port) {
                return Ok(());
            }
            match self.filter.pull(port)? {
                Some(item) => self.sum = self.sum.wrapping_add(last_byte(&item)),
                None => return Ok(()),
            }
        }
        Ok(())
    }
}

fn last_byte(item: &Item) -> u64 {
    match item {
        Item::Video(frame) => match frame.planes.as_slice().last() {
            Some(byte) => *byte as u64,
            None => 0,
        },
        _ => 0,
    }
}
