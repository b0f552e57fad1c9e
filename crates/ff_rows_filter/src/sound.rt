//! Samples, as a table has them: channel by channel with `|` between them, each of them runs of numbers that rise by
//! one.
use crate::fields::Fields;
use crate::table::Stop;
use crate::told::Told;
use std::alloc::Global;

// The samples of a run: `FIRST~LAST`, or one number.
fn add_run(fields: &mut Fields, samples: &mut Vec<i32>, text: &str) {
    let (first, last) = text.split_once('~').unwrap_or((text, text));
    let (Ok(first), Ok(last)) = (first.parse::<i32>(), last.parse::<i32>()) else {
        return fields.fail(Stop::Unreadable);
    };
    for sample in first..=last {
        if !fields.note(samples.push(sample)) {
            return;
        }
    }
}

fn read_channel(alloc: Global, fields: &mut Fields, text: &str) -> Vec<i32> {
    let mut samples = Vec::new(alloc);
    for run in text.split(',') {
        add_run(fields, &mut samples, run);
    }
    samples
}

// The samples of all channels at one place.
fn add_row(fields: &mut Fields, out: &mut Vec<i32>, channels: &[Vec<i32>], place: usize) {
    for channel in channels {
        match channel.get(place) {
            Some(sample) => {
                fields.note(out.push(*sample));
            }
            None => fields.fail(Stop::Unreadable),
        }
    }
}

/// The samples of all that is left, interleaved by channel.
pub fn read_samples(alloc: Global, fields: &mut Fields) -> Vec<i32> {
    let mut channels = Vec::new(alloc);
    let mut most = 0;
    for channel in fields.rest().split('|') {
        let channel = read_channel(alloc, fields, channel);
        most = channel.len().max(most);
        fields.note(channels.push(channel));
    }
    let mut out = Vec::new(alloc);
    for place in 0..most {
        add_row(fields, &mut out, channels.as_slice(), place);
    }
    out
}

// What is told of a channel: whether a run stands before, and the run that goes on.
#[derive(Drop)]
struct Runs {
    begun: bool,
    run: Option<(i32, i32)>,
}

impl Runs {
    // Writes the run that goes on.
    fn end_run(&mut self, told: &mut Told) {
        let Some((first, last)) = self.run else {
            return;
        };
        if self.begun {
            told.text(",");
        }
        self.begun = true;
        told.number(i64::from(first));
        if first != last {
            told.text("~");
            told.number(i64::from(last));
        }
    }

    fn add(&mut self, told: &mut Told, sample: i32) {
        if let Some((first, last)) = self.run
            && sample as i64 == last as i64 + 1
        {
            self.run = Some((first, sample));
            return;
        }
        self.end_run(told);
        self.run = Some((sample, sample));
    }
}

fn tell_channel(told: &mut Told, samples: &[i32], channels: usize, channel: usize) {
    let mut runs = Runs {
        begun: false,
        run: None,
    };
    for (place, sample) in samples.iter().enumerate() {
        if channels > 0 && place % channels == channel {
            runs.add(told, *sample);
        }
    }
    runs.end_run(told);
}

/// Writes samples that are interleaved by channel.
pub fn tell_samples(told: &mut Told, samples: &[i32], channels: usize) {
    for channel in 0..channels {
        if channel > 0 {
            told.text("|");
        }
        tell_channel(told, samples, channels, channel);
    }
}
