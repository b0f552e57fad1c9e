//! Tests of a source filter's machine by itself. The times come from the rates, 1,024 sample frames a frame.
use ff_frame::{Event, Ticket};
use ff_net::{Fault, Machine};
use ff_node_demux::{Gen, generator_of};
use ff_source::{Color, GenSource, Made, Pictures, Silence};
use ff_stream::Item;
use ff_time::Rational;
use std::alloc::{AllocError, Global};

// What a pull gave: of a frame its time and how many samples or bytes it has.
#[derive(Clone, Copy, PartialEq, Eq, Debug)]
enum Given {
    /// Sound.
    Sound(i64, usize),
    /// A picture.
    Picture(i64, usize),
    /// The end.
    End,
    /// A break.
    Broken,
    /// Nothing is due.
    Nothing,
    /// Anything else.
    Other,
}

fn next(source: &mut Gen<GenSource>) -> Given {
    match source.pull(0) {
        Ok(Some(Item::Audio(f))) => Given::Sound(f.pts, f.samples.as_slice().len()),
        Ok(Some(Item::Video(f))) => Given::Picture(f.pts, f.planes.as_slice().len()),
        Ok(Some(Item::End)) => Given::End,
        Ok(Some(Item::Broken)) => Given::Broken,
        Ok(None) => Given::Nothing,
        _ => Given::Other,
    }
}

const TICKET: Ticket = Ticket {
    source: 3,
    place: 0,
};

// What comes with the next ticket, where nothing came before, and there is no room for a second one.
fn next_allowed(source: &mut Gen<GenSource>) -> Given {
    let before = next(source);
    let first = source.allow(TICKET);
    let second = source.allow(TICKET);
    if (before == Given::Nothing) & first.is_none() & (second == Some(TICKET)) {
        next(source)
    } else {
        Given::Other
    }
}

// 2,500 sample frames of two channels at 8,000 a second, as source 3.
fn silence(alloc: Global) -> Gen<GenSource> {
    let made = Made::Silence(Silence {
        base: Rational::one_over(8000),
        channels: 2,
        count: 2500,
    });
    generator_of(alloc, 3, made)
}

// Three pictures of 2 by 2, each for so many seconds, as source 3.
fn pictures(alloc: Global, seconds: i64) -> Gen<GenSource> {
    let base = match Rational::new(seconds, 1) {
        Ok(base) => base,
        Err(_) => Rational::one_over(1),
    };
    let made = Made::Pictures(Pictures {
        color: Color::White,
        width: 2,
        height: 2,
        base,
        count: 3,
    });
    generator_of(alloc, 3, made)
}

// What it tells once it gives nothing more.
const EXITED: Option<Event> = Some(Event::Exited(3));

#[test]
fn sound(rt: HostRuntime) -> Result<(), AllocError> {
    let mut source = silence(rt.alloc());
    for (tried, expected) in [
        (0, Given::Sound(0, 2048)),
        (1, Given::Sound(1024, 2048)),
        (2, Given::Sound(2048, 904)),
        (3, Given::End),
    ] {
        assert_eq!(rt; (source.tried(), source.next_event()), (tried, None));
        assert_eq!(rt; next_allowed(&mut source), expected);
    }
    let last = (next(&mut source), source.tried(), source.next_event());
    assert_eq!(rt; last, (Given::Nothing, 4, EXITED));
    assert_eq!(rt;
        (source.source(), source.fault(), source.next_event()),
        (Some(3), None, None)
    );
    Ok(())
}

// The second picture would end past second 1,000,000,000.
#[test]
fn too_long(rt: HostRuntime) -> Result<(), AllocError> {
    let mut source = pictures(rt.alloc(), 1_000_000_000);
    for expected in [Given::Picture(0, 6), Given::Broken] {
        assert_eq!(rt; next_allowed(&mut source), expected);
    }
    assert_eq!(rt;
        (source.fault(), source.next_event()),
        (Some(Fault::TooLong), EXITED)
    );
    Ok(())
}

#[test]
fn stopped(rt: HostRuntime) -> Result<(), AllocError> {
    let mut source = pictures(rt.alloc(), 1);
    let first = next_allowed(&mut source);
    source.stop(0);
    assert_eq!(rt;
        (first, source.tried(), source.next_event()),
        (Given::Picture(0, 6), 1, EXITED)
    );
    Ok(())
}
