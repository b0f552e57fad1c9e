//! The places of input streams.
ghost use Rattle.std.specs.Prelude.{◌≡◌};
ghost use Rattle.ff_words.specs.maps.Choice.{stream_at as the_stream_at};
ghost use Rattle.ff_plan_layout.specs.Layout.{same_ref as are_same};

use ff_frame::StreamHead;
use ff_words::maps::{Stream, StreamRef};

/// Whether two places are one.
pub fn same_ref(a: StreamRef, b: StreamRef) -> bool
    ensures { result ≡ are_same a b }
{
    a.input == b.input && a.stream == b.stream
}

/// A stream with this head at its place.
pub fn stream_at(input: u32, stream: u32, head: StreamHead) -> Stream
    ensures { result ≡ the_stream_at input stream head }
{
    Stream {
        at: StreamRef { input, stream },
        head,
    }
}
