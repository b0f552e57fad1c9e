//! Laws of what a muxer writes and tells. Each is a function that does nothing: its clauses hold of all values.
ghost use Rattle.ff_node_mux.specs.laws.Held.{HeldPartsStay};
ghost use Rattle.ff_node_mux.specs.Muxing.{MixedOne};
ghost use Rattle.ff_node_mux.specs.laws.Sizes.{PcmIsShort, PcmFits};
ghost use Rattle.ff_node_mux.specs.StreamEvents.{ToldOfStreams, ToldOfOne};
ghost use Rattle.ff_node_mux.specs.Telling.{AllOfStreams, SentTimes};

/// What a muxer's sink holds of the streams that it was fed is held of all streams that go on from them, but for
/// breaks. It is a prefix of what is written, or the file.
pub fn held_parts_stay()
    ensures { HeldPartsStay }
{}

/// What a muxer tells is of its output streams, and each time is below 2^63, whatever it is fed. Of a valid packet it
/// is the time at which it is decoded, rescaled to microseconds. Of a valid stream that it was fed to its end it has
/// to tell when each packet is decoded, in order. Then it tells that the output stream has finished. With one stream
/// that is all it tells.
pub fn events_of_a_stream()
    ensures streams { AllOfStreams }
    ensures times { SentTimes }
    ensures whole { ToldOfStreams }
    ensures alone { ToldOfOne }
{}

/// Of one stream all packets are written, in their own order, and it is whole just where they are all.
pub fn one_stream_is_written_as_it_is()
    ensures { MixedOne }
{}

/// Of a valid stream of linear PCM fewer than 2^62 bytes are written, where a packet is written as it stands. A
/// format that holds so many is never too small for it.
pub fn sound_is_short()
    ensures short { PcmIsShort }
    ensures fits { PcmFits }
{}
