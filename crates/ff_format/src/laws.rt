//! Laws of the list of formats and of layouts. Each is a function that does nothing: its clauses hold of all values.
ghost use Rattle.std.specs.Prelude.{◌≡◌, map};
ghost use Rattle.ff_format.specs.Formats.{file_formats};
ghost use Rattle.ff_format.specs.Layouts.{StreamsArePackets};
ghost use Rattle.ff_format.specs.declared.format.TheConstants.{FORMATS};

/// The list of the code is that of the definition, line by line.
pub fn the_formats_are_as_defined()
    ensures { map (λ line. (line.0.now, line.1.now, line.2, line.3, line.4)) FORMATS ≡ file_formats }
{}

/// The finished file of a stream is its header and the packets, however many.
pub fn streams_are_packets()
    ensures { StreamsArePackets }
{}
