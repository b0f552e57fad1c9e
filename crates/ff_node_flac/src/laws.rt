//! Laws of coding. Each function does nothing, and its contract is the law.

ghost use Rattle.ff_node_flac.specs.laws.FilesRead.{StreamsAreRead};

/// The finished FLAC file of what a whole stream of audio is coded to is read again, as that stream and the same
/// samples, at the depth that is coded.
pub fn coded_streams_are_read_again()
    ensures { StreamsAreRead }
{}
