//! Laws of finished files. Each is a function that does nothing: its clauses hold of all values.
ghost use Rattle.ff_mux.specs.writers.AnyWriters.{StreamsAreStreamed};
ghost use Rattle.ff_mux.specs.writers.CrcFile.{CrcsAreTexts};
ghost use Rattle.ff_mux.specs.writers.DigestFiles.{DigestsAreTexts};
ghost use Rattle.ff_mux.specs.writers.FlacFile.{FlacsAreStreams};
ghost use Rattle.ff_mux.specs.laws.writers.FlacWritten.{FieldsAreRead, FilesAreRead, HeadersAreRead};
ghost use Rattle.ff_mux.specs.writers.HashFile.{HashesAreTexts};
ghost use Rattle.ff_mux.specs.writers.NullFile.{NullWritesNothing};
ghost use Rattle.ff_mux.specs.writers.RawFile.{RawIsPackets};

/// The finished file of a FLAC stream is the mark, STREAMINFO with the totals, where they were told, and the packets' bytes.
pub fn finished_flacs_are_streams()
    ensures { FlacsAreStreams }
{}

/// What is written as FLAC is read again. A header is read as its stream, and its fields as what was written. A
/// finished file is read as that head, and its frames stand for the samples that were coded.
pub fn written_flacs_are_read_again()
    ensures headers { HeadersAreRead }
    ensures fields { FieldsAreRead }
    ensures files { FilesAreRead }
{}

/// The finished framehash file of packets is the lines on their streams and a line of each packet, with either digest.
pub fn finished_hashes_are_texts()
    ensures { HashesAreTexts }
{}

/// The finished framecrc file of packets is the lines on their streams and a line of each packet.
pub fn finished_crcs_are_texts()
    ensures { CrcsAreTexts }
{}

/// The finished file that is one digest of all packets, or one of each stream, is that text; before every stream is
/// whole nothing is written.
pub fn finished_digests_are_texts()
    ensures { DigestsAreTexts }
{}

/// The finished file of a raw format is the bytes of the packets one after another.
pub fn finished_raw_is_packets()
    ensures { RawIsPackets }
{}

/// Of no packets is anything written in the format null.
pub fn null_writes_nothing()
    ensures { NullWritesNothing }
{}

/// Of an output that is streamed no byte is replaced and no body is too large, in any format.
pub fn streams_are_streamed()
    ensures { StreamsAreStreamed }
{}
