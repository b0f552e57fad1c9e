//! Laws of AU. Each is a function that does nothing: its clauses hold of all values.
ghost use Rattle.ff_au.specs.Layout.{AusAreFiles};
ghost use Rattle.ff_au.specs.laws.Written.{HeadersAreRead, FilesAreRead, BodiesAreRead, au_container};
ghost use Rattle.ff_pcm.specs.laws.body.Written.{SamplesComeBack};

/// What is written around a body is read again. A header with any size is read as its stream and its body's size. A
/// whole file is read as that head and the packets of that body. The file of a whole stream of audio is read as its
/// samples, at the codec's depth.
pub fn what_is_written_is_read_again()
    ensures headers { HeadersAreRead }
    ensures files { FilesAreRead }
    ensures bodies { BodiesAreRead }
    ensures samples { SamplesComeBack au_container }
{}

/// The finished file is its header with the body's size, and the packets' bytes.
pub fn finished_aus_are_files()
    ensures { AusAreFiles }
{}
