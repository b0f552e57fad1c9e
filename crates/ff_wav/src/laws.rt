//! Laws of WAV. Each is a function that does nothing: its clauses hold of all values.
ghost use Rattle.ff_format.specs.declared.format.Rf64.{Rf64 as Mode};
ghost use Rattle.ff_wav.specs.Layout.{WavsAreFiles, StreamedWavsAreFiles};
ghost use Rattle.ff_pcm.specs.laws.body.Written.{SamplesComeBack};
ghost use Rattle.ff_wav.specs.Written.{HeadersAreRead, FilesAreRead, BodiesAreRead, StreamsAreRead, wav_container, streamed_container};

/// What is written around a body is read again. A header of each form with any sizes is read as its stream and its
/// body's size. A whole file is read as that head and the packets of that body, whenever it is RF64. The file of a whole
/// stream of audio is read as its samples, at the codec's depth.
pub fn what_is_written_is_read_again()
    ensures headers { HeadersAreRead }
    ensures files { FilesAreRead }
    ensures bodies { BodiesAreRead }
    ensures samples { (mode : Mode) → SamplesComeBack (wav_container mode) }
{}

/// The finished file is its header with both sizes, the packets' bytes, and a pad byte where they are odd.
pub fn finished_wavs_are_riff()
    ensures { WavsAreFiles }
{}

/// A WAV that is streamed is its header without sizes and the packets' bytes, however many. It is read as its stream
/// with a body to the end, and that of a whole stream of audio as its samples, at the codec's depth.
pub fn streamed_wavs_are_read_again()
    ensures files { StreamedWavsAreFiles }
    ensures heads { StreamsAreRead }
    ensures samples { (mode : Mode) → SamplesComeBack (streamed_container mode) }
{}
