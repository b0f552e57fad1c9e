//! The formats of inputs: a line for each in each list, and in `specs/Formats`.
ghost use Rattle.std.specs.Prelude.{◌≡◌, ◌≤◌, [], Some, Err, length};
ghost use Rattle.ff_input.specs.FirstWords.{told};
ghost use Rattle.ff_input.specs.Formats.{first_words};
ghost use Rattle.ff_input.specs.laws.Places.{Reached};

use crate::first_word::{FirstWord, told_by_word};
use crate::head_reader::HeadReader;
use crate::one_of::OneOf;
use crate::walk::InputWalk;
use ff_au::{Au, AuCut, AuHead, AuWalk};
use ff_avi::{Avi, AviHead, AviWalk};
use ff_flac_dec::{Flac, FlacCut, FlacHead, FlacWalk, TaggedWalk};
use ff_format::FileFormat;
use ff_frame::HeadEnd;
use ff_reader::{HeadFormat, HeadWalk};
use ff_wav::{BothForms, Rf64Wave, RiffWave, WavCut, WavHead, WavWalk};
use ff_y4m::{Y4mCut, Y4mHead, read_head};

/// The head of an input of one stream: WAV (RIFF WAVE, EBU Tech 3306), YUV4MPEG2 (yuv4mpeg(5)), FLAC (RFC 9639), AU.
pub type SingleHead = OneOf<WavHead, OneOf<Y4mHead, OneOf<FlacHead, AuHead>>>;

/// How far the head of an input of one stream was read.
pub type SingleWalk = OneOf<WavWalk, OneOf<Y4mWalk, OneOf<FlacWalk, AuWalk>>>;

/// The packets of an input of one stream, from pieces of any size.
pub type SingleCut = OneOf<WavCut, OneOf<Y4mCut, OneOf<FlacCut, AuCut>>>;

/// The head of an input: what comes before its packets, in the format that it has. It has one stream, or is that of an AVI.
pub type InputHead = OneOf<SingleHead, AviHead>;

/// How far the head of an input was read, in the format that it has.
pub type AnyWalk = OneOf<SingleWalk, AviWalk>;

/// `YUV4MPEG2` and a space.
const LINE: [Option<u8>; 10] = [
    Some(b'Y'),
    Some(b'U'),
    Some(b'V'),
    Some(b'4'),
    Some(b'M'),
    Some(b'P'),
    Some(b'E'),
    Some(b'G'),
    Some(b'2'),
    Some(b' '),
];

/// `YUV4MPEG2` and a line feed.
const EMPTY_LINE: [Option<u8>; 10] = [
    Some(b'Y'),
    Some(b'U'),
    Some(b'V'),
    Some(b'4'),
    Some(b'M'),
    Some(b'P'),
    Some(b'E'),
    Some(b'G'),
    Some(b'2'),
    Some(b'\n'),
];

/// What the first bytes of an input tell of its format.
pub(crate) fn told_by_words(bytes: &[u8]) -> FirstWord
    ensures { result ≡ told first_words bytes.now }
{
    let riff = told_by_word(FileFormat::Wav, RiffWave::magic(), bytes);
    let rf64 = told_by_word(FileFormat::Wav, Rf64Wave::magic(), bytes);
    let line = told_by_word(FileFormat::Y4m, &LINE, bytes);
    let empty_line = told_by_word(FileFormat::Y4m, &EMPTY_LINE, bytes);
    let flac = told_by_word(FileFormat::Flac, Flac::name(), bytes);
    let tagged = told_by_word(FileFormat::Flac, Flac::tag_name(), bytes);
    let au = told_by_word(FileFormat::Au, Au::magic(), bytes);
    let avi = told_by_word(FileFormat::Avi, Avi::magic(), bytes);
    riff.or(rf64.or(line.or(empty_line.or(flac.or(tagged.or(au.or(avi.or(FirstWord::Other))))))))
}

/// Before anything was read of an input in this format.
pub(crate) fn start_of(format: FileFormat) -> InputWalk
    ensures { Reached result (Some format) [] }
{
    match format {
        FileFormat::Wav => InputWalk::In(OneOf::First(OneOf::First(WavWalk::new()))),
        FileFormat::Y4m => InputWalk::In(OneOf::First(OneOf::Other(OneOf::First(Y4mWalk)))),
        FileFormat::Flac => InputWalk::In(OneOf::First(OneOf::Other(OneOf::Other(OneOf::First(
            FlacWalk::new(),
        ))))),
        FileFormat::Au => InputWalk::In(OneOf::First(OneOf::Other(OneOf::Other(OneOf::Other(
            AuWalk::new(),
        ))))),
        FileFormat::Avi => InputWalk::In(OneOf::Other(AviWalk::new())),
        _ => InputWalk::Other,
    }
}

impl HeadReader for BothForms<HeadWalk<RiffWave>, HeadWalk<Rf64Wave>> {
    ghost use Rattle.ff_pcm.specs.body.Packets.{IsHead as IsPcmHead};
    ghost use Rattle.ff_wav.specs.Heads.{head as wav_head};
    ghost use Rattle.ff_input.specs.Answers.{wav_reached};

    type Head = WavHead;

    ghost head = { λ walk. wav_head };

    ghost is_sound = { IsPcmHead };

    ghost reached = { wav_reached };

    fn read(&mut self, bytes: &[u8], whole: bool) -> Result<WavHead, HeadEnd> {
        WavWalk::read(self, bytes, whole)
    }
}

impl HeadReader for TaggedWalk<HeadWalk<Flac>> {
    ghost use Rattle.ff_flac_dec.specs.Heads.{head as flac_head};
    ghost use Rattle.ff_flac_dec.specs.Streams.{IsHead as IsFlacHead};
    ghost use Rattle.ff_input.specs.Answers.{flac_reached};

    type Head = FlacHead;

    ghost head = { λ walk. flac_head };

    ghost is_sound = { IsFlacHead };

    ghost reached = { flac_reached };

    fn read(&mut self, bytes: &[u8], whole: bool) -> Result<FlacHead, HeadEnd> {
        FlacWalk::read(self, bytes, whole)
    }
}

/// The head of a YUV4MPEG2 is a line, which is short, and so is read anew.
#[derive(Clone, Copy, Debug)]
pub struct Y4mWalk;

impl HeadReader for Y4mWalk {
    ghost use Rattle.ff_y4m.specs.Heads.{head as y4m_head};
    ghost use Rattle.ff_y4m.specs.Packets.{IsHead as IsY4mHead};

    type Head = Y4mHead;

    ghost head = { λ walk. y4m_head };

    ghost is_sound = { IsY4mHead };

    ghost reached = { λ walk front. Unit {0} };

    fn read(&mut self, bytes: &[u8], whole: bool) -> Result<Y4mHead, HeadEnd> {
        read_head(bytes, whole)
    }
}
