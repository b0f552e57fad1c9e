//! A writer of any format: a line for each format in each match.
ghost use Rattle.std.specs.Prelude.{◌≡◌, [], IfOk};
ghost use Rattle.ff_au.specs.Codecs.{IsAuCoded};
ghost use Rattle.ff_au.specs.Layout.{au_layout};
ghost use Rattle.ff_format.specs.Layouts.{streamed_of};
ghost use Rattle.ff_wav.specs.Codecs.{IsWavCoded};
ghost use Rattle.ff_wav.specs.Layout.{wav_layout_in};
ghost use Rattle.ff_mux.specs.FlacHead.{CanHold};
ghost use Rattle.ff_mux.specs.writers.FlacFile.{flac_layout};
ghost use Rattle.ff_mux.specs.writers.AnyWriters.{CanWrite, layout_of, any_layout, any_counts, any_inside};

use crate::writers::digests::{JoinedWriter, StreamsWriter, SumWriter};
use crate::writers::flac::FlacWriter;
use crate::writers::frame_crc::CrcWriter;
use crate::writers::frame_hash::HashWriter;
use crate::writers::null::NullWriter;
use crate::writers::raw::RawWriter;
use ff_au::AuPut;
use ff_format::{FileFormat, OutputOptions, Patch, TooLarge, Writer};
use ff_frame::{Pkt, StreamHead, Totals};
use ff_wav::WavPut;
use ff_y4m::Y4mWriter;
use std::alloc::{AllocError, Global};

/// The writer of any format that is written.
#[derive(Drop)]
pub enum AnyWriter {
    /// RIFF WAVE.
    Wav(WavPut),
    /// AU.
    Au(AuPut),
    /// FLAC.
    Flac(FlacWriter),
    /// YUV4MPEG2.
    Y4m(Y4mWriter),
    /// Samples or pictures alone, or a stream.
    Raw(RawWriter),
    /// Digests.
    Hash(HashWriter),
    /// Adler-32 sums.
    Crc(CrcWriter),
    /// One digest of all packets.
    Joined(JoinedWriter),
    /// One digest of each stream.
    Streams(StreamsWriter),
    /// One Adler-32 sum of all packets.
    Sum(SumWriter),
    /// Nothing.
    Null(NullWriter),
}

fn wav_writer(
    alloc: Global,
    head: &StreamHead,
    options: OutputOptions,
) -> Result<AnyWriter, AllocError>
    requires { IsWavCoded head.now }
    ensures layout { IfOk result (λ writer. any_layout writer ≡ wav_layout_in options.streamed options.rf64 head.now) }
    ensures counts { IfOk result (λ writer. any_counts writer []) }
{
    let put = WavPut::new(alloc, head, options.rf64);
    if !options.streamed {
        return Ok(AnyWriter::Wav(put));
    }
    let header = put.streamed()?;
    Ok(AnyWriter::Raw(RawWriter::behind(alloc, header)))
}

fn au_writer(alloc: Global, head: &StreamHead, streamed: bool) -> Result<AnyWriter, AllocError>
    requires { IsAuCoded head.now }
    ensures layout { IfOk result (λ writer. any_layout writer ≡ streamed_of streamed (au_layout head.now)) }
    ensures counts { IfOk result (λ writer. any_counts writer []) }
{
    let put = AuPut::new(alloc, head);
    if !streamed {
        return Ok(AnyWriter::Au(put));
    }
    let header = put.first()?;
    Ok(AnyWriter::Raw(RawWriter::behind(alloc, header)))
}

fn flac_writer(alloc: Global, head: StreamHead, streamed: bool) -> Result<AnyWriter, AllocError>
    requires { CanHold head }
    ensures layout { IfOk result (λ writer. any_layout writer ≡ streamed_of streamed (flac_layout head)) }
    ensures counts { IfOk result (λ writer. any_counts writer []) }
{
    let writer = FlacWriter::new(alloc, head);
    if !streamed {
        return Ok(AnyWriter::Flac(writer));
    }
    let header = writer.first()?;
    Ok(AnyWriter::Raw(RawWriter::behind(alloc, header)))
}

/// The writer of a format for the packets of streams of these heads, by what an output's options say. No packet was counted.
pub fn writer_of(
    alloc: Global,
    format: FileFormat,
    options: OutputOptions,
    heads: &[StreamHead],
) -> Result<AnyWriter, AllocError>
    requires { CanWrite format heads.now }
    ensures layout { IfOk result (λ writer. any_layout writer ≡ layout_of format options heads.now) }
    ensures counts { IfOk result (λ writer. any_counts writer []) }
{
    match format {
        FileFormat::Wav => wav_writer(alloc, &heads[0], options),
        FileFormat::Au => au_writer(alloc, &heads[0], options.streamed),
        FileFormat::Flac => flac_writer(alloc, heads[0], options.streamed),
        FileFormat::Y4m => Ok(AnyWriter::Y4m(Y4mWriter::new(alloc, heads[0]))),
        // No output has it.
        FileFormat::Avi => unreachable!(),
        FileFormat::U8
        | FileFormat::S8
        | FileFormat::S16le
        | FileFormat::S16be
        | FileFormat::S24le
        | FileFormat::S24be
        | FileFormat::S32le
        | FileFormat::S32be
        | FileFormat::RawVideo => Ok(AnyWriter::Raw(RawWriter::new(alloc))),
        FileFormat::FrameHash | FileFormat::FrameMd5 => {
            let heads = Vec::from_slice(alloc, heads)?;
            Ok(AnyWriter::Hash(HashWriter::new(alloc, options.hash, heads)))
        }
        FileFormat::FrameCrc => {
            let heads = Vec::from_slice(alloc, heads)?;
            Ok(AnyWriter::Crc(CrcWriter::new(alloc, heads)))
        }
        FileFormat::Hash | FileFormat::Md5 => Ok(AnyWriter::Joined(JoinedWriter::new(
            alloc,
            options.hash,
        ))),
        FileFormat::StreamHash => {
            let heads = Vec::from_slice(alloc, heads)?;
            let writer = StreamsWriter::new(alloc, options.hash, heads)?;
            Ok(AnyWriter::Streams(writer))
        }
        FileFormat::Crc => Ok(AnyWriter::Sum(SumWriter::new(alloc))),
        FileFormat::Null => Ok(AnyWriter::Null(NullWriter::new(alloc))),
    }
}

impl Writer for AnyWriter {
    ghost layout = { any_layout };

    ghost counts = { any_counts };

    fn first(&self) -> Result<Vec<u8>, AllocError> {
        match self {
            AnyWriter::Wav(put) => Writer::first(put),
            AnyWriter::Au(put) => Writer::first(put),
            AnyWriter::Flac(writer) => writer.first(),
            AnyWriter::Y4m(writer) => writer.first(),
            AnyWriter::Raw(writer) => writer.first(),
            AnyWriter::Hash(writer) => writer.first(),
            AnyWriter::Crc(writer) => writer.first(),
            AnyWriter::Joined(writer) => writer.first(),
            AnyWriter::Streams(writer) => writer.first(),
            AnyWriter::Sum(writer) => writer.first(),
            AnyWriter::Null(writer) => writer.first(),
        }
    }

    fn text(&self, stream: u32, packet: Pkt) -> Result<Vec<u8>, Pkt> {
        match self {
            AnyWriter::Wav(put) => put.text(stream, packet),
            AnyWriter::Au(put) => put.text(stream, packet),
            AnyWriter::Flac(writer) => writer.text(stream, packet),
            AnyWriter::Y4m(writer) => writer.text(stream, packet),
            AnyWriter::Raw(writer) => writer.text(stream, packet),
            AnyWriter::Hash(writer) => writer.text(stream, packet),
            AnyWriter::Crc(writer) => writer.text(stream, packet),
            AnyWriter::Joined(writer) => writer.text(stream, packet),
            AnyWriter::Streams(writer) => writer.text(stream, packet),
            AnyWriter::Sum(writer) => writer.text(stream, packet),
            AnyWriter::Null(writer) => writer.text(stream, packet),
        }
    }

    fn add(&mut self, stream: u32, packet: &Pkt) -> Result<(), TooLarge> {
        match self {
            AnyWriter::Wav(put) => Writer::add(put, stream, packet),
            AnyWriter::Au(put) => Writer::add(put, stream, packet),
            AnyWriter::Flac(writer) => writer.add(stream, packet),
            AnyWriter::Y4m(writer) => writer.add(stream, packet),
            AnyWriter::Raw(writer) => writer.add(stream, packet),
            AnyWriter::Hash(writer) => writer.add(stream, packet),
            AnyWriter::Crc(writer) => writer.add(stream, packet),
            AnyWriter::Joined(writer) => writer.add(stream, packet),
            AnyWriter::Streams(writer) => writer.add(stream, packet),
            AnyWriter::Sum(writer) => writer.add(stream, packet),
            AnyWriter::Null(writer) => writer.add(stream, packet),
        }
    }

    fn tail(&self, alloc: Global) -> Result<Vec<u8>, AllocError> {
        match self {
            AnyWriter::Wav(put) => put.tail(alloc),
            AnyWriter::Au(put) => put.tail(alloc),
            AnyWriter::Flac(writer) => writer.tail(alloc),
            AnyWriter::Y4m(writer) => writer.tail(alloc),
            AnyWriter::Raw(writer) => writer.tail(alloc),
            AnyWriter::Hash(writer) => writer.tail(alloc),
            AnyWriter::Crc(writer) => writer.tail(alloc),
            AnyWriter::Joined(writer) => writer.tail(alloc),
            AnyWriter::Streams(writer) => writer.tail(alloc),
            AnyWriter::Sum(writer) => writer.tail(alloc),
            AnyWriter::Null(writer) => writer.tail(alloc),
        }
    }

    fn last(&self, totals: Option<Totals>) -> Result<Option<Patch>, AllocError> {
        match self {
            AnyWriter::Wav(put) => Writer::last(put, totals),
            AnyWriter::Au(put) => Writer::last(put, totals),
            AnyWriter::Flac(writer) => writer.last(totals),
            AnyWriter::Y4m(writer) => writer.last(totals),
            AnyWriter::Raw(writer) => writer.last(totals),
            AnyWriter::Hash(writer) => writer.last(totals),
            AnyWriter::Crc(writer) => writer.last(totals),
            AnyWriter::Joined(writer) => writer.last(totals),
            AnyWriter::Streams(writer) => writer.last(totals),
            AnyWriter::Sum(writer) => writer.last(totals),
            AnyWriter::Null(writer) => writer.last(totals),
        }
    }

    ghost inside = { any_inside };
}
