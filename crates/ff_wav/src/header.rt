//! The bytes of the header that is written.
ghost use Rattle.std.specs.Prelude.{◌≡◌, ◌+◌, ◌*◌, ◌%◌, ◌^◌, ◌<◌, ◌≤◌, ◌++◌, [], IfOk, OnOk};
ghost use Rattle.ff_pcm.specs.body.Packets.{block_of};
ghost use Rattle.ff_frame.specs.Codecs.{sample_bytes};
ghost use Rattle.ff_wav.specs.Codecs.{IsWavCoded};
ghost use Rattle.ff_wav.specs.Header.{le_16, le_32, le_64, is_plain, mask_of, fields_of, pcm_guid, extension, data_id, plain_format, long_format, format_bytes};
ghost use Rattle.ff_wav.specs.Header.{riff, rf64, wave, format_id, junk_id, zeros, junk, ds64_id, ds64, opening, data_size, header, header_len};
ghost use Rattle.ff_wav.specs.Limits.{longest_of};
ghost use Rattle.ff_wav.specs.Header.{HasRoom, first_form as first_form_of, streamed_sizes as streamed_sizes_of, form_of, sizes_in, file_size};

use ff_format::Rf64;
use ff_frame::StreamHead;
use ff_pcm::size_of_sample;
use std::alloc::{AllocError, Global};

/// What a header begins with, and where its sizes stand.
#[derive(Clone, Copy, Debug, PartialEq, Eq)]
pub enum HeaderForm {
    /// `RIFF`, and sizes of 32 bits.
    Riff,
    /// The same, and a chunk that is passed over, where sizes of 64 bits would have room.
    RiffWithRoom,
    /// `RF64`, and in a chunk of that length sizes of 64 bits (EBU Tech 3306).
    Rf64,
}

/// The sizes that a header tells.
#[derive(Clone, Copy, Debug, PartialEq, Eq)]
pub struct Sizes {
    /// The bytes of the file after the first 8.
    pub file: u64,
    /// The bytes of the body.
    pub body: u64,
    /// The sample frames.
    pub frames: u64,
}

/// The longest body, in bytes, of sizes of 32 bits.
const LONGEST_RIFF: u64 = 4294967200;

#[tactic(auto, unfolding(crate::specs::Header::le_16))]
fn add_16(out: &mut Vec<u8>, n: u16) -> Result<(), AllocError>
    ensures { OnOk result (out.new.items ≡ out.old.items ++ le_16 n) }
{
    out.extend_from_slice(&n.to_le_bytes())
}

#[tactic(auto, unfolding(crate::specs::Header::le_32))]
fn add_32(out: &mut Vec<u8>, n: u32) -> Result<(), AllocError>
    ensures { OnOk result (out.new.items ≡ out.old.items ++ le_32 n) }
{
    out.extend_from_slice(&n.to_le_bytes())
}

#[tactic(auto, unfolding(crate::specs::Header::le_64))]
fn add_64(out: &mut Vec<u8>, n: u64) -> Result<(), AllocError>
    ensures { OnOk result (out.new.items ≡ out.old.items ++ le_64 n) }
{
    out.extend_from_slice(&n.to_le_bytes())
}

#[tactic(auto, unfolding(crate::specs::Header::riff))]
fn add_riff(out: &mut Vec<u8>) -> Result<(), AllocError>
    ensures { OnOk result (out.new.items ≡ out.old.items ++ riff) }
{
    out.extend_from_slice(b"RIFF")
}

#[tactic(auto, unfolding(crate::specs::Header::rf64))]
fn add_rf64(out: &mut Vec<u8>) -> Result<(), AllocError>
    ensures { OnOk result (out.new.items ≡ out.old.items ++ rf64) }
{
    out.extend_from_slice(b"RF64")
}

#[tactic(auto, unfolding(crate::specs::Header::wave))]
fn add_wave(out: &mut Vec<u8>) -> Result<(), AllocError>
    ensures { OnOk result (out.new.items ≡ out.old.items ++ wave) }
{
    out.extend_from_slice(b"WAVE")
}

#[tactic(auto, unfolding(crate::specs::Header::format_id))]
fn add_format_id(out: &mut Vec<u8>) -> Result<(), AllocError>
    ensures { OnOk result (out.new.items ≡ out.old.items ++ format_id) }
{
    out.extend_from_slice(b"fmt ")
}

#[tactic(auto, unfolding(crate::specs::Header::data_id))]
fn add_data_id(out: &mut Vec<u8>) -> Result<(), AllocError>
    ensures { OnOk result (out.new.items ≡ out.old.items ++ data_id) }
{
    out.extend_from_slice(b"data")
}

#[tactic(auto, unfolding(crate::specs::Header::pcm_guid))]
fn add_guid(out: &mut Vec<u8>) -> Result<(), AllocError>
    ensures { OnOk result (out.new.items ≡ out.old.items ++ pcm_guid) }
{
    out.extend_from_slice(b"\x01\0\0\0\0\0\x10\0\x80\0\0\xaa\0\x38\x9b\x71")
}

fn mask(channels: u8) -> u32
    ensures { result ≡ mask_of channels }
{
    match channels {
        1 => 4,
        2 => 3,
        _ => 0,
    }
}

#[tactic(auto, unfolding(crate::specs::Header::fields_of))]
fn add_fields(
    out: &mut Vec<u8>,
    channels: u8,
    rate: u32,
    block: u16,
    bits: u8,
) -> Result<(), AllocError>
    ensures { OnOk result (out.new.items ≡ out.old.items ++ fields_of channels rate block bits) }
{
    add_16(out, channels as u16)?;
    add_32(out, rate)?;
    add_32(out, rate.wrapping_mul(block as u32))?;
    add_16(out, block)?;
    add_16(out, bits as u16)
}

#[tactic(auto, unfolding(crate::specs::Header::extension))]
fn add_extension(out: &mut Vec<u8>, channels: u8, bits: u8) -> Result<(), AllocError>
    ensures { OnOk result (out.new.items ≡ out.old.items ++ extension channels bits) }
{
    add_16(out, 22)?;
    add_16(out, bits as u16)?;
    add_32(out, mask(channels))?;
    add_guid(out)
}

#[tactic(auto, unfolding(crate::specs::Header::plain_format))]
fn add_plain(
    out: &mut Vec<u8>,
    channels: u8,
    rate: u32,
    block: u16,
    bits: u8,
) -> Result<(), AllocError>
    ensures { OnOk result (out.new.items ≡ out.old.items ++ plain_format channels rate block bits) }
{
    add_32(out, 16)?;
    add_16(out, 1)?;
    add_fields(out, channels, rate, block, bits)
}

#[tactic(auto, unfolding(crate::specs::Header::long_format))]
fn add_long(
    out: &mut Vec<u8>,
    channels: u8,
    rate: u32,
    block: u16,
    bits: u8,
) -> Result<(), AllocError>
    ensures { OnOk result (out.new.items ≡ out.old.items ++ long_format channels rate block bits) }
{
    add_32(out, 40)?;
    add_16(out, 0xFFFE)?;
    add_fields(out, channels, rate, block, bits)?;
    add_extension(out, channels, bits)
}

fn add_format(
    out: &mut Vec<u8>,
    channels: u8,
    rate: u32,
    block: u16,
    bits: u8,
) -> Result<(), AllocError>
    ensures { OnOk result (out.new.items ≡ out.old.items ++ format_bytes channels rate block bits) }
{
    if channels <= 2 && bits <= 16 {
        return add_plain(out, channels, rate, block, bits);
    }
    add_long(out, channels, rate, block, bits)
}

#[tactic(auto, unfolding(crate::specs::Header::junk_id))]
fn add_junk_id(out: &mut Vec<u8>) -> Result<(), AllocError>
    ensures { OnOk result (out.new.items ≡ out.old.items ++ junk_id) }
{
    out.extend_from_slice(b"JUNK")
}

#[tactic(auto, unfolding(crate::specs::Header::ds64_id))]
fn add_ds64_id(out: &mut Vec<u8>) -> Result<(), AllocError>
    ensures { OnOk result (out.new.items ≡ out.old.items ++ ds64_id) }
{
    out.extend_from_slice(b"ds64")
}

#[tactic(auto, unfolding(crate::specs::Header::zeros))]
fn add_zeros(out: &mut Vec<u8>) -> Result<(), AllocError>
    ensures { OnOk result (out.new.items ≡ out.old.items ++ zeros) }
{
    out.extend_from_slice(b"\0\0\0\0\0\0\0\0\0\0\0\0\0\0\0\0\0\0\0\0\0\0\0\0\0\0\0\0")
}

// A chunk that is passed over, of the length of `ds64`.
#[tactic(auto, unfolding(crate::specs::Header::junk))]
fn add_junk(out: &mut Vec<u8>) -> Result<(), AllocError>
    ensures { OnOk result (out.new.items ≡ out.old.items ++ junk) }
{
    add_junk_id(out)?;
    add_32(out, 28)?;
    add_zeros(out)
}

#[tactic(auto, unfolding(crate::specs::Header::ds64))]
fn add_ds64(out: &mut Vec<u8>, sizes: Sizes) -> Result<(), AllocError>
    ensures { OnOk result (out.new.items ≡ out.old.items ++ ds64 sizes) }
{
    add_ds64_id(out)?;
    add_32(out, 28)?;
    add_64(out, sizes.file)?;
    add_64(out, sizes.body)?;
    add_64(out, sizes.frames)?;
    add_32(out, 0)
}

// What stands before `fmt `.
fn add_opening(out: &mut Vec<u8>, form: HeaderForm, sizes: Sizes) -> Result<(), AllocError>
    requires { HasRoom form sizes }
    ensures { OnOk result (out.new.items ≡ out.old.items ++ opening form sizes) }
{
    match form {
        HeaderForm::Riff => {
            add_riff(out)?;
            add_32(out, sizes.file as u32)?;
            add_wave(out)
        }
        HeaderForm::RiffWithRoom => {
            add_riff(out)?;
            add_32(out, sizes.file as u32)?;
            add_wave(out)?;
            add_junk(out)
        }
        HeaderForm::Rf64 => {
            add_rf64(out)?;
            add_32(out, 0xFFFF_FFFF)?;
            add_wave(out)?;
            add_ds64(out, sizes)
        }
    }
}

// The body's size, in 32 bits.
fn size_of_data(form: HeaderForm, sizes: Sizes) -> u32
    requires { HasRoom form sizes }
    ensures { result ≡ data_size form sizes }
{
    match form {
        HeaderForm::Riff => sizes.body as u32,
        HeaderForm::RiffWithRoom => sizes.body as u32,
        HeaderForm::Rf64 => 0xFFFF_FFFF,
    }
}

/// The header of this form with these sizes.
pub(crate) fn header_bytes(
    alloc: Global,
    head: &StreamHead,
    form: HeaderForm,
    sizes: Sizes,
) -> Result<Vec<u8>, AllocError>
    requires coded { IsWavCoded head.now }
    requires room { HasRoom form sizes }
    ensures { IfOk result (λ bytes. bytes.items ≡ header form head.now sizes) }
{
    let StreamHead::Audio {
        rate,
        bits,
        channels,
        codec,
        ..
    } = *head
    else {
        unreachable!()
    };
    let block = channels as u16 * size_of_sample(codec) as u16;
    let mut out = Vec::new(alloc);
    add_opening(&mut out, form, sizes)?;
    add_format_id(&mut out)?;
    add_format(&mut out, channels, rate, block, bits)?;
    add_data_id(&mut out)?;
    add_32(&mut out, size_of_data(form, sizes))?;
    Ok(out)
}

// How long the header is.
fn len_of_header(form: HeaderForm, head: &StreamHead) -> u64
    requires { IsWavCoded head.now }
    ensures value { result ≡ header_len form head.now }
    ensures long { 44 ≤ result }
    ensures short { result ≤ 104 }
{
    let room = match form {
        HeaderForm::Riff => 0,
        HeaderForm::RiffWithRoom | HeaderForm::Rf64 => 36,
    };
    match *head {
        StreamHead::Audio { bits, channels, .. } => {
            if channels <= 2 && bits <= 16 {
                44 + room
            } else {
                68 + room
            }
        }
        StreamHead::Video { .. } => unreachable!(),
    }
}

// How many bytes one sample frame has.
fn len_of_frame(head: &StreamHead) -> u64
    requires { IsWavCoded head.now }
    ensures { result ≡ block_of head.now }
{
    match *head {
        StreamHead::Audio {
            channels,
            codec,
            ..
        } => channels as u64 * size_of_sample(codec) as u64,
        StreamHead::Video { .. } => unreachable!(),
    }
}

/// The longest body, in bytes.
pub(crate) fn longest(mode: Rf64) -> u64
    ensures value { result ≡ longest_of mode }
    ensures small { result < 2 ^ 63 }
{
    match mode {
        Rf64::Never => LONGEST_RIFF,
        Rf64::Auto | Rf64::Always => 0x7FFF_FFFF_FFFF_FFFF,
    }
}

/// The form of a header whose sizes aren't known yet.
pub(crate) fn first_form(mode: Rf64) -> HeaderForm
    ensures { result ≡ first_form_of mode }
{
    match mode {
        Rf64::Never => HeaderForm::Riff,
        Rf64::Auto => HeaderForm::RiffWithRoom,
        Rf64::Always => HeaderForm::Rf64,
    }
}

/// The sizes in the header of a stream, where none is ever known.
pub(crate) fn streamed_sizes(mode: Rf64) -> Sizes
    ensures value { result ≡ streamed_sizes_of mode }
    ensures room { HasRoom (first_form_of mode) result }
{
    match mode {
        Rf64::Never | Rf64::Auto => Sizes {
            file: 0xFFFF_FFFF,
            body: 0xFFFF_FFFF,
            frames: 0,
        },
        Rf64::Always => Sizes {
            file: 0,
            body: 0,
            frames: 0,
        },
    }
}

// The file's bytes after the first 8, of a body of so many.
fn len_of_file(form: HeaderForm, head: &StreamHead, size: u64) -> u64
    requires coded { IsWavCoded head.now }
    requires small { size < 2 ^ 63 }
    ensures { result ≡ file_size form head.now size }
{
    len_of_header(form, head) - 8 + size + size % 2
}

/// The form of the header of a body of so many bytes.
pub(crate) fn last_form(mode: Rf64, head: &StreamHead, size: u64) -> HeaderForm
    requires coded { IsWavCoded head.now }
    requires small { size ≤ longest_of mode }
    ensures { result ≡ form_of mode head.now size }
{
    match mode {
        Rf64::Never => HeaderForm::Riff,
        Rf64::Auto => {
            let file = len_of_file(HeaderForm::RiffWithRoom, head, size);
            if size <= LONGEST_RIFF && file <= 0xFFFF_FFFF {
                HeaderForm::RiffWithRoom
            } else {
                HeaderForm::Rf64
            }
        }
        Rf64::Always => HeaderForm::Rf64,
    }
}

/// The sizes of a file with a body of so many bytes.
pub(crate) fn sizes_of(form: HeaderForm, head: &StreamHead, size: u64) -> Sizes
    requires coded { IsWavCoded head.now }
    requires small { size < 2 ^ 63 }
    ensures { result ≡ sizes_in form head.now size }
{
    Sizes {
        file: len_of_file(form, head, size),
        body: size,
        frames: size.checked_div(len_of_frame(head)).unwrap_or(0),
    }
}
