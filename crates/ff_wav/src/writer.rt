//! The writer of WAV files.
ghost use Rattle.std.specs.Prelude.{◌≡◌, length};
ghost use Rattle.ff_format.specs.Layouts.{bytes_in};
ghost use Rattle.ff_wav.specs.Header.{written_head, written_mode, body_size};
ghost use Rattle.ff_wav.specs.Layout.{wav_layout, wav_inside};

use crate::put::WavPut;
use ff_format::{Patch, TooLarge, Writer};
use ff_frame::{Pkt, Totals};
use std::alloc::{AllocError, Global};

impl Writer for WavPut {
    ghost layout = { λ put. wav_layout (written_mode put) (written_head put) };

    ghost counts = { λ put packets. body_size put ≡ length (bytes_in packets) };

    fn first(&self) -> Result<Vec<u8>, AllocError> {
        WavPut::first(self)
    }

    fn text(&self, _stream: u32, packet: Pkt) -> Result<Vec<u8>, Pkt> {
        Ok(packet.bytes.into_vec())
    }

    fn add(&mut self, _stream: u32, packet: &Pkt) -> Result<(), TooLarge> {
        WavPut::add(self, packet.bytes.as_slice().len() as u64)
    }

    fn tail(&self, alloc: Global) -> Result<Vec<u8>, AllocError> {
        if WavPut::pad(self) {
            return Vec::from_slice(alloc, &[0]);
        }
        Ok(Vec::new(alloc))
    }

    fn last(&self, _totals: Option<Totals>) -> Result<Option<Patch>, AllocError> {
        let bytes = WavPut::last(self)?;
        Ok(Some(Patch { at: 0, bytes }))
    }

    ghost inside = { λ put n totals. wav_inside (written_mode put) (written_head put) n };
}
