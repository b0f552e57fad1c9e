//! The writer of AU files.
ghost use Rattle.std.specs.Prelude.{◌≡◌, length};
ghost use Rattle.ff_format.specs.Layouts.{bytes_in};
ghost use Rattle.ff_au.specs.Header.{size_field, written_head, body_size};
ghost use Rattle.ff_au.specs.Layout.{au_layout, au_inside};

use crate::put::AuPut;
use ff_format::{Patch, TooLarge, Writer};
use ff_frame::{Pkt, Totals};
use std::alloc::{AllocError, Global};

impl Writer for AuPut {
    ghost layout = { λ put. au_layout (written_head put) };

    ghost counts = { λ put packets. body_size put ≡ size_field (length (bytes_in packets)) };

    fn first(&self) -> Result<Vec<u8>, AllocError> {
        AuPut::first(self)
    }

    fn text(&self, _stream: u32, packet: Pkt) -> Result<Vec<u8>, Pkt> {
        Ok(packet.bytes.into_vec())
    }

    fn add(&mut self, _stream: u32, packet: &Pkt) -> Result<(), TooLarge> {
        AuPut::add(self, packet.bytes.as_slice().len() as u64);
        Ok(())
    }

    fn tail(&self, alloc: Global) -> Result<Vec<u8>, AllocError> {
        Ok(Vec::new(alloc))
    }

    fn last(&self, _totals: Option<Totals>) -> Result<Option<Patch>, AllocError> {
        let bytes = AuPut::last(self)?;
        Ok(Some(Patch { at: 0, bytes }))
    }

    ghost inside = { λ put n totals. au_inside (written_head put) n };
}
