//! Blocks that are coded at once.

ghost use Rattle.std.specs.Prelude.{◌≡◌, ◌+◌, ◌<◌, ◌≤◌, ◌^◌, length, map, Ok, IfOk, All};
ghost use Rattle.ff_flac_enc.specs.Frame.{IsBlock};
ghost use Rattle.ff_flac_enc.specs.laws.Blocks.{IsCoded, AreCoded, GiveCoded};

use crate::frame::encode_block;
use ff_frame::{AFrame, Bytes};
use std::alloc::{AllocError, Global};
use std::thread;
use std::thread::Threads;

/// What a call passes before it codes its block. It means nothing to what is coded.
pub trait Gate {
    /// Lets the call for block `i` pass, perhaps after a while.
    fn enter(&self, i: usize);
}

/// A gate that holds nobody.
pub struct NoGate;

impl Gate for NoGate {
    fn enter(&self, _i: usize) {}
}

/// The bytes of a block as the frame with this number, as `encode_block` gives them.
pub fn coded_block(alloc: Global, block: &AFrame, number: u32) -> Result<Bytes, AllocError>
    requires block { IsBlock block.now }
    requires number { number < 2 ^ 31 }
    ensures { IfOk result (IsCoded block.now number) }
{
    let bytes = encode_block(alloc, block, number)?;
    Ok(Bytes::new(bytes))
}

// All results, where each is `Ok`.
fn all_of(alloc: Global, each: Vec<Result<Bytes, AllocError>>) -> Result<Vec<Bytes>, AllocError>
    ensures { IfOk result (λ v. each.items ≡ map Ok v.items) }
{
    let mut all = Vec::new(alloc);
    for one in each {
        all.push(one?)?;
    }
    Ok(all)
}

// What each call gives.
fn each_block<G: Gate + Sync, R: Threads + Sync>(
    rt: &R,
    alloc: Global,
    blocks: &[AFrame],
    first: u32,
    gate: &G,
) -> Result<Vec<Result<Bytes, AllocError>>, AllocError>
    requires blocks { All IsBlock blocks.now }
    requires numbers { first + length blocks.now ≤ 2 ^ 31 }
    ensures { IfOk result (λ v. GiveCoded blocks.now first v.items) }
{
    thread::map_indices(
        rt,
        alloc,
        blocks.len(),
        &|i: usize|
            requires within { i < length blocks.now }
            requires blocks { All IsBlock blocks.now }
            requires numbers { first + i < 2 ^ 31 }
        {
            gate.enter(i);
            coded_block(alloc, &blocks[i], first + i as u32)
        },
    )
}

/// The bytes of each block, in order, as `encode_block` gives them for numbers from `first` on. Each is coded in a
/// thread of its own where one can be made. The call for block i enters the gate with i first.
pub fn encode_blocks<G: Gate + Sync, R: Threads + Sync>(
    rt: &R,
    alloc: Global,
    blocks: &[AFrame],
    first: u32,
    gate: &G,
) -> Result<Vec<Bytes>, AllocError>
    requires some { (1 ≤ length blocks.now) × (length blocks.now ≤ 8) }
    requires blocks { All IsBlock blocks.now }
    requires numbers { first + length blocks.now ≤ 2 ^ 31 }
    ensures { IfOk result (λ v. AreCoded blocks.now first v.items) }
{
    let each = each_block(rt, alloc, blocks, first, gate)?;
    all_of(alloc, each)
}
