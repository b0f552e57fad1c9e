//! The writer of a residual.

ghost use Rattle.std.specs.Prelude.{◌≡◌, ◌+◌, ◌-◌, ◌*◌, ◌/◌, ◌%◌, ◌^◌, ◌<◌, ◌≤◌, ◌++◌, length, OnOk, true, false, replicate};
ghost use Rattle.std.specs.List.{flat_map};
ghost use Rattle.ff_bits.specs.Bits.{bits_of};
ghost use Rattle.ff_flac_subframe.specs.rice.Rice.{rice_bits, rice_length, partition_bits, best_k, is_allowed, residual_bits, best_at};

use crate::rice::parameter::best_parameter;
use ff_bits::BitWriter;
use std::alloc::AllocError;

/// Writes zeros.
fn put_zeros(out: &mut BitWriter, count: u64) -> Result<(), AllocError>
    ensures { OnOk result (out.new ≡ out.old ++ replicate count false) }
{
    let mut left = count;
    while left > 0 {
        let some = left.min(64);
        out.put(0, some as u32)?;
        left -= some;
    }
    Ok(())
}

/// How many bits a value has under a parameter.
fn length_of(k: u32, u: u32) -> u64
    requires { k < 32 }
    ensures { result ≡ rice_length k u }
{
    (u >> k) as u64 + (1 + k as u64)
}

/// These bits, without leading zeros, as a number.
fn ending_of(k: u32, u: u32) -> u64
    requires { k < 32 }
    ensures { result ≡ 2 ^ k + u % 2 ^ k }
{
    let one = 1u64 << k;
    one + (u as u64) % one
}

/// Writes a value under a parameter.
fn put_rice(out: &mut BitWriter, k: u32, u: u32) -> Result<(), AllocError>
    requires { k < 32 }
    ensures { OnOk result (out.new ≡ out.old ++ rice_bits k u) }
{
    let count = length_of(k, u);
    if count <= 64 {
        out.put(ending_of(k, u), count as u32)?;
        return Ok(());
    }
    put_zeros(out, (u >> k) as u64)?;
    out.put(ending_of(k, u), 1 + k)?;
    Ok(())
}

/// The `m` bits of `high`, then the `n` bits of `low`.
fn joined(high: u64, m: u64, low: u64, n: u64) -> u64
    requires high { high < 2 ^ m }
    requires some { 0 < m }
    requires low { low < 2 ^ n }
    requires fits { m + n ≤ 64 }
    ensures below { result < 2 ^ (m + n) }
    ensures bits { bits_of (m + n) result ≡ bits_of m high ++ bits_of n low }
{
    high << n | low
}

/// The bits of two values under a parameter.
fn both_of(k: u32, a: u32, b: u32) -> u64
    requires k { k < 32 }
    requires fits { rice_length k a + rice_length k b ≤ 64 }
    ensures below { result < 2 ^ (rice_length k a + rice_length k b) }
    ensures bits { bits_of (rice_length k a + rice_length k b) result ≡ rice_bits k a ++ rice_bits k b }
{
    joined(
        ending_of(k, a),
        length_of(k, a),
        ending_of(k, b),
        length_of(k, b),
    )
}

/// Writes two values under a parameter.
fn put_two(out: &mut BitWriter, k: u32, a: u32, b: u32) -> Result<(), AllocError>
    requires { k < 32 }
    ensures { OnOk result (out.new ≡ out.old ++ rice_bits k a ++ rice_bits k b) }
{
    let count = length_of(k, a) + length_of(k, b);
    if count <= 64 {
        out.put(both_of(k, a, b), count as u32)?;
        return Ok(());
    }
    put_rice(out, k, a)?;
    put_rice(out, k, b)?;
    Ok(())
}

/// Writes four values under a parameter.
fn put_four(out: &mut BitWriter, k: u32, a: u32, b: u32, c: u32, d: u32) -> Result<(), AllocError>
    requires { k < 32 }
    ensures { OnOk result (out.new ≡ out.old ++ rice_bits k a ++ rice_bits k b ++ rice_bits k c ++ rice_bits k d) }
{
    let front = length_of(k, a) + length_of(k, b);
    let back = length_of(k, c) + length_of(k, d);
    if front + back <= 64 {
        let bits = joined(both_of(k, a, b), front, both_of(k, c, d), back);
        out.put(bits, (front + back) as u32)?;
        return Ok(());
    }
    put_two(out, k, a, b)?;
    put_two(out, k, c, d)?;
    Ok(())
}

/// Writes values under a parameter, one at a time.
fn put_each(out: &mut BitWriter, k: u32, us: &[u32]) -> Result<(), AllocError>
    requires { k < 32 }
    ensures { OnOk result (out.new ≡ out.old ++ flat_map (rice_bits k) us.now) }
{
    for u in us {
        put_rice(out, k, *u)?;
    }
    Ok(())
}

/// Writes values under a parameter.
fn put_values(out: &mut BitWriter, k: u32, us: &[u32]) -> Result<(), AllocError>
    requires { k < 32 }
    ensures { OnOk result (out.new ≡ out.old ++ flat_map (rice_bits k) us.now) }
{
    let mut rest = us;
    while rest.len() >= 4 {
        let (four, after) = rest.split_at(4);
        put_four(out, k, four[0], four[1], four[2], four[3])?;
        rest = after;
    }
    put_each(out, k, rest)?;
    Ok(())
}

/// Writes a partition under its best parameter.
fn write_part(out: &mut BitWriter, part: &[u32], method: usize) -> Result<(), AllocError>
    requires len { length part.now ≤ 2 ^ 15 }
    requires method { method ≤ 1 }
    ensures { OnOk result (out.new ≡ out.old ++ partition_bits (4 + method) (best_k method part.now) part.now) }
{
    let k = best_parameter(part, method);
    out.put(k as u64, 4 + method as u32)?;
    put_values(out, k as u32, part)?;
    Ok(())
}

/// Writes a residual by the best coding with a method and a partition order.
pub fn write_residual(
    out: &mut BitWriter,
    us: &[u32],
    order: usize,
    method: usize,
    partition_order: u32,
) -> Result<(), AllocError>
    requires len { length us.now ≤ 2 ^ 15 }
    requires order { order ≤ 4 }
    requires method { method ≤ 1 }
    requires partition_order { partition_order ≤ 8 }
    requires allowed { is_allowed (length us.now + order) order partition_order ≡ true }
    ensures { OnOk result (out.new ≡ out.old ++ residual_bits order (best_at order method partition_order us.now) us.now) }
{
    out.put(method as u64, 2)?;
    out.put(partition_order as u64, 4)?;
    let size = (us.len() + order) >> partition_order;
    let (first, mut rest) = us.split_at(size - order);
    write_part(out, first, method)?;
    let mut left = (1usize << partition_order) - 1;
    while left > 0 {
        let (part, after) = rest.split_at(size);
        write_part(out, part, method)?;
        rest = after;
        left -= 1;
    }
    Ok(())
}
