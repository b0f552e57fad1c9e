//! Calls on times and time bases.
use crate::heads::tell_base;
use crate::told::Told;
use crate::words::Call;
use ff_time::{Rational, TimeError, ceil_units, common_base, compare, read_duration, rescale};
use std::cmp::Ordering;

fn tell_fault(told: &mut Told, fault: TimeError) {
    match fault {
        TimeError::NotPositive => told.text("not positive"),
        TimeError::TooBig => told.text("too big"),
        TimeError::Overflow => told.text("overflow"),
        TimeError::BadTime { at } => {
            told.text("bad at ");
            told.count(at as u64);
        }
    }
}

/// `base NUM DEN`: the fraction in lowest terms.
pub fn base(call: &mut Call, told: &mut Told) {
    let (num, den) = (call.signed(0), call.signed(1));
    match Rational::new(num, den) {
        Ok(base) => tell_base(told, base),
        Err(error) => tell_fault(told, error),
    }
}

fn bases(call: &mut Call) -> Vec<Rational> {
    let mut bases = Vec::new(call.alloc);
    for at in 0..call.len() {
        if let Some(base) = call.base(at) {
            call.note(bases.push(base));
        }
    }
    bases
}

/// `common_base BASE..`: the common base of one or more, or `none`.
pub fn common(call: &mut Call, told: &mut Told) {
    let bases = bases(call);
    if bases.is_empty() {
        return call.misread();
    }
    match common_base(bases.as_slice()) {
        None => told.text("none"),
        Some(base) => tell_base(told, base),
    }
}

/// `rescale COUNT FROM TO`: so many units of the first base in units of the second.
pub fn rescaled(call: &mut Call, told: &mut Told) {
    let count = call.signed(0);
    let (Some(from), Some(to)) = (call.base(1), call.base(2)) else {
        return;
    };
    match rescale(count, from, to) {
        Ok(count) => told.number(count),
        Err(error) => tell_fault(told, error),
    }
}

/// `compare COUNT BASE COUNT BASE`: how the first time stands to the second.
pub fn compared(call: &mut Call, told: &mut Told) {
    let (first, second) = (call.signed(0), call.signed(2));
    let (Some(base), Some(other)) = (call.base(1), call.base(3)) else {
        return;
    };
    told.text(match compare(first, base, second, other) {
        Ordering::Less => "less",
        Ordering::Equal => "equal",
        Ordering::Greater => "greater",
    });
}

/// `least_units MICROSECONDS BASE`: the least number of units that lasts as long.
pub fn least_units(call: &mut Call, told: &mut Told) {
    let us = call.number(0);
    if us > 1_000_000_000_000_000 {
        return told.text("out of range");
    }
    if let Some(base) = call.base(1) {
        told.number(ceil_units(us, base));
    }
}

/// `duration TEXT`: the microseconds of a time.
pub fn duration(call: &mut Call, told: &mut Told) {
    match read_duration(call.text(0).as_bytes()) {
        Ok(us) => told.count(us),
        Err(error) => tell_fault(told, error),
    }
}
