//! Calls of the generated inputs.
use crate::table::Stop;
use crate::told::Told;
use crate::words::Call;
use ff_selfrun::{gen_wav, gen_y4m};
use sha2::{Digest, Sha256};

fn tell_summary<E: Drop>(told: &mut Told, made: Result<Vec<u8>, E>) {
    match made {
        Ok(bytes) => {
            told.count(bytes.len() as u64);
            told.text(" bytes, sha256 ");
            told.hex(&Sha256::digest(bytes.as_slice()));
        }
        Err(_) => told.fail(Stop::Broken),
    }
}

/// `generated_wav SECONDS`: how long the generated audio is, and its digest.
pub fn sound(call: &mut Call, told: &mut Told) {
    let seconds = call.up_to(0, 3_600) as u32;
    tell_summary(told, gen_wav(call.alloc, seconds));
}

/// `generated_y4m SECONDS`: the same of the generated video.
pub fn moving(call: &mut Call, told: &mut Told) {
    let seconds = call.up_to(0, 3_600) as u32;
    tell_summary(told, gen_y4m(call.alloc, seconds));
}
