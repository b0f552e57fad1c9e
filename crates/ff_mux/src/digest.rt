//! The digest of bytes, as a string: of bytes at hand, and of bytes that come piece by piece.
ghost use Rattle.std.specs.Prelude.{◌≡◌, ℕ, List, [], ◌++◌, IfOk, string_bytes};
ghost use Rattle.ff_mux.specs.HashTexts.{digest_by, hash_name};

use ff_frame::HashKind;
use md5::{Digest as Md5Digest, Md5};
use sha2::{Digest as Sha256Digest, Sha256};
use std::alloc::{AllocError, Global};

/// The digest of some bytes in lower case hexadecimal (FIPS 180-4; RFC 1321).
#[tactic(auto, unfolding(crate::specs::HashTexts::digest_by))]
pub(crate) fn digest_text(alloc: Global, kind: HashKind, bytes: &[u8]) -> Result<String, AllocError>
    ensures { IfOk result (λ text. string_bytes text ≡ digest_by kind bytes.now) }
{
    match kind {
        HashKind::Sha256 => hex::encode(alloc, Sha256::digest(bytes)),
        HashKind::Md5 => hex::encode(alloc, Md5::digest(bytes)),
    }
}

/// The digest of bytes that come piece by piece.
#[derive(Drop)]
pub(crate) enum Hasher {
    /// SHA-256.
    Sha256(Sha256),
    /// MD5.
    Md5(Md5),
}

impl Hasher {
    ghost use Rattle.ff_mux.specs.laws.Hashers.{hasher_kind, HasTaken};

    /// Of no bytes.
    pub(crate) fn new(kind: HashKind) -> Hasher
        ensures kind { hasher_kind result ≡ kind }
        ensures none { HasTaken result [] }
    {
        match kind {
            HashKind::Sha256 => Hasher::Sha256(Sha256::new()),
            HashKind::Md5 => Hasher::Md5(Md5::new()),
        }
    }

    /// Which digest it is, as a text.
    pub(crate) fn name(&self) -> &'static [u8]
        ensures { result.now ≡ hash_name (hasher_kind self.now) }
    {
        match self {
            Hasher::Sha256(_) => b"SHA256",
            Hasher::Md5(_) => b"MD5",
        }
    }

    /// Takes further bytes.
    pub(crate) fn update(&mut self, bytes: &[u8])
        ensures kind { hasher_kind self.new ≡ hasher_kind self.old }
        ensures taken { (all : List ℕ) → HasTaken self.old all → HasTaken self.new (all ++ bytes.now) }
    {
        match self {
            Hasher::Sha256(state) => state.update(bytes),
            Hasher::Md5(state) => state.update(bytes),
        }
    }

    /// The digest of the bytes that it took, in lower case hexadecimal.
    #[tactic(auto, unfolding(crate::specs::HashTexts::digest_by))]
    pub(crate) fn text(&self, alloc: Global) -> Result<String, AllocError>
        ensures { IfOk result (λ text. (all : List ℕ) → HasTaken self.now all → string_bytes text ≡ digest_by (hasher_kind self.now) all) }
    {
        match self {
            Hasher::Sha256(state) => {
                let state = state.clone()?;
                hex::encode(alloc, state.finalize())
            }
            Hasher::Md5(state) => {
                let state = state.clone()?;
                hex::encode(alloc, state.finalize())
            }
        }
    }
}
