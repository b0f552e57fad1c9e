//! The digests of `framehash`.

/// Which digest stands for the bytes of a packet.
#[derive(Clone, Copy, Debug, PartialEq, Eq)]
pub enum HashKind {
    /// SHA-256 (FIPS 180-4).
    Sha256,
    /// MD5 (RFC 1321).
    Md5,
}
