//! A copy of bytes into a buffer, as far as both reach.
ghost use Rattle.std.specs.Prelude.{◌≡◌, ◌++◌, length, take, drop, min};

/// Fills a prefix of a buffer, as far as it and the bytes reach, and answers how many bytes that are.
pub fn copy_front(buf: &mut [u8], from: &[u8]) -> usize
    ensures count { result ≡ min (length buf.old) (length from.now) }
    ensures given { buf.new ≡ take result from.now ++ drop result buf.old }
{
    let count = buf.len().min(from.len());
    buf[..count].copy_from_slice(&from[..count]);
    count
}
