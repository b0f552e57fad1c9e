//! Chains: what stands behind a head of pictures and sound, and the packets of the used streams.
ghost use Rattle.std.specs.Prelude.{◌≡◌};
ghost use Rattle.ff_avi.specs.laws.Cuts.{has_ended};

use ff_avi::{AviCut, read_head};
use ff_frame::Cut;
use ff_lists::{from_place, front};
use std::alloc::{AllocError, Global};
use std::test::Fail;

/// The head of a file of pictures of 2 columns and 2 rows, and of sound of 16 bits on one channel, 260 bytes.
const OPENING: [&[u8]; 18] = [
    b"RIFF\0\0\0\0AVI LIST\xe4\0\0\0hdrl",
    b"LIST\x74\0\0\0strl",
    b"strh\x38\0\0\0vids",
    &[0; 16],
    b"\x01\0\0\0\x19\0\0\0",
    &[0; 28],
    b"strf\x28\0\0\0\0\0\0\0",
    b"\x02\0\0\0\x02\0\0\0\0\0\0\0",
    b"I420",
    &[0; 20],
    b"LIST\x5c\0\0\0strl",
    b"strh\x38\0\0\0auds",
    &[0; 52],
    b"strf\x10\0\0\0",
    b"\x01\0\x01\0\xe8\x03\0\0",
    b"\xd0\x07\0\0\x02\0\x10\0",
    b"LIST\0\0\0\0",
    b"movi",
];

/// The stream, times, duration, place and size of a packet.
type Given = (u32, i64, i64, u64, usize);

/// What follows the head, and zeros behind it; the used streams; the packets, and where they break off.
type Row = (
    &'static [u8],
    usize,
    &'static [u32],
    &'static [Given],
    Option<u64>,
);

const PICTURE: Given = (0, 0, 1, 268, 6);

const ROWS: [Row; 26] = [
    (b"", 0, &[0, 1], &[], None),
    (b"00db\x06\0\0\0abcdef", 0, &[0], &[PICTURE], None),
    (b"00dc\x06\0\0\0abcdef", 0, &[0, 1], &[PICTURE], None),
    (b"00db\x06\0\0\0abcdef", 0, &[1], &[], None),
    (b"00db\x06\0\0\0abcde", 0, &[0], &[], Some(260)),
    (b"00db\x06\0\0\0abcde", 0, &[1], &[], Some(260)),
    (b"00db\x05\0\0\0", 0, &[0], &[], Some(260)),
    (b"00db\x05\0\0\0", 0, &[1], &[], Some(260)),
    (
        b"00db\0\0\0\000dc\x06\0\0\0abcdef",
        0,
        &[0],
        &[(0, 1, 1, 276, 6)],
        None,
    ),
    (b"00pc\x06\0\0\0abcdef", 0, &[0], &[], None),
    (b"01db\x06\0\0\0abcdef", 0, &[0, 1], &[], None),
    (
        b"LIST\x04\0\0\0rec 00db\x06\0\0\0abcdef",
        0,
        &[0],
        &[(0, 0, 1, 280, 6)],
        None,
    ),
    (b"LIST\x03\0\0\0rec ", 0, &[0], &[], None),
    (b"LIST\x0e\0\0\0INFO00db\x06\0\0\0ab", 0, &[0], &[], None),
    (b"LIST\x04\0\0\0rec", 0, &[0], &[], Some(260)),
    (
        b"JUNK\x01\0\0\0a\000db\x06\0\0\0abcdef",
        0,
        &[0],
        &[(0, 0, 1, 278, 6)],
        None,
    ),
    (b"JUNK\x01\0\0\0a", 0, &[0], &[], None),
    (b"JUNK\x02\0\0\0a", 0, &[0], &[], Some(260)),
    (b"JUNK\x02\0\0", 0, &[0], &[], Some(260)),
    (b"00db\x06\0\0\0abcdefRIFF", 0, &[0], &[PICTURE], Some(274)),
    (
        b"01wb\x05\0\0\0abcde",
        0,
        &[0, 1],
        &[(1, 0, 2, 268, 4)],
        None,
    ),
    (
        b"01wb\x05\0\0\0abcd",
        0,
        &[1],
        &[(1, 0, 2, 268, 4)],
        Some(272),
    ),
    (b"01wb\x05\0\0\0abc", 0, &[0], &[], Some(268)),
    (
        b"01wb\x02\0\0\0ab01wb\x04\0\0\0abcd",
        0,
        &[1],
        &[(1, 0, 1, 268, 2), (1, 1, 2, 278, 4)],
        None,
    ),
    (
        b"01wb\x02\x08\0\0",
        2050,
        &[1],
        &[(1, 0, 1024, 268, 2048), (1, 1024, 1, 2316, 2)],
        None,
    ),
    (
        b"01wb\x02\x08\0\0",
        2049,
        &[1],
        &[(1, 0, 1024, 268, 2048)],
        Some(2316),
    ),
];

/// Where a chain stands.
#[derive(Clone, Copy, PartialEq, Eq, Debug)]
enum Stand {
    /// So many packets came as they should.
    Open(usize),
    /// All came, and the chain ends here.
    Over(Option<u64>),
    /// Another packet came, or too few.
    Wrong,
}

// Compares the packets that come by now, of which so many came before.
fn compared(cut: &mut AviCut, want: &[Given], before: usize) -> Result<Stand, AllocError>
    ensures { has_ended cut.new ≡ has_ended cut.old }
{
    let mut seen = before;
    'packets: for _ in 0..want.len() + 1 {
        match cut.pull()? {
            (stream, Cut::Pkt(p)) => {
                let given = (stream, p.pts, p.duration, p.pos, p.bytes.as_slice().len());
                if seen >= want.len() || want[seen] != given {
                    return Ok(Stand::Wrong);
                }
                seen += 1;
            }
            (_, Cut::NotYet) => return Ok(Stand::Open(seen)),
            (_, Cut::End) if seen == want.len() => return Ok(Stand::Over(None)),
            (_, Cut::Broken { offset }) if seen == want.len() => return Ok(Stand::Over(Some(
                offset,
            ))),
            _ => return Ok(Stand::Wrong),
        }
    }
    Ok(Stand::Wrong)
}

// How the chain of a row ends, fed in pieces of so many bytes.
fn told(
    alloc: Global,
    file: &[u8],
    used: &[u32],
    want: &[Given],
    piece: usize,
) -> Result<Stand, AllocError> {
    let Ok(head) = read_head(file, true) else {
        return Ok(Stand::Wrong);
    };
    if used.len() == 0 {
        return Ok(Stand::Wrong);
    }
    let mut cut = AviCut::new(alloc, &head, used);
    let mut seen = 0;
    let mut rest = from_place(file, file.len().min(260));
    'pieces: while rest.len() > 0 {
        cut.feed(front(rest, piece.max(1)))?;
        rest = from_place(rest, rest.len().min(piece.max(1)));
        match compared(&mut cut, want, seen)? {
            Stand::Open(now) => seen = now,
            other => return Ok(other),
        }
    }
    cut.end();
    compared(&mut cut, want, seen)
}

fn opening(alloc: Global) -> Result<Vec<u8>, AllocError> {
    let mut file = Vec::new(alloc);
    for part in OPENING {
        file.extend_from_slice(part)?;
    }
    Ok(file)
}

#[test]
fn chains(rt: HostRuntime) -> Result<(), Fail> {
    for (data, zeros, used, want, end) in ROWS {
        let mut file = opening(rt.alloc())?;
        file.extend_from_slice(data)?;
        for _ in 0..zeros {
            file.push(0)?;
        }
        for piece in [1, 2, 4096] {
            assert_eq!(rt;
                told(rt.alloc(), &file, used, want, piece)?,
                Stand::Over(end),
                "pieces of {piece}"
            );
        }
    }
    Ok(())
}
