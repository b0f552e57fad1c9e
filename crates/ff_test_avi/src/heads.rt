//! Heads: a file with some of its bytes changed, how many of them are there, and the answer.
use ff_avi::read_head;
use ff_frame::HeadEnd::{self, Damaged, NotYet, Unsupported};
use ff_lists::{from_place, front};
use std::alloc::{AllocError, Global};
use std::test::Fail;

/// A file of one picture of 2 columns and 2 rows, 174 bytes.
const PICTURES: [&[u8]; 13] = [
    b"RIFF\0\0\0\0AVI LIST\x80\0\0\0hdrl",
    b"LIST\x74\0\0\0strl",
    b"strh\x38\0\0\0vids",
    &[0; 16],
    b"\x01\0\0\0",
    b"\x19\0\0\0",
    &[0; 28],
    b"strf\x28\0\0\0\0\0\0\0",
    b"\x02\0\0\0\x02\0\0\0\0\0\0\0",
    b"I420",
    &[0; 20],
    b"LIST\0\0\0\0movi",
    b"00db\x06\0\0\0abcdef",
];

/// A file of sound of 1,000 samples a second with 8 bits, 136 bytes.
const SOUND: [&[u8]; 8] = [
    b"RIFF\0\0\0\0AVI LIST\x68\0\0\0hdrl",
    b"LIST\x5c\0\0\0strl",
    b"strh\x38\0\0\0auds",
    &[0; 52],
    b"strf\x10\0\0\0",
    b"\x01\0\x01\0\xe8\x03\0\0",
    b"\xe8\x03\0\0\x01\0\x08\0",
    b"LIST\0\0\0\0movi",
];

/// What is changed from a place on, how many bytes are there, whether no more come, and the start of the data or the fault.
type Row = (usize, &'static [u8], usize, bool, Result<u64, HeadEnd>);

const OF_PICTURES: [Row; 45] = [
    (0, b"RIFF", 174, true, Ok(160)),
    (0, b"RIFF", 160, false, Ok(160)),
    (0, b"RIFF", 159, false, Err(NotYet)),
    (0, b"RIFF", 159, true, Err(Damaged { offset: 159 })),
    (0, b"RIFF", 12, true, Err(Damaged { offset: 12 })),
    (0, b"RIFF", 11, true, Err(Unsupported { offset: 0 })),
    (3, b"X", 4, false, Err(Unsupported { offset: 0 })),
    (11, b"X", 12, false, Err(Unsupported { offset: 0 })),
    (16, b"\0", 174, true, Err(Damaged { offset: 174 })),
    (16, b"\x50", 174, true, Ok(160)),
    (16, b"\x8c", 174, true, Err(Damaged { offset: 174 })),
    (28, b"\0", 160, false, Err(Damaged { offset: 148 })),
    (28, b"\x0b", 36, false, Err(Damaged { offset: 24 })),
    (28, b"\x0b", 35, false, Err(NotYet)),
    (28, b"\x4b", 100, false, Err(Damaged { offset: 24 })),
    (28, b"\x4b", 99, false, Err(NotYet)),
    (36, b"JUNK", 44, false, Err(Damaged { offset: 24 })),
    (40, b"\x37", 44, false, Err(Damaged { offset: 24 })),
    (40, b"\x37", 43, false, Err(NotYet)),
    (44, b"txts", 100, false, Err(Unsupported { offset: 44 })),
    (44, b"txts", 99, false, Err(NotYet)),
    (44, b"VIDS", 174, true, Err(Unsupported { offset: 44 })),
    (64, b"\0", 174, true, Err(Unsupported { offset: 64 })),
    (
        64,
        b"\0\0\0\0\0\0\0\0",
        174,
        true,
        Err(Unsupported { offset: 64 }),
    ),
    (
        64,
        b"\xff\xff\xff\xff\0\0\0\0",
        174,
        true,
        Err(Unsupported { offset: 68 }),
    ),
    (64, b"\xff\xff\xff\xff\xff\xff\xff\xff", 174, true, Ok(160)),
    (
        64,
        b"\xff\xff\xff\xff\xfd\xff\xff\xff",
        174,
        true,
        Err(Unsupported { offset: 64 }),
    ),
    (64, b"\0\0\0\x80\0\0\0\x80", 174, true, Ok(160)),
    (
        64,
        b"\x02\0\0\0\xff\xff\xff\xff",
        174,
        true,
        Err(Unsupported { offset: 68 }),
    ),
    (64, b"\xfe\xff\xff\xff\x02\0\0\0", 174, true, Ok(160)),
    (68, b"\0", 100, false, Err(Unsupported { offset: 68 })),
    (68, b"\0", 99, false, Err(NotYet)),
    (100, b"JUNK", 108, false, Err(Damaged { offset: 24 })),
    (104, b"\x27", 108, false, Err(Damaged { offset: 100 })),
    (104, b"\x27", 107, false, Err(NotYet)),
    (112, b"\0", 148, false, Err(Unsupported { offset: 112 })),
    (
        112,
        b"\x01\x40",
        174,
        true,
        Err(Unsupported { offset: 112 }),
    ),
    (112, b"\0\x40", 174, true, Ok(160)),
    (
        116,
        b"\xfe\xff\xff\xff",
        174,
        true,
        Err(Unsupported { offset: 116 }),
    ),
    (124, b"H264", 148, false, Err(Unsupported { offset: 124 })),
    (124, b"H264", 147, false, Err(NotYet)),
    (124, b"IYUV", 174, true, Ok(160)),
    (148, b"JUNK", 174, true, Err(Damaged { offset: 174 })),
    (152, b"\xff\xff\xff\xff", 174, true, Ok(160)),
    (156, b"rec ", 174, true, Err(Damaged { offset: 174 })),
];

const OF_SOUND: [Row; 12] = [
    (0, b"RIFF", 136, false, Ok(136)),
    (0, b"RIFF", 135, false, Err(NotYet)),
    (64, b"\xff\xff\xff\xff\xff\xff\xff\xff", 136, true, Ok(136)),
    (104, b"\x0f", 108, false, Err(Damaged { offset: 100 })),
    (108, b"\x03", 124, false, Err(Unsupported { offset: 108 })),
    (108, b"\x03", 123, false, Err(NotYet)),
    (108, b"\xfe\xff", 136, true, Err(Damaged { offset: 100 })),
    (110, b"\0", 136, true, Err(Unsupported { offset: 110 })),
    (110, b"\x09", 136, true, Err(Unsupported { offset: 110 })),
    (112, b"\0\0", 136, true, Err(Unsupported { offset: 112 })),
    (120, b"\x02", 136, true, Err(Unsupported { offset: 120 })),
    (122, b"\x0c", 136, true, Err(Unsupported { offset: 122 })),
];

fn joined(alloc: Global, parts: &[&[u8]]) -> Result<Vec<u8>, AllocError> {
    let mut all = Vec::new(alloc);
    for part in parts {
        all.extend_from_slice(part)?;
    }
    Ok(all)
}

// The answer to the file of a row.
fn answer(alloc: Global, file: &[u8], row: Row) -> Result<Result<u64, HeadEnd>, AllocError> {
    let (place, bytes, count, whole, _) = row;
    let rest = place.saturating_add(bytes.len()).min(file.len());
    let mut changed = front(file, place).to_vec(alloc)?;
    changed.extend_from_slice(bytes)?;
    changed.extend_from_slice(from_place(file, rest))?;
    match read_head(front(&changed, count), whole) {
        Ok(head) => Ok(Ok(head.start)),
        Err(end) => Ok(Err(end)),
    }
}

#[test]
fn pictures(rt: HostRuntime) -> Result<(), Fail> {
    let file = joined(rt.alloc(), &PICTURES)?;
    for row in OF_PICTURES {
        assert_eq!(rt;
            answer(rt.alloc(), &file, row)?,
            row.4,
            "at {} of {}",
            row.0,
            row.2
        );
    }
    Ok(())
}

#[test]
fn sound(rt: HostRuntime) -> Result<(), Fail> {
    let file = joined(rt.alloc(), &SOUND)?;
    for row in OF_SOUND {
        assert_eq!(rt;
            answer(rt.alloc(), &file, row)?,
            row.4,
            "at {} of {}",
            row.0,
            row.2
        );
    }
    Ok(())
}
