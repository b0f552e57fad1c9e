//! Tests where each call on the host fails once, in a command of two inputs, a graph and one output, under
//! `-shortest`.
use crate::failing::{Job, fails_well};
use crate::runs::words_of;
use ff_host::HostCall;
use std::alloc::{AllocError, Global};

/// The lines of the output before those of the packets.
const HEAD: &str =
    "#format: frame checksums\n#version: 2\n#hash: SHA256\n#tb 0: 1/9000\n#media_type 0: audio\n#codec_id 0: pcm_s16le\n#sample_rate 0: 9000\n#channel_layout_name 0: stereo\n#tb 1: 1/4\n#media_type 1: video\n#codec_id 1: rawvideo\n#dimensions 1: 96x64\n#sar 1: 0/1\n#stream#, dts,        pts, duration,     size, hash\n";

/// SHA-256 of 4,096 times the letter a.
const SOUND: &str = "c93eee2d0db02f10acc7460d9576e122dcf8cd53c4bf8dfcae1b3e74ebcfff5a";

/// SHA-256 of 9,216 times the letter b.
const PICTURE: &str = "35e42ef1926b1fc1601e8530b05492808fb12240e6b23cf525d887f40d9dfce2";

// 3 seconds of stereo audio, of 16 bits and 9,000 sample frames a second.
fn sound(alloc: Global) -> Result<Vec<u8>, AllocError> {
    let mut bytes = Vec::new(alloc);
    bytes.extend_from_slice(
        b"RIFF\x04\xa6\x01\0WAVEfmt \x10\0\0\0\x01\0\x02\0\x28\x23\0\0\xa0\x8c\0\0\x04\0\x10\0data\xe0\xa5\x01\0",
    )?;
    let body = vec![in alloc; b'a'; 108_000]?;
    bytes.extend_from_slice(&body)?;
    Ok(bytes)
}

// 3 seconds of video, 4 frames a second.
fn pictures(alloc: Global) -> Result<Vec<u8>, AllocError> {
    let mut bytes = Vec::new(alloc);
    bytes.extend_from_slice(b"YUV4MPEG2 W96 H64 F4:1\n")?;
    let planes = vec![in alloc; b'b'; 9_216]?;
    for _ in 0..12 {
        bytes.extend_from_slice(b"FRAME\n")?;
        bytes.extend_from_slice(&planes)?;
    }
    Ok(bytes)
}

// The digests of what begins in the first 2 seconds, by the ticks of the audio. There is a packet of it each 1,024,
// and a frame each 2,250.
fn digests(alloc: Global) -> Result<String, AllocError> {
    let mut text = String::from_str(alloc, HEAD)?;
    for tick in 0..18_000 {
        if tick % 1_024 == 0 {
            let line = format!(in alloc;
                "0, {tick:>10}, {tick:>10},     1024,     4096, {SOUND}\n"
            )?;
            text.push_str(&line)?;
        }
        if tick % 2_250 == 0 {
            let time = tick / 2_250;
            let line = format!(in alloc;
                "1, {time:>10}, {time:>10},        1,     9216, {PICTURE}\n"
            )?;
            text.push_str(&line)?;
        }
    }
    Ok(text)
}

// The audio beside the first 2 seconds of the video, over queues of this size.
fn shortest(alloc: Global, size: &str) -> Result<Job, AllocError> {
    let words = [
        "-thread_queue_size",
        size,
        "-hide_banner",
        "-y",
        "-i",
        "in.wav",
        "-i",
        "clip.y4m",
        "-filter_complex",
        "[1:v]trim=end=2,setpts=PTS-STARTPTS[v]",
        "-map",
        "0:a",
        "-map",
        "[v]",
        "-shortest",
        "-f",
        "framehash",
        "out.txt",
    ];
    let mut inputs = Vec::new(alloc);
    inputs.push((String::from_str(alloc, "in.wav")?, sound(alloc)?))?;
    inputs.push((String::from_str(alloc, "clip.y4m")?, pictures(alloc)?))?;
    let digests = digests(alloc)?;
    Ok(Job {
        words: words_of(alloc, &words)?,
        inputs,
        output: String::from_str(alloc, "out.txt")?,
        appended: digests.as_bytes().to_vec(alloc)?,
        finished: digests.as_bytes().to_vec(alloc)?,
    })
}

// Of each input the output wants 73,728 bytes of samples: more than the head's piece of 4,096 bytes and the next one of 65,536 have.
const READ: [(HostCall, u32); 2] = [(HostCall::OpenSource, 1), (HostCall::Read, 3)];

#[test]
fn each_call_of_the_sound(rt: HostRuntime) -> Result<(), AllocError> {
    for size in ["1", "8"] {
        let job = shortest(rt.alloc(), size)?;
        assert!(rt; fails_well(&rt, rt.alloc(), &job, "in.wav", &READ)?);
    }
    Ok(())
}

#[test]
fn each_call_of_the_pictures(rt: HostRuntime) -> Result<(), AllocError> {
    for size in ["1", "8"] {
        let job = shortest(rt.alloc(), size)?;
        assert!(rt; fails_well(&rt, rt.alloc(), &job, "clip.y4m", &READ)?);
    }
    Ok(())
}

// The output is created once, gets its header, the lines of 18 packets and of 8 video frames, and is closed once.
#[test]
fn each_call_of_the_digests(rt: HostRuntime) -> Result<(), AllocError> {
    let due = [
        (HostCall::Create, 1),
        (HostCall::Append, 27),
        (HostCall::CloseSink, 1),
    ];
    for size in ["1", "8"] {
        let job = shortest(rt.alloc(), size)?;
        assert!(rt; fails_well(&rt, rt.alloc(), &job, "out.txt", &due)?);
    }
    Ok(())
}
