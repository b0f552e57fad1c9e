//! Tests of frames that go from a cut to a decoder.
use ff_flac_dec::{FlacCut, FlacHead, FrameReceiver, frame_channel, read_head};
use ff_frame::{Cut, Pkt};
use ff_reader::PacketCut;
use std::test::Fail;

// The head of a stream of one channel of 8 bits at 8,000 Hz, and a frame of the samples 97, 98 and 99.
const FILE: [u8; 55] = [
    0x66, 0x4c, 0x61, 0x43, 0x80, 0x00, 0x00, 0x22, 0x10, 0x00, 0x10, 0x00, 0x00, 0x00, 0x00, 0x00,
    0x00, 0x00, 0x01, 0xf4, 0x00, 0x70, 0x00, 0x00, 0x00, 0x03, 0x00, 0x00, 0x00, 0x00, 0x00, 0x00,
    0x00, 0x00, 0x00, 0x00, 0x00, 0x00, 0x00, 0x00, 0x00, 0x00, 0xff, 0xf8, 0x64, 0x02, 0x00, 0x02,
    0x6a, 0x12, 0x61, 0x00, 0x09, 0x20, 0x50,
];

fn comes(receiver: &mut FrameReceiver, head: &FlacHead, packet: &Pkt) -> bool {
    receiver
        .take(&head.stream(), packet.pos, packet.bytes.as_slice())
        .is_some()
}

#[test]
fn frames_are_sent_once(rt: HostRuntime) -> Result<(), Fail> {
    let alloc = rt.alloc();
    let head = read_head(&FILE, true)?;
    let (sender, mut receiver) = frame_channel(alloc, 1)?;
    let mut cut = FlacCut::new(alloc, &head);
    cut.send_frames_to(sender);
    cut.feed(&FILE[42..])?;
    let Cut::Pkt(packet) = cut.pull()? else {
        return Err(Fail::new("no packet"));
    };
    assert!(rt; comes(&mut receiver, &head, &packet));
    assert!(rt; !comes(&mut receiver, &head, &packet));
    Ok(())
}
