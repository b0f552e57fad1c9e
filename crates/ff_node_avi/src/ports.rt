//! The ports of an AVI's streams in use.
ghost use Rattle.std.specs.Prelude.{◌≡◌, ◌≤◌, length, slice_get};
ghost use Rattle.ff_node_avi.specs.Demuxing.{stream_of as stream_in, ports_of, heads_of, number_of, port_of as port_in};

use ff_avi::AviHead;
use ff_frame::StreamHead;

/// The streams in use: each is a port.
#[derive(Clone, Copy)]
pub struct AviPorts {
    /// The number in the file of the stream of port 0.
    pub number: u32,
    /// What is known of it.
    pub first: StreamHead,
    /// What is known of the stream of port 1, where there is one.
    pub second: Option<StreamHead>,
}

// The stream of this number, of a head that has it.
fn stream_of(head: &AviHead, number: u32) -> StreamHead
    ensures { result ≡ stream_in head.now number }
{
    if number == 0 {
        return head.first;
    }
    match head.second {
        None => head.first,
        Some(second) => second,
    }
}

impl AviPorts {
    /// The ports of the streams of these numbers.
    pub fn new(head: &AviHead, used: &[u32]) -> AviPorts
        requires { 1 ≤ length used.now }
        ensures { result ≡ ports_of head.now used.now }
    {
        let number = used[0];
        let first = stream_of(head, number);
        if used.len() == 1 {
            return AviPorts {
                number,
                first,
                second: None,
            };
        }
        AviPorts {
            number,
            first,
            second: Some(stream_of(head, used[1])),
        }
    }

    /// How many there are.
    pub fn count(&self) -> usize
        ensures { result ≡ number_of self.now }
    {
        match self.second {
            None => 1,
            Some(_) => 2,
        }
    }

    /// What is known of the stream of a port.
    pub fn head(&self, port: usize) -> Option<StreamHead>
        ensures { result ≡ slice_get (heads_of self.now) port }
    {
        match port {
            0 => Some(self.first),
            1 => self.second,
            _ => None,
        }
    }

    /// The port of a stream in use.
    pub fn port(&self, stream: u32) -> usize
        ensures value { result ≡ port_in self.now stream }
        ensures few { result ≤ 1 }
    {
        if stream == self.number { 0 } else { 1 }
    }
}
