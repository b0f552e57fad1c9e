//! The sink of a file.
ghost use Rattle.std.specs.Prelude.{◌≡◌, true, is_some};

use ff_host::Sink;

/// The sink of a file, which a host created under a name.
#[derive(Drop)]
pub struct FileSink<S: Sink> {
    /// The sink itself.
    pub(crate) snk: S,
    ghost named: { is_some (S.name snk) ≡ true },
}

impl<S: Sink> FileSink<S> {
    /// Of this sink, which has a name.
    pub(crate) fn new(snk: S) -> FileSink<S>
        requires { is_some (S.name snk) ≡ true }
        ensures { result.snk ≡ snk }
    {
        FileSink { snk }
    }

    /// The sink itself.
    pub(crate) fn into_inner(self) -> S
        ensures { result ≡ self.snk }
    {
        self.snk
    }
}
