//! Of which inputs an output makes its next items.
use crate::reach::Reach;
use crate::track::Track;

impl Track {
    /// Whether it makes its next items of this input. That is the stream of its own in the current segment, and where
    /// that is whole, each other of that segment.
    pub(crate) fn draws_on(
        &self,
        reaches: &[Reach],
        width: usize,
        number: usize,
        port: usize,
    ) -> bool {
        if self.is_done() || width == 0 || port / width != self.current {
            return false;
        }
        if port % width == number {
            return true;
        }
        let first = port - port % width;
        match first.checked_add(number) {
            None => false,
            Some(own) => own < reaches.len() && reaches[own].after.is_over(),
        }
    }
}
