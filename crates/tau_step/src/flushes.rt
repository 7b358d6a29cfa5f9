//! Which streams a run flushes, in order.
ghost use Rattle.std.specs.Prelude.{◌≡◌, [], true};
ghost use Rattle.tau_step.specs.Device.{NotesFlush};

use std::alloc::Global;
use tau_base::Listed;

/// The stream of each flush of a run, in order, if flushes are noted.
#[derive(Drop)]
pub(crate) struct Flushes {
    /// Whether they are noted.
    pub(crate) noted: bool,
    /// The stream of each of them.
    pub(crate) streams: Listed<u8>,
}

impl Flushes {
    /// None has come yet.
    pub(crate) fn new(alloc: Global, noted: bool) -> Flushes
        ensures streams { result.streams ≡ [] }
        ensures noted { result.noted ≡ noted }
    {
        Flushes {
            noted,
            streams: Listed::new(alloc),
        }
    }

    /// The stream is flushed. Out of memory, no flush is noted from then on.
    pub(crate) fn note(&mut self, stream: u8)
        ensures { NotesFlush stream self.old self.new }
    {
        if !self.noted {
            return;
        }
        match self.streams.push(stream) {
            Ok(()) => {}
            Err(_) => self.noted = false,
        }
    }
}
