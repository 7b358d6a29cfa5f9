//! Which worker has a call, and which stream has a worker's records.
ghost use Rattle.std.specs.Prelude.{◌≡◌, ◌<◌, ◌≤◌, ◌-◌, ◌%◌};

/// The worker of the call with this number, of so many. Calls are numbered from 1 and dealt in turn.
pub fn worker_of(number: u64, workers: usize) -> usize
    requires some { 1 ≤ workers }
    ensures same { result ≡ (number - 1) % workers }
    ensures there { result < workers }
{
    (number.saturating_sub(1) % workers as u64) as usize
}

/// The stream, of so many, to which a worker's records go. The shards of the lock table are dealt to streams likewise.
pub fn stream_of(worker: usize, streams: usize) -> usize
    requires some { 1 ≤ streams }
    ensures same { result ≡ worker % streams }
    ensures there { result < streams }
{
    worker % streams
}
