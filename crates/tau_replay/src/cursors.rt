//! Which record a worker in a thread starts next.
use std::alloc::Global;
use tau_base::{MAX_RECOVERY_WORKERS, MAX_STREAMS, NoMemory};
use tau_pool::Pools;

/// Places of records of one stream.
#[derive(Clone, Copy, Debug)]
struct Span {
    /// That of its first record that nobody has started.
    next: usize,
    /// The one after its last record.
    end: usize,
}

/// For each stream of the log how far its records are started: workers start them in their order.
#[derive(Drop)]
pub struct Cursors {
    spans: Vec<Span>,
    /// For each worker the stream that gave its last one.
    streams: Vec<usize>,
}

/// The records of each stream of the log.
fn spans_of(alloc: Global, pools: &Pools) -> Result<Vec<Span>, NoMemory> {
    let mut spans = Vec::new(alloc);
    for stream in 0..MAX_STREAMS {
        let Some(next) = pools.first_of(stream) else {
            break;
        };
        let end = pools.first_of(stream + 1).unwrap_or(usize::MAX);
        spans.push(Span { next, end })?;
    }
    Ok(spans)
}

/// The stream of so many with which a worker begins.
fn first_stream(worker: usize, count: usize) -> usize {
    if count == 0 {
        return 0;
    }
    worker % count
}

impl Cursors {
    /// Nothing is started yet, and each worker begins with another stream as long as there are some.
    pub fn new(alloc: Global, pools: &Pools) -> Result<Cursors, NoMemory> {
        let spans = spans_of(alloc, pools)?;
        let mut streams = Vec::new(alloc);
        for worker in 0..MAX_RECOVERY_WORKERS {
            streams.push(first_stream(worker, spans.len()))?;
        }
        Ok(Cursors { spans, streams })
    }

    /// The place of the next record of a stream, or one where no record is.
    fn place_of(&self, stream: usize) -> usize {
        match self.spans.get(stream) {
            Some(span) => {
                if span.next < span.end {
                    span.next
                } else {
                    usize::MAX
                }
            }
            None => usize::MAX,
        }
    }

    /// The stream that gave a worker its last one.
    fn stream_of(&self, worker: usize) -> usize {
        match self.streams.get(worker) {
            Some(stream) => *stream,
            None => 0,
        }
    }

    /// The place of the next record of the stream that gave a worker its last one.
    pub fn place(&self, worker: usize) -> usize {
        self.place_of(self.stream_of(worker))
    }

    /// The place of the next record that is ready, of the first stream after the one that gave a worker its last one, or
    /// a place where no record is. The worker goes on with that stream.
    pub fn seek(&mut self, pools: &Pools, worker: usize) -> usize {
        let last = self.stream_of(worker);
        let count = self.spans.len();
        for k in 1..count {
            let stream = last.wrapping_add(k) % count;
            let place = self.place_of(stream);
            if pools.ready_at(place).is_some() {
                match self.streams.get_mut(worker) {
                    Some(own) => *own = stream,
                    None => {}
                }
                return place;
            }
        }
        usize::MAX
    }

    /// The record that was named last for a worker is started.
    pub fn pass(&mut self, worker: usize) {
        let stream = self.stream_of(worker);
        match self.spans.get_mut(stream) {
            Some(span) => span.next = span.next.wrapping_add(1),
            None => {}
        }
    }
}
