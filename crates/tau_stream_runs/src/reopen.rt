//! Runs that go on with a stream.
ghost use Rattle.std.specs.Prelude.{◌≡◌, ◌++◌, ◌∷◌, []};
ghost use Rattle.tau_block.specs.Image.{count_in, format_in, header_of, index_in};

use crate::digits::bytes_of;
use std::alloc::Global;
use tau_base::{Format, MAX_BODY, most_streams, same_format};
use tau_block::{contents_of, header, header_wide};
use tau_disk::MemDisk;
use tau_stream::Writer;

// Which stream this is: in which format, of how many, and its index.
#[derive(Clone, Copy)]
struct Named {
    format: Format,
    streams: u16,
    index: u16,
}

const NARROW: Named = Named {
    format: Format::One,
    streams: 1,
    index: 0,
};

const WIDE: Named = Named {
    format: Format::Two,
    streams: 32,
    index: 31,
};

// The header of this stream, and a closed gate.
fn head_of(named: Named) -> [u8; 17]
    ensures bytes { result ≡ header_of named.format named.streams named.index ++ 0 ∷ [] }
    ensures format { format_in result ≡ named.format }
    ensures names { (count_in result ≡ named.streams) × (index_in result ≡ named.index) }
{
    match named.format {
        Format::One => header(named.streams, named.index),
        Format::Two => header_wide(named.streams, named.index),
    }
}

// Goes on with the stream that this image holds.
fn reopened(alloc: Global, named: Named, image: &[u8], body: &[u8]) -> Option<Writer<MemDisk>> {
    let content = contents_of(alloc, image, named.index).ok()?;
    let streams = named.streams;
    let count = content.count.unwrap_or(streams);
    if count != streams || content.gate_at > 1_000 {
        return None;
    }
    let format = content.format.unwrap_or(named.format);
    if !same_format(format, named.format) {
        return None;
    }
    let index = named.index;
    let most = most_streams(named.format);
    if index >= streams || streams as usize > most {
        return None;
    }
    if body.len() < 5 || body.len() > MAX_BODY {
        return None;
    }
    let disk = MemDisk::of_image(alloc, image).ok()?;
    Writer::reopen(alloc, disk, head_of(named), content, body).ok()
}

/// The stream after a run went on with a body on an image, in format 1 the one of a stream of one, in format 2 stream 31 of 32.
pub(crate) fn gone_on(alloc: Global, is_wide: bool, words: &str) -> Option<Writer<MemDisk>> {
    let (digits, on) = words.split_once(" on ").unwrap_or((words, ""));
    let body = bytes_of(alloc, digits)?;
    let image = bytes_of(alloc, on)?;
    let named = if is_wide { WIDE } else { NARROW };
    reopened(alloc, named, image.as_slice(), body.as_slice())
}
