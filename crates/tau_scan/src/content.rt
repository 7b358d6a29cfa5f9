//! The contents of all streams.
ghost use Rattle.std.specs.Prelude.{◌≡◌, ◌≤◌, length, map, None, IfOk, IfSome};
ghost use Rattle.tau_base.specs.declared.limits.TheConstants.{MAX_STREAMS};
ghost use Rattle.tau_block.specs.Image.{image_of};
ghost use Rattle.tau_scan.specs.Reading.{opened, formatted, counted, contents_of, asked_format, stated_by, first_of, or_roomy};
ghost use Rattle.tau_scan.specs.Found.{FoundAs};
ghost use Rattle.tau_scan.specs.Contents.{bytes_in, IsContentOf, AreContents};

use crate::fault::{LogCause, LogFault, LogRefusal};
use std::alloc::Global;
use tau_base::{Format, Listed, Lv, MAX_LSN, format_number, most_streams, same_format};
use tau_block::{Content, ImageRefusal, contents_of, stated_format};

/// The content, unless its header counts other streams.
fn counted(content: Content, n: u16, j: u8) -> Result<Content, LogRefusal>
    ensures found { FoundAs (λ c. c.bytes) result (counted n j content.count content.bytes) }
    ensures same { IfOk result (λ c. c ≡ content) }
{
    match content.count {
        None => Ok(content),
        Some(found) if found == n => Ok(content),
        Some(found) => Err(LogRefusal::Bad(LogFault {
            stream: j,
            cause: LogCause::Count { asked: n, found },
        })),
    }
}

/// The content, unless its header states another format or counts other streams.
fn formatted(content: Content, format: Format, n: u16, j: u8) -> Result<Content, LogRefusal>
    ensures found { FoundAs (λ c. c.bytes) result (formatted format j content.format (counted n j content.count content.bytes)) }
    ensures same { IfOk result (λ c. c ≡ content) }
{
    match content.format {
        None => counted(content, n, j),
        Some(found) if same_format(format, found) => counted(content, n, j),
        Some(found) => Err(LogRefusal::Bad(LogFault {
            stream: j,
            cause: LogCause::Format {
                asked: format_number(format),
                found: format_number(found),
            },
        })),
    }
}

/// The content of the image of stream `j` of `n`, in a format.
fn content_in(
    alloc: Global,
    image: &[u8],
    format: Format,
    n: u16,
    j: u8,
) -> Result<Content, LogRefusal>
    ensures found { FoundAs (λ c. c.bytes) result (opened format n j (image_of j image.now)) }
    ensures is { IfOk result (λ c. IsContentOf format n j image.now c) }
{
    match contents_of(alloc, image, u16::from(j)) {
        Ok(content) => formatted(content, format, n, j),
        Err(ImageRefusal::NoMemory) => Err(LogRefusal::NoMemory),
        Err(ImageRefusal::Bad(fault)) => Err(LogRefusal::Bad(LogFault {
            stream: j,
            cause: LogCause::Image(fault),
        })),
    }
}

/// The format that the lowest born stream states.
fn stated_by(images: &[Listed<u8>]) -> Option<Format>
    ensures { result ≡ stated_by images.now }
{
    for image in images {
        if let Some(format) = stated_format(image.as_slice()) {
            return Some(format);
        }
    }
    None
}

/// The format for so many streams, if none of them states one.
fn roomy(n: usize) -> Format
    ensures { result ≡ or_roomy n None }
{
    if n <= most_streams(Format::One) {
        Format::One
    } else {
        Format::Two
    }
}

/// The format that is asked of these images: the one given, else that of the lowest born stream.
pub fn asked_format(asked: Option<Format>, images: &[Listed<u8>]) -> Format
    ensures { result ≡ asked_format asked images.now }
{
    match asked {
        Some(format) => format,
        None => match stated_by(images) {
            Some(format) => format,
            None => roomy(images.len()),
        },
    }
}

/// The contents of the images, of which one is that of each stream, in a format.
pub fn contents_in(
    alloc: Global,
    format: Format,
    images: &[Listed<u8>],
) -> Result<Listed<Content>, LogRefusal>
    requires { length images.now ≤ MAX_STREAMS }
    ensures same { FoundAs bytes_in result (contents_of format images.now) }
    ensures are { IfOk result (λ contents. AreContents format images.now contents) }
{
    let n = images.len() as u16;
    let mut contents = Listed::new(alloc);
    for (j, image) in images.iter().enumerate() {
        let content = content_in(alloc, image.as_slice(), format, n, j as u8)?;
        contents.push(content)?;
    }
    Ok(contents)
}

/// The lengths of the contents. There is none where a length is no position.
pub fn lengths_of(contents: &[Content]) -> Option<Lv>
    requires low { 1 ≤ length contents.now }
    requires high { length contents.now ≤ MAX_STREAMS }
    ensures { IfSome result (λ elv. elv ≡ map length (bytes_in contents.now)) }
{
    let mut elv = Lv::zero(contents.len());
    for (j, content) in contents.iter().enumerate() {
        let length = content.bytes.len() as u64;
        if length >= MAX_LSN {
            return None;
        }
        elv.set(j, length);
    }
    Some(elv)
}
