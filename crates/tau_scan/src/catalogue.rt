//! The one catalogue of all streams.
ghost use Rattle.std.specs.Prelude.{◌≡◌, ◌≤◌, ◌<◌, ◌+◌, ℕ, List, length, map, drop, Result, Ok, Err, Option, Some, None, IfOk, IfErr, IfSome, IsNone, is_some, slice_get};
ghost use Rattle.std.specs.List.{All};
ghost use Rattle.tau_base.specs.declared.limits.TheConstants.{MAX_CATALOGUE, MAX_STREAMS};
ghost use Rattle.tau_scan.specs.Reading.{catalogue_of, alike, unless_other, catalogue_from, catalogue_in};
ghost use Rattle.tau_scan.specs.Found.{IsShort, other_text};

use crate::fault::{LogCause, LogFault};
use crate::records::catalogue_text;
use tau_base::Listed;
use tau_record::Placed;

/// With how many bytes two texts begin alike.
pub fn alike(text: &[u8], other: &[u8]) -> u32
    requires { length text.now ≤ MAX_CATALOGUE }
    ensures { result ≡ alike text.now other.now }
{
    let most = text.len().min(other.len());
    for n in 0..most {
        if text[n] != other[n] {
            return n as u32;
        }
    }
    most as u32
}

/// Whether a stream has a catalogue.
fn has_text(records: &[Placed]) -> bool
    ensures { result ≡ is_some (catalogue_of records.now) }
{
    match catalogue_text(records) {
        Some(_) => true,
        None => false,
    }
}

/// The lowest stream that has a catalogue.
fn first_with(streams: &[Listed<Placed>]) -> Option<usize>
    ensures some { IfSome result (λ j. (j < length streams.now) × (catalogue_in streams.now ≡ catalogue_from j (drop j (map catalogue_of streams.now)))) }
    ensures text { IfSome result (λ j. (text : List ℕ) × (slice_get (map catalogue_of streams.now) j ≡ Some (Some text))) }
    ensures none { IsNone result → catalogue_in streams.now ≡ Ok None }
{
    for (j, records) in streams.iter().enumerate() {
        if has_text(records.as_slice()) {
            return Some(j);
        }
    }
    None
}

/// The fault of a stream whose text is not that of stream `with`.
fn other_text(with: u8, text: &[u8], stream: u8, records: &[Placed]) -> Option<LogFault>
    requires { length text.now ≤ MAX_CATALOGUE }
    ensures { result ≡ other_text with text.now stream (catalogue_of records.now) }
{
    match catalogue_text(records) {
        None => None,
        Some(other) => {
            if text == other {
                return None;
            }
            Some(LogFault {
                stream,
                cause: LogCause::Catalogue {
                    with,
                    at: alike(text, other),
                },
            })
        }
    }
}

/// The one text of all streams after stream `with`, or the first that has another.
fn same_text(with: usize, text: &[u8], streams: &[Listed<Placed>]) -> Result<(), LogFault>
    requires there { with < length streams.now }
    requires few { length streams.now ≤ MAX_STREAMS }
    requires short { length text.now ≤ MAX_CATALOGUE }
    ensures ok { IfOk result (λ _. unless_other with text.now (with + 1) (drop (with + 1) (map catalogue_of streams.now)) ≡ Ok (Some text.now)) }
    ensures err { IfErr result (λ fault. unless_other with text.now (with + 1) (drop (with + 1) (map catalogue_of streams.now)) ≡ Err fault) }
{
    for j in with + 1..streams.len() {
        if let Some(fault) = other_text(with as u8, text, j as u8, streams[j].as_slice()) {
            return Err(fault);
        }
    }
    Ok(())
}

/// The text that all streams with a catalogue have, or the first stream that has another.
pub fn one_catalogue(streams: &[Listed<Placed>]) -> Result<Option<&[u8]>, LogFault>
    requires few { length streams.now ≤ MAX_STREAMS }
    requires short { All (λ ps. IsShort (catalogue_of ps)) streams.now }
    ensures some { IfOk result (λ found. IfSome found (λ text. catalogue_in streams.now ≡ Ok (Some text.now))) }
    ensures none { IfOk result (λ found. IsNone found → catalogue_in streams.now ≡ Ok None) }
    ensures err { IfErr result (λ fault. catalogue_in streams.now ≡ Err fault) }
{
    let Some(with) = first_with(streams) else {
        return Ok(None);
    };
    match catalogue_text(streams[with].as_slice()) {
        None => Ok(None),
        Some(text) => match same_text(with, text, streams) {
            Ok(()) => Ok(Some(text)),
            Err(fault) => Err(fault),
        },
    }
}
