//! Numbers in words.
ghost use Rattle.std.specs.Prelude.{◌≡◌, ◌≤◌, IfSome};
ghost use Rattle.std.specs.List.{list_all};
ghost use Rattle.tau_base.specs.declared.limits.TheConstants.{MAX_STREAMS, MAX_WORKERS};
ghost use Rattle.tau_words.specs.Words.{is_digit, is_number, number_in, count_of, streams_of, workers_of, run_count_of};

use tau_base::{MAX_STREAMS, MAX_WORKERS};

fn is_digit(c: u8) -> bool
    ensures { result ≡ is_digit c }
{
    b'0' <= c && c <= b'9'
}

fn all_digits(word: &[u8]) -> bool
    ensures { result ≡ list_all is_digit word.now }
{
    for c in word {
        if !is_digit(*c) {
            return false;
        }
    }
    true
}

fn is_number(word: &[u8]) -> bool
    ensures { result ≡ is_number word.now }
{
    match word {
        [] => false,
        [c] => is_digit(*c),
        [b'0', ..] => false,
        _ => all_digits(word),
    }
}

/// The number that the word spells, from `low` to `high`: digits without a leading zero, or 0.
pub(crate) fn number_in(low: u32, high: u32, word: &str) -> Option<u32>
    ensures exact { result ≡ number_in low high word.now }
    ensures within { IfSome result (λ n. (low ≤ n) × (n ≤ high)) }
{
    if !is_number(word.as_bytes()) {
        return None;
    }
    match word.parse::<u32>() {
        Err(_) => None,
        Ok(n) => { if low <= n && n <= high { Some(n) } else { None } }
    }
}

/// Workers, workers of a recovery, or streams of a run that a command may ask for.
pub(crate) const MAX_COUNT: u32 = 16;

/// Where the rows of the measured job may begin.
pub(crate) const MAX_START: u32 = 999;

/// The last device call at which a drill may stop.
pub(crate) const MAX_DEVICE_CALL: u32 = 1_000_000;

/// A number of streams or workers.
pub(crate) fn count_of(word: &str) -> Option<u8>
    ensures exact { result ≡ count_of word.now }
    ensures within { IfSome result (λ n. (1 ≤ n) × (n ≤ MAX_COUNT)) }
{
    match number_in(1, MAX_COUNT, word) {
        None => None,
        Some(n) => Some(n as u8),
    }
}

/// A number of streams that are read, which may be of either format.
pub(crate) fn streams_of(word: &str) -> Option<u8>
    ensures exact { result ≡ streams_of word.now }
    ensures within { IfSome result (λ n. (1 ≤ n) × (n ≤ MAX_STREAMS)) }
{
    match number_in(1, MAX_STREAMS as u32, word) {
        None => None,
        Some(n) => Some(n as u8),
    }
}

/// A number of workers of a run whose report is read.
pub(crate) fn workers_of(word: &str) -> Option<u8>
    ensures exact { result ≡ workers_of word.now }
{
    match number_in(1, MAX_WORKERS as u32, word) {
        None => None,
        Some(n) => Some(n as u8),
    }
}

/// A number of streams or workers of a run, wide or not.
pub(crate) fn run_count_of(wide: bool, word: &str) -> Option<u8>
    ensures { result ≡ run_count_of wide word.now }
{
    if wide {
        streams_of(word)
    } else {
        count_of(word)
    }
}
