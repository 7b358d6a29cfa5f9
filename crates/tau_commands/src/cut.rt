//! A text that is cut at its first line `report`.
ghost use Rattle.std.specs.Prelude.{◌≡◌, [], None, Some, MatchOption};
ghost use Rattle.tau_commands.specs.Cut.{cut_at_report, cut_past_line};

use memchr::memmem;

/// What stands after the first line of a text, if this line is exactly `report`.
fn after_report(text: &[u8]) -> Option<&[u8]>
    ensures { MatchOption result (cut_at_report text.now ≡ cut_past_line text.now) (λ after. cut_at_report text.now ≡ Some ([], after.now)) }
{
    let Some(after) = text.strip_prefix(b"report".as_slice()) else {
        return None;
    };
    if after.len() == 0 {
        return Some(after);
    }
    if after[0] != b'\n' {
        return None;
    }
    Some(&after[1..])
}

/// What stands before the first line of a text that is exactly `report`, and what after it. A search finds the lines that
/// begin with this word: no other line is looked at, but for the first one.
pub fn cut_at_report(text: &[u8]) -> Option<(&[u8], &[u8])>
    ensures { MatchOption result (cut_at_report text.now ≡ None) (λ cut. cut_at_report text.now ≡ Some (cut.0.now, cut.1.now)) }
{
    if let Some(after) = after_report(text) {
        return Some((&[], after));
    }
    let mut at = 0;
    while let Some(end) = memmem::find(&text[at..], b"\nreport".as_slice()) {
        at += end + 1;
        if let Some(after) = after_report(&text[at..]) {
            return Some((&text[..at], after));
        }
    }
    None
}
