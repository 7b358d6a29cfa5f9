//! The checks of an audit.
ghost use Rattle.std.specs.Prelude.{ℕ, ◌≡◌, ◌+◌, ◌-◌, ◌↔◌, IsTrue, Some, length, map, slice_index_or};
ghost use Rattle.tau_report.specs.declared.report.Fate.TheVariants.{Unrun};
ghost use Rattle.tau_inspect.specs.Audit.{acts, numbers, FitsFate, FitsReply, reply_of};
ghost use Rattle.tau_inspect.specs.ByNumber.{HasFlags, HasCounts};
ghost use Rattle.tau_inspect.specs.Cases.{in_case};
ghost use Rattle.tau_inspect.specs.Executed.{effects};
ghost use Rattle.tau_inspect.specs.Firsts.{Finds};
ghost use Rattle.tau_inspect.specs.Tests.{told_so};

use crate::case::LentCase;
use crate::executed::AllDone;
use crate::same::same_reply;
use tau_proc::Reply;
use tau_report::{Fate, KeptFate};

/// Whether a call is told as it stands in the order.
fn told_so(fate: &KeptFate, count: usize, acked: bool) -> bool
    ensures { result ≡ told_so fate.now count acked }
{
    match fate.fate() {
        Fate::Acked(_) => count == 1 && acked,
        Fate::Unsure(_) => count == 1 && !acked,
        Fate::Unrun => count == 0 && !acked,
    }
}

/// The lowest call that is not told as it stands in the order.
pub fn check_fate(case: &LentCase<'_>, counts: &[usize], acked: &[bool]) -> Option<u64>
    requires many { length case.now.report.now.fates ≡ length case.now.load.now.calls }
    requires counted { HasCounts (length case.now.load.now.calls) case.now.report.now.order counts.now }
    requires flagged { HasFlags (length case.now.load.now.calls) (map (λ a. a.0) case.now.report.now.acks) acked.now }
    ensures { Finds (λ n. n) (FitsFate (in_case case.now)) (numbers (in_case case.now)) result }
{
    for i in 0..case.report.fates.len() {
        if !told_so(&case.report.fates[i], counts[i + 1], acked[i + 1]) {
            return Some((i + 1) as u64);
        }
    }
    None
}

/// Whether the call with this number is told to have replied so.
pub fn has_replied(fates: &[KeptFate], number: u64, reply: &Reply) -> bool
    ensures { IsTrue result ↔ (reply_of (slice_index_or fates.now (number - 1) Unrun) ≡ Some reply.now) }
{
    match fates.get(number.saturating_sub(1) as usize) {
        None => false,
        Some(kept) => match kept.fate() {
            Fate::Acked(told) => same_reply(&told, reply),
            Fate::Unsure(told) => same_reply(&told, reply),
            Fate::Unrun => false,
        },
    }
}

/// The first call of the order that is told to have replied otherwise than it does there.
pub fn check_reply(case: &LentCase<'_>, done: &AllDone) -> Option<u64>
    requires done { done.now ≡ effects (acts (in_case case.now)) }
    requires many { length done.now ≡ length case.now.report.now.order }
    ensures { Finds (λ x. x.call.number) (FitsReply (in_case case.now)) (acts (in_case case.now)) result }
{
    for i in 0..done.len() {
        let number = case.report.order[i];
        let did = done.at(i);
        if !has_replied(case.report.fates.as_slice(), number, did.reply()) {
            return Some(number);
        }
    }
    None
}
