//! Passing over what waits for a stream.
ghost use Rattle.std.specs.Prelude.{◌≡◌, ◌≤◌, ℕ, true, length, drop, slice_get, Some, IsNone, IfSome};
ghost use Rattle.tau_base.specs.Vectors.{AtMost};
ghost use Rattle.tau_pool.specs.Item.{Item};
ghost use Rattle.tau_pool.specs.Items.{is_waiting};
ghost use Rattle.tau_pool.specs.Passing.{is_ready, pass_from};
ghost use Rattle.tau_pool.specs.Kept.{IsMet, AreRising};

use crate::items::Items;
use crate::waits::Wait;
use tau_base::{Listed, Lv};

/// How far a pass came, and the ready record that ended it.
#[derive(Clone, Copy, Debug)]
pub struct Pass {
    /// How many are passed.
    pub passed: usize,
    /// The ready record, as its number among the taken records.
    pub found: Option<usize>,
}

/// Passes over what waits for a stream of which so much is recovered, until a record is ready.
pub fn pass_on(waits: &[Wait], passed: usize, items: &Items, rlv: &Lv, reach: u64) -> Pass
    requires { passed ≤ length waits.now }
    ensures { result ≡ pass_from items.now rlv.now reach passed (drop passed waits.now) }
{
    for p in passed..waits.len() {
        let wait = waits[p];
        if wait.at > reach {
            return Pass {
                passed: p,
                found: None,
            };
        }
        if items.is_ready(wait.item, rlv) {
            return Pass {
                passed: p,
                found: Some(wait.item),
            };
        }
    }
    Pass {
        passed: waits.len(),
        found: None,
    }
}

/// The first ready record, in the order of the streams that it waited for last. What can't be ready is passed over.
pub fn next_ready(
    items: &Items,
    rlv: &Lv,
    waits: &[Listed<Wait>],
    passed: &mut Vec<usize>,
) -> Option<usize>
    requires many { length waits.now ≡ length rlv.now }
    requires count { length passed.old.items ≡ length rlv.now }
    requires rising { AreRising waits.now }
    requires met { IsMet rlv.now items.now waits.now passed.old.items }
    ensures met { IsMet rlv.now items.now waits.now passed.new.items }
    ensures count { length passed.new.items ≡ length rlv.now }
    ensures found { IfSome result (λ i. is_ready items.now rlv.now i ≡ true) }
    ensures none { IsNone result → (i : ℕ) (x : Item) → slice_get items.now i ≡ Some x → is_waiting x.stage ≡ true → AtMost x.dep rlv.now → ⊥ }
{
    for k in 0..waits.len() {
        let pass = pass_on(waits[k].as_slice(), passed[k], items, rlv, rlv.get(k));
        passed[k] = pass.passed;
        if let Some(place) = pass.found {
            return Some(place);
        }
    }
    None
}

/// The first ready record, by stream and place.
pub fn first_ready(items: &Items, rlv: &Lv) -> Option<usize>
    ensures found { IfSome result (λ i. is_ready items.now rlv.now i ≡ true) }
    ensures none { IsNone result → (i : ℕ) (x : Item) → slice_get items.now i ≡ Some x → is_waiting x.stage ≡ true → AtMost x.dep rlv.now → ⊥ }
{
    for place in 0..items.len() {
        if items.is_ready(place, rlv) {
            return Some(place);
        }
    }
    None
}
