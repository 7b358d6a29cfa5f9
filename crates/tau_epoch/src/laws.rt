//! Laws of known epochs and of the vectors against which records are judged.
ghost use Rattle.std.specs.Prelude.{◌≡◌, ◌≤◌, ◌↔◌, List, ℕ, None, Some};
ghost use Rattle.std.specs.List.{Contains};
ghost use Rattle.tau_base.specs.Vectors.{AtMost};
ghost use Rattle.tau_epoch.specs.Epochs.{Mark, least_above, meet};
ghost use Rattle.tau_epoch.specs.Laws.{IsLeast};

/// The least epoch above a number is a known one above it, and no known one lies between. There is none exactly if no known number is above.
pub fn least_above_is_least()
    ensures some { (k : ℕ) (known : List Mark) (m : Mark) → least_above k known ≡ Some m → IsLeast k known m }
    ensures none { (k : ℕ) (known : List Mark) → (least_above k known ≡ None) ↔ ((x : Mark) → Contains known x → x.number ≤ k) }
{}

/// Both vectors cover their meet, and it covers every vector that both cover.
pub fn meet_is_greatest_lower_bound()
    ensures left { (v w : List ℕ) → AtMost (meet v w) v }
    ensures right { (v w : List ℕ) → AtMost (meet v w) w }
    ensures greatest { (v w bound : List ℕ) → AtMost bound v → AtMost bound w → AtMost bound (meet v w) }
{}
