//! Laws of vectors and keys.
ghost use Rattle.std.specs.Prelude.{◌≡◌, ◌↔◌, true, List, ℕ, length};
ghost use Rattle.tau_base.specs.Database.{same_key};
ghost use Rattle.tau_base.specs.Vectors.{AtMost, join};
ghost use Rattle.tau_base.specs.declared.value.Key.{Key};

/// The join covers both vectors, and every vector that covers both covers the join.
pub fn join_is_least_upper_bound()
    ensures left { (v w : List ℕ) → AtMost v (join v w) }
    ensures right { (v w : List ℕ) → AtMost w (join v w) }
    ensures least { (v w bound : List ℕ) → AtMost v bound → AtMost w bound → AtMost (join v w) bound }
{}

/// To cover is a partial order on vectors of one width.
pub fn covers_is_partial_order()
    ensures itself { (v : List ℕ) → AtMost v v }
    ensures transitive { (u v w : List ℕ) → AtMost u v → AtMost v w → AtMost u w }
    ensures antisymmetric { (v w : List ℕ) → length v ≡ length w → AtMost v w → AtMost w v → v ≡ w }
{}

/// Two keys tie in the order of keys exactly where they are the same.
pub fn same_key_is_equality()
    ensures { (a b : Key) → (same_key a b ≡ true) ↔ (a ≡ b) }
{}
