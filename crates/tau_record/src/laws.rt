//! Laws of the spelling, of which the contracts of this crate speak.
ghost use Rattle.std.specs.List.{flat_map};
ghost use Rattle.std.specs.Prelude.{◌≡◌, ◌<◌, ◌≤◌, ◌+◌, ◌++◌, ◌∷◌, [], List, ℕ, Bool, true, false, Ok, length, take, drop};
ghost use Rattle.tau_base.specs.Vectors.{AtMost};
ghost use Rattle.tau_base.specs.declared.value.Key.{Key};
ghost use Rattle.tau_base.specs.declared.value.Value.{Value};
ghost use Rattle.tau_record.specs.Content.{anchors_of, last_epoch, named_behind, placed, Begins, IsContent, Reads};
ghost use Rattle.tau_record.specs.Format.{Format, most_streams};
ghost use Rattle.tau_record.specs.Item.{write};
ghost use Rattle.tau_record.specs.Record.{named, spelling, AreVectors, Fits, IsNext, Spells, record_at};
ghost use Rattle.tau_record.specs.Rows.{AreRows, IsRead};
ghost use Rattle.tau_record.specs.Vector.{mask_of, above, decoded};
ghost use Rattle.tau_record.specs.declared.entry.Entry.{Entry};
ghost use Rattle.tau_record.specs.declared.entry.Entry.TheVariants.{Epoch};
ghost use Rattle.tau_record.specs.declared.entry.Placed.{Placed};

/// No spelling of a record begins that of another.
pub fn one_spelling()
    ensures { (f : Format) (n : ℕ) (vectors : List (List ℕ)) (first : Bool) (a b : Entry) (x y : List ℕ) → n ≤ most_streams f → AreVectors n vectors →
        Fits n vectors first a → Fits n vectors first b → spelling f vectors a ++ x ≡ spelling f vectors b ++ y → (a ≡ b) × (x ≡ y) }
{}

/// What was written is read again, whatever follows it: with the vector that it was written with. Only of an epoch it is
/// asked that its number is above that of the last one.
pub fn read_again()
    ensures { (f : Format) (n k : ℕ) (vectors : List (List ℕ)) (first : Bool) (e : Entry) (rest : List ℕ) → n ≤ most_streams f → AreVectors n vectors →
        Fits n vectors first e → IsNext k e → record_at f n k vectors first (spelling f vectors e ++ rest) ≡ Ok (e, rest) }
{}

/// The mask and the components that are written decode to the vector, where it covers the anchor's.
pub fn decoded_vector()
    ensures { (base dep : List ℕ) → length dep ≡ length base → AtMost base dep → decoded base (mask_of base dep) (above base dep) ≡ dep }
{}

/// A content has one reading.
pub fn one_reading()
    ensures { (f : Format) (n : ℕ) (content : List ℕ) (ps qs : List Placed) → n ≤ most_streams f → IsContent f n content ps → IsContent f n content qs → ps ≡ qs }
{}

/// No bytes are the content of no records.
pub fn empty_content()
    ensures { (f : Format) (n : ℕ) → IsContent f n [] [] }
{}

/// The spelling of a first record is a content.
pub fn first_record()
    ensures { (f : Format) (n : ℕ) (e : Entry) (bytes : List ℕ) → Spells f n (named n []) true e bytes → IsContent f n bytes (placed e 0 (length bytes) ∷ []) }
{}

/// Each record may be the next one where there is no epoch before it.
pub fn first_epoch()
    ensures { (n : ℕ) (vectors : List (List ℕ)) (first : Bool) (e : Entry) → Fits n vectors first e → IsNext 0 e }
{}

/// A content that goes on by one more record is a content, and is read as the old one with that record after it. Only of an
/// epoch it is asked that its number is above that of the last one.
pub fn appended_record()
    ensures { (f : Format) (n : ℕ) (content : List ℕ) (ps : List Placed) (e : Entry) (bytes : List ℕ) → IsContent f n content ps → 1 ≤ length content →
        Spells f n (named n (anchors_of ps)) false e bytes → IsNext (last_epoch 0 ps) e → IsContent f n (content ++ bytes) (ps ++ placed e (length content) (length content + length bytes) ∷ []) }
{}

/// A content that goes on by any records is a content.
pub fn appended_content()
    ensures { (f : Format) (n : ℕ) (content more : List ℕ) (ps qs : List Placed) → IsContent f n content ps →
        Reads f n (length content) (last_epoch 0 ps) (named n (anchors_of ps)) more qs → IsContent f n (content ++ more) (ps ++ qs) }
{}

/// Each record of a content stands in its place, after the content of the records before it.
pub fn record_in_place()
    ensures { (f : Format) (n : ℕ) (content : List ℕ) (ps : List Placed) (q : Placed) (qs : List Placed) → IsContent f n content (ps ++ q ∷ qs) →
        IsContent f n (take q.start content) ps × Begins f n q.start (last_epoch 0 ps) (named n (anchors_of ps)) (drop q.start content) (drop q.past content) q × (q.past ≤ length content) }
{}

/// The vectors that are named after records are the zero vector and their anchors'.
pub fn named_anchors()
    ensures { (n : ℕ) (ps : List Placed) → named_behind (named n []) ps ≡ named n (anchors_of ps) }
{}

/// The anchors of two parts of a content are those of the first and then those of the second.
pub fn anchors_appended()
    ensures { (ps qs : List Placed) → anchors_of (ps ++ qs) ≡ anchors_of ps ++ anchors_of qs }
{}

/// The last epoch of two parts of a content is that of the second, after that of the first.
pub fn epochs_appended()
    ensures { (k : ℕ) (ps qs : List Placed) → last_epoch k (ps ++ qs) ≡ last_epoch (last_epoch k ps) qs }
{}

/// Of two epochs of a content the later one has the greater number.
pub fn epochs_rise()
    ensures { (f : Format) (n : ℕ) (content : List ℕ) (before : List Placed) (p : Placed) (between : List Placed) (q : Placed) (after : List Placed) (low high : ℕ) (v w : List ℕ) →
        IsContent f n content (before ++ p ∷ (between ++ q ∷ after)) → p.entry ≡ Epoch low v → q.entry ≡ Epoch high w → low < high }
{}

/// Each anchor of a content has a place for each stream.
pub fn anchor_vectors()
    ensures { (f : Format) (n : ℕ) (content : List ℕ) (ps : List Placed) → IsContent f n content ps → AreVectors n (named n (anchors_of ps)) }
{}

/// Bytes begin with the spelling of so many rows in one way.
pub fn one_reading_of_rows()
    ensures { (count : ℕ) (bytes : List ℕ) (rows others : List (Key × Value)) (rest left : List ℕ) → IsRead count bytes rows rest → IsRead count bytes others left → (rows ≡ others) × (rest ≡ left) }
{}

/// The spelling of rows, whatever follows it, begins with them.
pub fn rows_read_again()
    ensures { (rows : List (Key × Value)) (rest : List ℕ) → AreRows rows → IsRead (length rows) (flat_map write rows ++ rest) rows rest }
{}
