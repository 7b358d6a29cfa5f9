//! What is read of a stream while it grows.
ghost use Rattle.std.specs.Prelude.{◌≡◌, ◌≤◌, ◌<◌, ◌+◌, ◌-◌, ◌++◌, ◌∷◌, ◌⊎◌, [], ℕ, List, length, drop, take, true, false, None, Ok, Err, is_ok, IfOk, IfErr, OnOk, OnErr, IfSome, IsNone, if◌then◌else◌, ◌==◌};
ghost use Rattle.tau_base.specs.declared.limits.TheConstants.{MAX_LSN, MAX_STREAMS};
ghost use Rattle.tau_base.specs.Modes.{most_streams};
ghost use Rattle.tau_record.specs.Record.{named, epoch_after, kind_fits};
ghost use Rattle.tau_record.specs.Content.{named_after, placed};
ghost use Rattle.tau_record.specs.declared.entry.Placed.{Placed};
ghost use Rattle.tau_record.specs.declared.fault.RecordFault.{RecordFault};
ghost use Rattle.tau_record.specs.declared.fault.RecordRefusal.TheVariants as refusals;
ghost use Rattle.tau_scan.specs.Reading.{is_declared, declared_by, catalogue_of, text_of};
ghost use Rattle.tau_follow_laws.specs.Fed.{is_short, front_of};
ghost use Rattle.tau_follow.specs.Reading.{IsGoing, IsRead, BeginsWith, IsLonger, IsMark, next_at, IsStopped, lacking};

use arrayvec::ArrayVec;
use std::alloc::Global;
use std::mem;
use tau_base::{Call, Format, Listed, Lv, MAX_LSN, MAX_STREAMS, NoMemory};
use tau_record::{Entry, Placed, RecordCause, RecordFault, RecordRefusal, decode_one};
use tau_scan::{declarations_in, is_declared, none_declared};
use tau_text::Declarations;

/// The kind and the length of a record take so many bytes.
const HEAD: usize = 5;

/// What is known of a stream behind the records that are read.
#[derive(Drop)]
pub struct Reader {
    /// The bytes after them: the beginning of the next record.
    pub rest: Vec<u8>,
    /// By fewer bytes than this more that record is not whole. It is 0 if that is not known.
    pub lacks: usize,
    /// Where these bytes start.
    pub at: u64,
    /// The zero vector and those of the anchors.
    pub vectors: Vec<Lv>,
    /// The number of the last epoch, or 0.
    pub last: u32,
    /// What the catalogue declares.
    pub declarations: Declarations,
}

/// How a reader was before a feed, and how many records were read then.
#[derive(Drop)]
pub struct Mark {
    rest: Vec<u8>,
    at: u64,
    vectors: usize,
    last: u32,
    records: usize,
}

impl Mark {
    /// The room of the bytes.
    pub fn into_room(self) -> Vec<u8> {
        let Mark { rest, .. } = self;
        rest
    }
}

/// A record, and how many bytes it takes.
#[derive(Drop)]
struct Next {
    entry: Entry,
    long: usize,
}

/// The vector with these positions. There is none where they are no vector, which no record has.
pub fn vector_of(positions: &[u64]) -> Option<Lv>
    ensures { IfSome result (λ lv. lv ≡ positions.now) }
{
    if positions.len() < 1 {
        return None;
    }
    if positions.len() > MAX_STREAMS {
        return None;
    }
    let mut lv = Lv::zero(positions.len());
    for j in 0..positions.len() {
        if positions[j] >= MAX_LSN {
            return None;
        }
        lv.set(j, positions[j]);
    }
    Some(lv)
}

/// Puts the vector of an anchor after those before it.
fn push_vector(vectors: &mut Vec<Lv>, positions: &[u64]) -> Result<(), NoMemory>
    ensures ok { OnOk result (vectors.new.items ≡ vectors.old.items ++ positions.now ∷ []) }
    ensures err { OnErr result (vectors.new.items ≡ vectors.old.items) }
{
    match vector_of(positions) {
        None => Err(NoMemory),
        Some(vector) => {
            vectors.push(vector)?;
            Ok(())
        }
    }
}

/// Puts what a record names after what those before it named.
fn name(vectors: &mut Vec<Lv>, last: &mut u32, entry: &Entry) -> Result<(), NoMemory>
    ensures vectors { OnOk result (vectors.new.items ≡ named_after vectors.old.items entry.now) }
    ensures last { OnOk result (last.new ≡ epoch_after last.old entry.now) }
    ensures longer { BeginsWith vectors.old.items vectors.new.items }
{
    match entry {
        Entry::Written { .. } => Ok(()),
        Entry::Command { .. } => Ok(()),
        Entry::Catalogue { .. } => Ok(()),
        Entry::Anchor { lv } => push_vector(vectors, lv.as_slice()),
        Entry::Epoch { number, .. } => {
            *last = *number;
            Ok(())
        }
    }
}

/// What a first record declares.
fn declarations_of(alloc: Global, entry: &Entry) -> Result<Declarations, NoMemory>
    ensures { IfOk result (λ d. d ≡ declared_by (text_of entry.now)) }
{
    match entry {
        Entry::Catalogue { text } => declarations_in(alloc, text.as_slice()),
        Entry::Written { .. } => Ok(none_declared(alloc)),
        Entry::Command { .. } => Ok(none_declared(alloc)),
        Entry::Anchor { .. } => Ok(none_declared(alloc)),
        Entry::Epoch { .. } => Ok(none_declared(alloc)),
    }
}

/// Refuses a record that names what is not declared.
fn check(
    alloc: Global,
    declarations: &Declarations,
    at: u64,
    entry: &Entry,
) -> Result<(), RecordRefusal>
    ensures ok { OnOk result (is_declared declarations.now entry.now ≡ true) }
    ensures bad { (fault : RecordFault) → result ≡ Err (refusals.Bad fault) → (fault ≡ record { at = at; cause = RecordCause.BadBody }) × (is_declared declarations.now entry.now ≡ false) }
{
    let mut place = Call {
        proc: 0,
        args: ArrayVec::new(),
    };
    match is_declared(alloc, declarations, entry, &mut place) {
        Ok(true) => Ok(()),
        Ok(false) => Err(RecordRefusal::Bad(RecordFault {
            at,
            cause: RecordCause::BadBody,
        })),
        Err(_) => Err(RecordRefusal::NoMemory),
    }
}

/// Takes what a first record declares.
fn declare(
    alloc: Global,
    declarations: &mut Declarations,
    at: u64,
    entry: &Entry,
) -> Result<(), NoMemory>
    ensures ok { OnOk result (declarations.new ≡ (if at == 0 then declared_by (text_of entry.now) else declarations.old)) }
    ensures err { OnErr result (declarations.new ≡ declarations.old) }
    ensures kept { (at ≡ 0) ⊎ (declarations.new ≡ declarations.old) }
{
    if at != 0 {
        return Ok(());
    }
    match declarations_of(alloc, entry) {
        Ok(found) => {
            *declarations = found;
            Ok(())
        }
        Err(_) => Err(NoMemory),
    }
}

/// Where a record ends, if it may.
fn past_of(at: u64, long: usize) -> Option<u64>
    ensures { IfSome result (λ past. past ≡ at + long) }
{
    let Some(past) = at.checked_add(long as u64) else {
        return None;
    };
    if past >= MAX_LSN {
        return None;
    }
    Some(past)
}

/// Puts a single byte after others if there is room for it, and returns whether it did.
#[inline(always)]
fn push_one(rest: &mut Vec<u8>, bytes: &[u8]) -> bool
    ensures yes { result ≡ true → rest.new.items ≡ rest.old.items ++ bytes.now }
    ensures no { result ≡ false → rest.new.items ≡ rest.old.items }
{
    let [byte] = bytes else {
        return false;
    };
    if rest.len() >= rest.capacity() {
        return false;
    }
    match rest.push(*byte) {
        Ok(()) => true,
        Err(_) => false,
    }
}

/// Puts bytes after others.
fn extend(rest: &mut Vec<u8>, bytes: &[u8]) -> Result<(), NoMemory>
    ensures ok { OnOk result (rest.new.items ≡ rest.old.items ++ bytes.now) }
    ensures err { OnErr result (rest.new.items ≡ rest.old.items) }
{
    if push_one(rest, bytes) {
        return Ok(());
    }
    match rest.extend_from_slice(bytes) {
        Ok(()) => Ok(()),
        Err(_) => Err(NoMemory),
    }
}

/// Room that is emptied, with these bytes in it.
fn refilled(room: Vec<u8>, bytes: &[u8]) -> Result<Vec<u8>, NoMemory>
    ensures { IfOk result (λ rest. rest.items ≡ bytes.now) }
{
    let mut rest = room;
    rest.clear();
    match rest.extend_from_slice(bytes) {
        Ok(()) => Ok(rest),
        Err(_) => Err(NoMemory),
    }
}

/// Drops the records from this index on.
fn truncate(alloc: Global, records: &mut Listed<Placed>, n: usize)
    ensures { records.new ≡ take n records.old }
{
    let mut list = mem::replace(records, Listed::new(alloc)).into_vec();
    list.truncate(n);
    *records = Listed::of(list);
}

/// Drops the bytes before this index.
fn keep_from(alloc: Global, rest: &mut Vec<u8>, from: usize) -> Result<(), NoMemory>
    requires { from ≤ length rest.old.items }
    ensures ok { OnOk result (rest.new.items ≡ drop from rest.old.items) }
    ensures err { OnErr result (rest.new.items ≡ rest.old.items) }
{
    if from == 0 {
        return Ok(());
    }
    if from == rest.len() {
        rest.clear();
        return Ok(());
    }
    let kept = Vec::from_slice(alloc, &rest[from..])?;
    *rest = kept;
    Ok(())
}

/// Whether a record that is the first one of its stream, or another one, may be of this kind.
fn is_kind(first: bool, kind: u8) -> bool
    ensures { result ≡ kind_fits first kind }
{
    if first {
        kind == 4
    } else if kind == 5 {
        true
    } else if 1 <= kind {
        kind <= 3
    } else {
        false
    }
}

/// How many bytes more the record at the front of these bytes asks for at least, as its kind and length say; 0 if it is not
/// known.
fn lacking(first: bool, bytes: &[u8]) -> usize
    ensures { result ≡ lacking first bytes.now }
{
    match bytes {
        [] => 0,
        [kind, rest @ ..] => {
            if !is_kind(first, *kind) {
                return 0;
            }
            if rest.len() < 4 {
                return 4 - rest.len();
            }
            let (head, left) = rest.split_at(4);
            let total = u32::from_be_bytes([head[0], head[1], head[2], head[3]]) as usize;
            total.saturating_sub(left.len() + 5)
        }
    }
}

impl Reader {
    /// Nothing is read of a stream of `n`.
    pub fn new(alloc: Global, n: u16) -> Result<Reader, NoMemory>
        requires low { 1 ≤ n }
        requires high { n ≤ MAX_STREAMS }
        ensures { (f : Format) → IfOk result (λ reader. IsRead f n [] [] reader) }
    {
        let mut vectors = Vec::new(alloc);
        vectors.push(Lv::zero(n as usize))?;
        Ok(Reader {
            rest: Vec::new(alloc),
            lacks: 0,
            at: 0,
            vectors,
            last: 0,
            declarations: none_declared(alloc),
        })
    }

    /// The record that starts at this index of the bytes; none where more bytes must come first.
    fn next(
        &self,
        alloc: Global,
        format: Format,
        n: u16,
        from: usize,
    ) -> Result<Option<Next>, RecordRefusal>
        requires low { 1 ≤ n }
        requires high { n ≤ most_streams format }
        requires within { from ≤ length self.now.rest.items }
        ensures some { IfOk result (λ next. IfSome next (λ x. next_at format n self.now from ≡ Ok (x.entry, drop (from + x.long) self.now.rest.items))) }
        ensures long { IfOk result (λ next. IfSome next (λ x. (1 ≤ x.long) × (from + x.long ≤ length self.now.rest.items))) }
        ensures none { IfOk result (λ next. IsNone next → IsStopped format n self.now from) }
        ensures bad { (fault : RecordFault) → result ≡ Err (refusals.Bad fault) → (next_at format n self.now from ≡ Err fault.cause) × (fault.at ≡ self.now.at) × (is_short fault.cause ≡ false) }
    {
        let bytes = &self.rest[from..];
        if bytes.is_empty() {
            return Ok(None);
        }
        match decode_one(
            alloc,
            format,
            n,
            self.at,
            self.last,
            self.vectors.as_slice(),
            bytes,
        ) {
            Ok((entry, after)) => Ok(Some(Next {
                entry,
                long: bytes.len() - after.len(),
            })),
            Err(RecordRefusal::NoMemory) => Err(RecordRefusal::NoMemory),
            Err(RecordRefusal::Bad(fault)) => {
                if fault.cause == RecordCause::Short {
                    return Ok(None);
                }
                Err(RecordRefusal::Bad(fault))
            }
        }
    }

    /// Takes what a record declares and names, and returns where it ends.
    fn take(&mut self, alloc: Global, next: &Next) -> Result<u64, RecordRefusal>
        ensures past { IfOk result (λ past. past ≡ self.old.at + next.now.long) }
        ensures declared { IfOk result (λ past. self.new.declarations ≡ (if self.old.at == 0 then declared_by (text_of next.now.entry) else self.old.declarations)) }
        ensures check { IfOk result (λ past. is_declared self.new.declarations next.now.entry ≡ true) }
        ensures vectors { IfOk result (λ past. self.new.vectors.items ≡ named_after self.old.vectors.items next.now.entry) }
        ensures last { IfOk result (λ past. self.new.last ≡ epoch_after self.old.last next.now.entry) }
        ensures bad { (fault : RecordFault) → result ≡ Err (refusals.Bad fault) → (fault ≡ record { at = self.old.at; cause = RecordCause.BadBody }) × (self.new.declarations ≡ (if self.old.at == 0 then declared_by (text_of next.now.entry) else self.old.declarations)) × (is_declared self.new.declarations next.now.entry ≡ false) }
        ensures longer { BeginsWith self.old.vectors.items self.new.vectors.items }
        ensures kept { (self.old.at ≡ 0) ⊎ (self.new.declarations ≡ self.old.declarations) }
        ensures at { self.new.at ≡ self.old.at }
        ensures rest { self.new.rest ≡ self.old.rest }
        ensures lacks { self.new.lacks ≡ self.old.lacks }
    {
        match declare(alloc, &mut self.declarations, self.at, &next.entry) {
            Ok(()) => {}
            Err(_) => return Err(RecordRefusal::NoMemory),
        }
        match check(alloc, &self.declarations, self.at, &next.entry) {
            Ok(()) => {}
            Err(e) => return Err(e),
        }
        let Some(past) = past_of(self.at, next.long) else {
            return Err(RecordRefusal::NoMemory);
        };
        match name(&mut self.vectors, &mut self.last, &next.entry) {
            Ok(()) => Ok(past),
            Err(_) => Err(RecordRefusal::NoMemory),
        }
    }

    /// Puts the record that was found at this index of the bytes after those that are read, and returns the index after it.
    fn put(
        &mut self,
        alloc: Global,
        records: &mut Listed<Placed>,
        from: usize,
        next: Next,
    ) -> Result<usize, RecordRefusal>
        requires within { from + next.long ≤ length self.old.rest.items }
        requires some { 1 ≤ next.long }
        ensures going { (f : Format) (n : ℕ) (content : List ℕ) → IsGoing f n content records.old self.old from → next_at f n self.old from ≡ Ok (next.entry, drop (from + next.long) self.old.rest.items) →
            IfOk result (λ past. IsGoing f n content records.new self.new past) }
        ensures bad { (f : Format) (n : ℕ) (content : List ℕ) (fault : RecordFault) → IsGoing f n content records.old self.old from → next_at f n self.old from ≡ Ok (next.entry, drop (from + next.long) self.old.rest.items) →
            result ≡ Err (refusals.Bad fault) → front_of f n content ≡ Err fault }
        ensures past { IfOk result (λ past. past ≡ from + next.long) }
        ensures longer { IsLonger self.old self.new records.old records.new }
        ensures rest { self.new.rest ≡ self.old.rest }
        ensures lacks { self.new.lacks ≡ self.old.lacks }
    {
        let past = match self.take(alloc, &next) {
            Ok(past) => past,
            Err(e) => return Err(e),
        };
        match records.push(Placed {
            entry: next.entry,
            start: self.at,
            past,
        }) {
            Ok(()) => {}
            Err(_) => return Err(RecordRefusal::NoMemory),
        }
        self.at = past;
        Ok(from + next.long)
    }

    /// Reads the record that starts at this index of the bytes, and returns the index after it; none where more bytes must
    /// come first.
    fn read_one(
        &mut self,
        alloc: Global,
        format: Format,
        n: u16,
        records: &mut Listed<Placed>,
        from: usize,
    ) -> Result<Option<usize>, RecordRefusal>
        requires low { 1 ≤ n }
        requires high { n ≤ most_streams format }
        requires within { from ≤ length self.old.rest.items }
        ensures going { (content : List ℕ) → IsGoing format n content records.old self.old from → IfOk result (λ next. IfSome next (λ past. IsGoing format n content records.new self.new past)) }
        ensures stopped { (content : List ℕ) → IsGoing format n content records.old self.old from → IfOk result (λ next. IsNone next → IsGoing format n content records.new self.new from × (front_of format n content ≡ Ok records.new)) }
        ensures bad { (content : List ℕ) (fault : RecordFault) → IsGoing format n content records.old self.old from → result ≡ Err (refusals.Bad fault) → front_of format n content ≡ Err fault }
        ensures further { IfOk result (λ next. IfSome next (λ past. (from < past) × (past ≤ length self.new.rest.items))) }
        ensures longer { IsLonger self.old self.new records.old records.new }
        ensures rest { self.new.rest ≡ self.old.rest }
        ensures lacks { self.new.lacks ≡ self.old.lacks }
    {
        match self.next(alloc, format, n, from) {
            Err(e) => Err(e),
            Ok(None) => Ok(None),
            Ok(Some(next)) => match self.put(alloc, records, from, next) {
                Err(e) => Err(e),
                Ok(past) => Ok(Some(past)),
            },
        }
    }

    /// Reads the records of its bytes as far as they are whole, and returns the index after them.
    fn read_all(
        &mut self,
        alloc: Global,
        format: Format,
        n: u16,
        records: &mut Listed<Placed>,
    ) -> Result<usize, RecordRefusal>
        requires low { 1 ≤ n }
        requires high { n ≤ most_streams format }
        ensures ok { (content : List ℕ) → IsGoing format n content records.old self.old 0 → IfOk result (λ past. IsGoing format n content records.new self.new past × (front_of format n content ≡ Ok records.new)) }
        ensures bad { (content : List ℕ) (fault : RecordFault) → IsGoing format n content records.old self.old 0 → result ≡ Err (refusals.Bad fault) → front_of format n content ≡ Err fault }
        ensures within { IfOk result (λ past. past ≤ length self.new.rest.items) }
        ensures longer { IsLonger self.old self.new records.old records.new }
        ensures rest { self.new.rest ≡ self.old.rest }
        ensures lacks { self.new.lacks ≡ self.old.lacks }
    {
        let mut from = 0;
        'records: loop {
            match self.read_one(alloc, format, n, records, from) {
                Err(e) => return Err(e),
                Ok(None) => return Ok(from),
                Ok(Some(past)) => from = past,
            }
        }
    }

    /// Reads the records of these bytes after those that are there, as far as they are whole.
    pub fn read(
        &mut self,
        alloc: Global,
        format: Format,
        n: u16,
        records: &mut Listed<Placed>,
        bytes: &[u8],
    ) -> Result<(), RecordRefusal>
        requires low { 1 ≤ n }
        requires high { n ≤ most_streams format }
        ensures ok { (content : List ℕ) → IsRead format n content records.old self.old → OnOk result (IsRead format n (content ++ bytes.now) records.new self.new × (front_of format n (content ++ bytes.now) ≡ Ok records.new)) }
        ensures bad { (content : List ℕ) (fault : RecordFault) → IsRead format n content records.old self.old → result ≡ Err (refusals.Bad fault) → front_of format n (content ++ bytes.now) ≡ Err fault }
        ensures longer { IsLonger self.old self.new records.old records.new }
    {
        self.lacks = 0;
        match extend(&mut self.rest, bytes) {
            Ok(()) => {}
            Err(_) => return Err(RecordRefusal::NoMemory),
        }
        match self.read_all(alloc, format, n, records) {
            Err(e) => Err(e),
            Ok(past) => match keep_from(alloc, &mut self.rest, past) {
                Err(_) => Err(RecordRefusal::NoMemory),
                Ok(()) => {
                    self.lacks = lacking(self.at == 0, self.rest.as_slice());
                    Ok(())
                }
            },
        }
    }

    /// Whether its next record is known not to be whole by so many bytes more.
    pub fn is_short_by(&self, more: usize) -> bool
        ensures { result ≡ true → more < self.now.lacks }
    {
        more < self.lacks
    }

    /// Whether by so many bytes more no more than the kind and the length of its next record are there.
    fn is_head_by(&self, more: usize) -> bool {
        more <= HEAD && self.rest.len() <= HEAD - more
    }

    /// Puts a single byte after those that are there, if the record is known not to be whole by it and there is room, and
    /// returns whether it did.
    #[inline(always)]
    pub fn wait_byte(&mut self, bytes: &[u8]) -> bool
        ensures put { (f : Format) (n : ℕ) (content : List ℕ) (ps : List Placed) → IsRead f n content ps self.old → result ≡ true → IsRead f n (content ++ bytes.now) ps self.new × (front_of f n (content ++ bytes.now) ≡ Ok ps) }
        ensures same { (f : Format) (n : ℕ) (content : List ℕ) (ps : List Placed) → IsRead f n content ps self.old → result ≡ false → IsRead f n content ps self.new }
    {
        let more = bytes.len();
        if more >= self.lacks {
            return false;
        }
        if push_one(&mut self.rest, bytes) {
            self.lacks -= more;
            return true;
        }
        false
    }

    /// Puts these bytes after those that are there, if the record is known not to be whole by them.
    pub fn wait(&mut self, bytes: &[u8]) -> Result<(), NoMemory>
        ensures ok { (f : Format) (n : ℕ) (content : List ℕ) (ps : List Placed) → IsRead f n content ps self.old → length bytes.now < self.old.lacks → OnOk result (IsRead f n (content ++ bytes.now) ps self.new × (front_of f n (content ++ bytes.now) ≡ Ok ps)) }
        ensures err { (f : Format) (n : ℕ) (content : List ℕ) (ps : List Placed) → IsRead f n content ps self.old → OnErr result (IsRead f n content ps self.new) }
    {
        match extend(&mut self.rest, bytes) {
            Ok(()) => {
                self.lacks = self.lacks.saturating_sub(bytes.len());
                Ok(())
            }
            Err(e) => Err(e),
        }
    }

    /// Puts these bytes after those that are there if no more than the kind and the length of the next record are there by
    /// them, and it is not whole by them, as these say. Returns whether it did.
    pub fn wait_head(&mut self, bytes: &[u8]) -> bool
        ensures put { (f : Format) (n : ℕ) (content : List ℕ) (ps : List Placed) → IsRead f n content ps self.old → result ≡ true → IsRead f n (content ++ bytes.now) ps self.new × (front_of f n (content ++ bytes.now) ≡ Ok ps) }
        ensures same { (f : Format) (n : ℕ) (content : List ℕ) (ps : List Placed) → IsRead f n content ps self.old → result ≡ false → IsRead f n content ps self.new }
    {
        if !self.is_head_by(bytes.len()) {
            return false;
        }
        let long = self.rest.len();
        match extend(&mut self.rest, bytes) {
            Ok(()) => {}
            Err(_) => return false,
        }
        let lacks = lacking(self.at == 0, self.rest.as_slice());
        if lacks > 0 {
            self.lacks = lacks;
            return true;
        }
        self.rest.truncate(long);
        false
    }

    /// How the reader is, with these records read. The bytes that wait come into this room.
    pub fn mark(&self, room: Vec<u8>, records: &Listed<Placed>) -> Result<Mark, NoMemory>
        ensures { IfOk result (λ mark. IsMark self.now records.now mark) }
    {
        let rest = refilled(room, self.rest.as_slice())?;
        Ok(Mark {
            rest,
            at: self.at,
            vectors: self.vectors.len(),
            last: self.last,
            records: records.len(),
        })
    }

    /// Has the reader, and the records that are read, as they were.
    pub fn undo(&mut self, alloc: Global, records: &mut Listed<Placed>, mark: Mark)
        ensures records { (r : Reader) (ps : List Placed) → IsMark r ps mark → IsLonger r self.old ps records.old → records.new ≡ ps }
        ensures read { (f : Format) (n : ℕ) (content : List ℕ) (r : Reader) (ps : List Placed) → IsMark r ps mark → IsLonger r self.old ps records.old → IsRead f n content ps r → IsRead f n content ps self.new }
    {
        let Mark {
            rest,
            at,
            vectors,
            last,
            records: count,
        } = mark;
        truncate(alloc, records, count);
        self.vectors.truncate(vectors);
        self.rest = rest;
        self.lacks = 0;
        self.last = last;
        self.at = at;
        if at == 0 {
            self.declarations = none_declared(alloc);
        }
    }
}
