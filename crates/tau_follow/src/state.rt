//! What a follower has read and applied.
ghost use Rattle.std.specs.Prelude.{◌≡◌, ◌≤◌, ◌<◌, ◌+◌, ◌++◌, ◌∷◌, [], true, false, ℕ, List, Some, None, Ok, Err, length, take, replicate, slice_index, IfOk, OnOk, OnErr};
ghost use Rattle.tau_base.specs.Modes.{most_streams};
ghost use Rattle.tau_base.specs.declared.format.Format.{Format};
ghost use Rattle.tau_base.specs.declared.limits.TheConstants.{MAX_STREAMS as MOST};
ghost use Rattle.tau_scan.specs.declared.fault.LogFault.{LogFault as OneFault};
ghost use Rattle.tau_scan.specs.declared.fault.LogRefusal.TheVariants as refusals;
ghost use Rattle.tau_follow_laws.specs.Fed.{fronts_of};
ghost use Rattle.tau_follow_laws.specs.Following.{Followed, begun};
ghost use Rattle.tau_follow_laws.specs.Feeding.{Piece, with_piece, read_now, HasFed, IsFollower};
ghost use Rattle.tau_base.specs.Database.{empty_db};
ghost use Rattle.tau_model.specs.Store.{database};
ghost use Rattle.tau_model.specs.Tables.{IsTablesOf};
ghost use Rattle.tau_record.specs.declared.entry.Placed.{Placed as OnePlaced};
ghost use Rattle.tau_follow.specs.declared.reader.Reader.{Reader as OneReader};
ghost use Rattle.tau_scan.specs.Epochs.{marks_from, with_marks};
ghost use Rattle.tau_scan.specs.Taken.{Kept};
ghost use Rattle.tau_follow.specs.Applying.{stages_from, redone_of, AreSpots};
ghost use Rattle.tau_follow.specs.Feeding.{AreRead, AreLonger, IsMarkAt, IsReadOn, AreCallsAt};
ghost use Rattle.tau_follow.specs.Holding.{HasApplied, HasFollowed, IsTold, WasTold};
ghost use Rattle.tau_follow.specs.Reading.{BeginsWith, IsShortBy};
ghost use Rattle.tau_follow.specs.State.{IsAt, Stands, HasRead, HasRedone, IsSame};

use crate::applier::Applier;
use crate::check::{checked, declared};
use crate::feed::{
    are_calls_at, is_more, is_short_by, mark_stream, read_calls, read_count, read_stream,
    undo_stream, wait_byte, wait_head, wait_stream,
};
use crate::judge::judged_from;
use crate::reader::{Mark, Reader};
use crate::redo::redo_from;
use crate::renew::{Writes, renew_rows};
use crate::spot::Spot;
use crate::stage::{Stages, copied, extend_all};
use crate::waits::Waits;
use std::alloc::Global;
use std::mem;
use tau_base::{Format, Listed, MAX_STREAMS, NoMemory};
use tau_epoch::Epochs;
use tau_model::{SerialStore, Tables};
use tau_proc::Procs;
use tau_record::Placed;
use tau_scan::{LogRefusal, none_declared};
use tau_text::Declarations;

/// What was read of a log that is fed, and what of it is applied.
#[derive(Drop)]
pub struct State {
    /// The reader and the records of each stream.
    pub readers: Vec<Reader>,
    pub streams: Vec<Listed<Placed>>,
    pub applier: Applier,
    /// The epochs of these records, and what their catalogue declares.
    pub known: Epochs,
    pub declarations: Declarations,
    /// What the first applied records did, so many.
    pub store: SerialStore,
    pub done: usize,
    /// The rows of what all applied records did.
    pub tables: Tables,
    /// Room for what the records of a feed write.
    noted: Writes,
    /// Room for the bytes that wait, as they were before a feed.
    room: Vec<u8>,
}

/// So many zeros.
fn zeros(alloc: Global, n: usize) -> Result<Vec<usize>, NoMemory>
    ensures { IfOk result (λ list. (j : ℕ) → slice_index list.items j ≡ 0) }
{
    let mut list = Vec::new(alloc);
    for _ in 0..n {
        list.push(0)?;
    }
    Ok(list)
}

/// Whether both are one number.
fn is_same(a: usize, b: usize) -> bool
    ensures { result ≡ true → a ≡ b }
{
    a == b
}

/// Applies what is ready of records that stand so, where these are applied, until nothing is.
fn follow_on(
    alloc: Global,
    streams: &[Listed<Placed>],
    stages: Vec<Stages>,
    order: &[Spot],
) -> Result<Applier, NoMemory>
    ensures { (format : Format) (fed : List (List ℕ)) (s : Followed) → fronts_of format fed ≡ Ok streams.now → streams.now ≡ s.streams → stages.items ≡ stages_from s.out s.order 0 s.streams → AreSpots s.streams order.now s.order → IfOk result (λ next. HasFollowed streams.now s next × IsTold streams.now next) }
{
    let firsts = zeros(alloc, streams.len())?;
    let order = Vec::from_slice(alloc, order)?;
    let mut next = Applier {
        stages,
        firsts,
        order,
        waits: Waits::new(alloc),
        reached: Vec::new(alloc),
        known: false,
    };
    match next.follow(alloc, streams, 0) {
        Ok(()) => Ok(next),
        Err(e) => Err(e),
    }
}

/// An applier once more records are judged, and the epochs that are known then.
#[derive(Drop)]
struct Next {
    applier: Applier,
    known: Epochs,
}

/// Judges the records that are read, and applies what is ready until nothing is.
fn applied(alloc: Global, streams: &[Listed<Placed>], applier: &Applier) -> Result<Next, LogRefusal>
    ensures ok { (format : Format) (n : ℕ) (fed : List (List ℕ)) (s : Followed) (p : Piece) → IsFollower format n fed s → fronts_of format (with_piece fed p) ≡ Ok streams.now → Stands s applier.now → IfOk result (λ next. (t : Followed) × HasFed format (with_piece fed p) s t × Stands t next.applier) }
    ensures known { IfOk result (λ next. next.known ≡ with_marks [] (marks_from streams.now)) }
    ensures bad { (format : Format) (n : ℕ) (fed : List (List ℕ)) (s : Followed) (p : Piece) (fault : OneFault) → IsFollower format n fed s → fronts_of format (with_piece fed p) ≡ Ok streams.now → Stands s applier.now → result ≡ Err (refusals.Bad fault) → read_now format (with_piece fed p) s.order ≡ Err fault }
{
    if streams.len() > MAX_STREAMS {
        return Err(LogRefusal::NoMemory);
    }
    if applier.stages.len() != streams.len() {
        return Err(LogRefusal::NoMemory);
    }
    let Ok(mut stages) = copied(alloc, applier.stages.as_slice()) else {
        return Err(LogRefusal::NoMemory);
    };
    match extend_all(&mut stages, streams) {
        Ok(()) => {}
        Err(_) => return Err(LogRefusal::NoMemory),
    }
    let known = match checked(alloc, streams, stages.as_slice()) {
        Ok(known) => known,
        Err(e) => return Err(e),
    };
    let Ok(judged) = judged_from(alloc, &known, streams, stages.as_slice()) else {
        return Err(LogRefusal::NoMemory);
    };
    match follow_on(alloc, streams, judged, applier.order.as_slice()) {
        Ok(applier) => Ok(Next { applier, known }),
        Err(_) => Err(LogRefusal::NoMemory),
    }
}

/// Redoes the records that stand in this order, from an index on, and returns the rows of what all did.
fn redone(
    alloc: Global,
    store: &mut SerialStore,
    procs: &Procs,
    streams: &[Listed<Placed>],
    order: &[Spot],
    done: usize,
) -> Result<Tables, NoMemory>
    ensures ok { (kept : List Kept) → AreSpots streams.now order.now kept → done ≤ length kept → database store.old ≡ redone_of procs.now (take done kept) → OnOk result (database store.new ≡ redone_of procs.now kept) }
    ensures rows { IfOk result (IsTablesOf (database store.new)) }
{
    match redo_from(store, procs, streams, order, done, &mut Vec::new(alloc)) {
        Ok(()) => store.tables(alloc),
        Err(e) => Err(e),
    }
}

impl State {
    /// Nothing is fed of `n` streams.
    pub fn new(alloc: Global, n: u16) -> Result<State, NoMemory>
        requires low { 1 ≤ n }
        requires high { n ≤ MOST }
        ensures { (format : Format) → IfOk result (λ state. IsAt format n (replicate n []) (begun n) state) }
    {
        let mut readers = Vec::new(alloc);
        let mut streams = Vec::new(alloc);
        let mut stages = Vec::new(alloc);
        for _ in 0..n {
            let reader = Reader::new(alloc, n)?;
            readers.push(reader)?;
            streams.push(Listed::new(alloc))?;
            stages.push(Stages::new(alloc))?;
        }
        let firsts = zeros(alloc, n as usize)?;
        let store = SerialStore::new(alloc);
        let tables = store.tables(alloc)?;
        Ok(State {
            readers,
            streams,
            applier: Applier {
                stages,
                firsts,
                order: Vec::new(alloc),
                waits: Waits::new(alloc),
                reached: Vec::new(alloc),
                known: false,
            },
            known: Epochs::new(alloc),
            declarations: none_declared(alloc),
            store,
            done: 0,
            tables,
            noted: Vec::new(alloc),
            room: Vec::new(alloc),
        })
    }

    /// Follows what is read, once a stream is fed, whatever its new records are. All but the store is as before if it is
    /// refused.
    fn follow(&mut self, alloc: Global) -> Result<(), LogRefusal>
        ensures ok { (format : Format) (n : ℕ) (fed : List (List ℕ)) (s : Followed) (p : Piece) → HasRead format n fed s p self.old → OnOk result ((t : Followed) × HasFed format (with_piece fed p) s t × IsAt format n (with_piece fed p) t self.new) }
        ensures bad { (format : Format) (n : ℕ) (fed : List (List ℕ)) (s : Followed) (p : Piece) (fault : OneFault) → HasRead format n fed s p self.old → result ≡ Err (refusals.Bad fault) → read_now format (with_piece fed p) s.order ≡ Err fault }
        ensures err { OnErr result (IsSame self.old self.new) }
        ensures applier { OnErr result (self.new.applier ≡ self.old.applier) }
        ensures tables { OnErr result (self.new.tables ≡ self.old.tables) }
    {
        if self.streams.len() > MAX_STREAMS {
            return Err(LogRefusal::NoMemory);
        }
        let declarations = match declared(alloc, self.streams.as_slice()) {
            Ok(declarations) => declarations,
            Err(e) => return Err(e),
        };
        let next = match applied(alloc, self.streams.as_slice(), &self.applier) {
            Ok(next) => next,
            Err(e) => return Err(e),
        };
        match redone(
            alloc,
            &mut self.store,
            &declarations.procs,
            self.streams.as_slice(),
            next.applier.order.as_slice(),
            self.done,
        ) {
            Ok(tables) => {
                self.done = next.applier.order.len();
                self.applier = next.applier;
                self.known = next.known;
                self.declarations = declarations;
                self.tables = tables;
                Ok(())
            }
            Err(_) => Err(LogRefusal::NoMemory),
        }
    }

    /// Applies what is ready until nothing is, and redoes it.
    fn redo_new(&mut self, alloc: Global, stream: usize) -> Result<(), NoMemory>
        ensures ok { (s : Followed) → HasApplied self.old.streams.items s self.old.applier → WasTold stream self.old.streams.items self.old.applier → self.old.done ≤ length s.order → database self.old.store ≡ redone_of self.old.declarations.procs (take self.old.done s.order) → IsTablesOf (redone_of self.old.declarations.procs s.order) self.old.tables → OnOk result (HasRedone s self.new) }
        ensures applied { (s : Followed) → HasApplied self.old.streams.items s self.old.applier → WasTold stream self.old.streams.items self.old.applier → HasApplied self.old.streams.items s self.new.applier }
        ensures order { BeginsWith self.old.applier.order.items self.new.applier.order.items }
        ensures same { IsSame self.old self.new }
        ensures tables { OnErr result (self.new.tables ≡ self.old.tables) }
    {
        let stood = is_same(self.done, self.applier.order.len());
        match self.applier.follow(alloc, self.streams.as_slice(), stream) {
            Ok(()) => {}
            Err(e) => return Err(e),
        }
        self.noted.clear();
        match redo_from(
            &mut self.store,
            &self.declarations.procs,
            self.streams.as_slice(),
            self.applier.order.as_slice(),
            self.done,
            &mut self.noted,
        ) {
            Ok(()) => {}
            Err(e) => return Err(e),
        }
        match renew_rows(
            alloc,
            &self.store,
            self.noted.as_slice(),
            &mut self.tables,
            stood,
        ) {
            Ok(()) => {
                self.done = self.applier.order.len();
                Ok(())
            }
            Err(e) => Err(e),
        }
    }

    /// The same as `follow`, if each new record of the stream is that of a call, or an anchor.
    fn follow_calls(&mut self, alloc: Global, stream: usize) -> Result<(), NoMemory>
        ensures ok { (format : Format) (n : ℕ) (fed : List (List ℕ)) (s : Followed) (p : Piece) (count : ℕ) → HasRead format n fed s p self.old → IsReadOn stream count s.streams self.old.streams.items → AreCallsAt stream count self.old.streams.items → OnOk result ((t : Followed) × HasFed format (with_piece fed p) s t × IsAt format n (with_piece fed p) t self.new) }
        ensures same { IsSame self.old self.new }
        ensures stands { (format : Format) (n : ℕ) (fed : List (List ℕ)) (s : Followed) (p : Piece) (count : ℕ) → HasRead format n fed s p self.old → IsReadOn stream count s.streams self.old.streams.items → AreCallsAt stream count self.old.streams.items → OnErr result (Stands s self.new.applier) }
        ensures tables { OnErr result (self.new.tables ≡ self.old.tables) }
    {
        let stood = self.applier.stand_count(stream);
        let count = self.applier.order.len();
        match read_calls(
            &mut self.applier,
            &self.known,
            self.readers.as_slice(),
            self.streams.as_slice(),
            stream,
        ) {
            Ok(()) => {}
            Err(e) => return Err(e),
        }
        match self.redo_new(alloc, stream) {
            Ok(()) => Ok(()),
            Err(e) => {
                self.applier.undo(stream, stood, count);
                Err(e)
            }
        }
    }

    /// Follows what is read, once a stream is fed of which so many records were read before.
    fn follow_more(&mut self, alloc: Global, stream: usize, before: usize) -> Result<(), LogRefusal>
        ensures ok { (format : Format) (n : ℕ) (fed : List (List ℕ)) (s : Followed) (p : Piece) → HasRead format n fed s p self.old → IsReadOn stream before s.streams self.old.streams.items → OnOk result ((t : Followed) × HasFed format (with_piece fed p) s t × IsAt format n (with_piece fed p) t self.new) }
        ensures bad { (format : Format) (n : ℕ) (fed : List (List ℕ)) (s : Followed) (p : Piece) (fault : OneFault) → HasRead format n fed s p self.old → result ≡ Err (refusals.Bad fault) → read_now format (with_piece fed p) s.order ≡ Err fault }
        ensures err { OnErr result (IsSame self.old self.new) }
        ensures stands { (format : Format) (n : ℕ) (fed : List (List ℕ)) (s : Followed) (p : Piece) → HasRead format n fed s p self.old → IsReadOn stream before s.streams self.old.streams.items → OnErr result (Stands s self.new.applier) }
        ensures tables { OnErr result (self.new.tables ≡ self.old.tables) }
    {
        if are_calls_at(self.streams.as_slice(), stream, before) {
            return match self.follow_calls(alloc, stream) {
                Ok(()) => Ok(()),
                Err(_) => Err(LogRefusal::NoMemory),
            };
        }
        match self.follow(alloc) {
            Ok(()) => Ok(()),
            Err(e) => Err(e),
        }
    }

    /// The same, if the feed has completed a record.
    fn follow_new(
        &mut self,
        alloc: Global,
        stream: usize,
        before: usize,
        more: bool,
    ) -> Result<(), LogRefusal>
        ensures ok { (format : Format) (n : ℕ) (fed : List (List ℕ)) (s : Followed) (p : Piece) → HasRead format n fed s p self.old → IsReadOn stream before s.streams self.old.streams.items → (more ≡ false → self.old.streams.items ≡ s.streams) → OnOk result ((t : Followed) × HasFed format (with_piece fed p) s t × IsAt format n (with_piece fed p) t self.new) }
        ensures bad { (format : Format) (n : ℕ) (fed : List (List ℕ)) (s : Followed) (p : Piece) (fault : OneFault) → HasRead format n fed s p self.old → result ≡ Err (refusals.Bad fault) → read_now format (with_piece fed p) s.order ≡ Err fault }
        ensures err { OnErr result (IsSame self.old self.new) }
        ensures stands { (format : Format) (n : ℕ) (fed : List (List ℕ)) (s : Followed) (p : Piece) → HasRead format n fed s p self.old → IsReadOn stream before s.streams self.old.streams.items → OnErr result (Stands s self.new.applier) }
        ensures tables { OnErr result (self.new.tables ≡ self.old.tables) }
    {
        if !more {
            return Ok(());
        }
        match self.follow_more(alloc, stream, before) {
            Ok(()) => Ok(()),
            Err(e) => Err(e),
        }
    }

    /// Has the stream that was fed as it was, and the store to be redone from the beginning.
    fn undo(&mut self, alloc: Global, stream: u8, mark: Mark)
        ensures read { (format : Format) (n : ℕ) (fed : List (List ℕ)) (before : List (List OnePlaced)) (by : List OneReader) → stream < n → AreRead format n fed before by → IsMarkAt stream before by mark →
            AreLonger stream before by self.old.streams.items self.old.readers.items → AreRead format n fed self.new.streams.items self.new.readers.items × (self.new.streams.items ≡ before) }
        ensures store { database self.new.store ≡ empty_db }
        ensures done { self.new.done ≡ 0 }
        ensures applier { self.new.applier ≡ self.old.applier }
        ensures known { self.new.known ≡ self.old.known }
        ensures declarations { self.new.declarations ≡ self.old.declarations }
        ensures tables { self.new.tables ≡ self.old.tables }
    {
        undo_stream(alloc, &mut self.readers, &mut self.streams, stream, mark);
        self.store = SerialStore::new(alloc);
        self.done = 0;
    }

    /// Feeds a single byte to a stream, if its next record is known not to be whole by it and there is room, and returns
    /// whether it did.
    #[inline(always)]
    pub fn wait_byte(&mut self, stream: u8, bytes: &[u8]) -> bool
        ensures put { (format : Format) (n : ℕ) (fed : List (List ℕ)) (s : Followed) → stream < n → IsAt format n fed s self.old → result ≡ true → (t : Followed) × HasFed format (with_piece fed (record { stream = stream; bytes = bytes.now })) s t × IsAt format n (with_piece fed (record { stream = stream; bytes = bytes.now })) t self.new }
        ensures same { (format : Format) (n : ℕ) (fed : List (List ℕ)) (s : Followed) → stream < n → IsAt format n fed s self.old → result ≡ false → IsAt format n fed s self.new }
        ensures tables { self.new.tables ≡ self.old.tables }
        ensures order { self.new.applier.order.items ≡ self.old.applier.order.items }
    {
        wait_byte(&mut self.readers, stream, bytes)
    }

    /// Feeds bytes to a stream by which its next record is not whole.
    fn wait(&mut self, stream: u8, bytes: &[u8]) -> Result<(), NoMemory>
        ensures ok { (format : Format) (n : ℕ) (fed : List (List ℕ)) (s : Followed) → stream < n → IsAt format n fed s self.old → IsShortBy self.old.readers.items stream (length bytes.now) → OnOk result ((t : Followed) × HasFed format (with_piece fed (record { stream = stream; bytes = bytes.now })) s t × IsAt format n (with_piece fed (record { stream = stream; bytes = bytes.now })) t self.new) }
        ensures err { (format : Format) (n : ℕ) (fed : List (List ℕ)) (s : Followed) → stream < n → IsAt format n fed s self.old → OnErr result (IsAt format n fed s self.new) }
        ensures tables { self.new.tables ≡ self.old.tables }
    {
        match wait_stream(&mut self.readers, stream, bytes) {
            Ok(()) => Ok(()),
            Err(e) => Err(e),
        }
    }

    /// Feeds bytes to a stream if no more than the kind and the length of its next record are there by them, and it is not
    /// whole by them, as these say. Returns whether it did.
    #[inline(never)]
    pub fn wait_head(&mut self, stream: u8, bytes: &[u8]) -> bool
        ensures put { (format : Format) (n : ℕ) (fed : List (List ℕ)) (s : Followed) → stream < n → IsAt format n fed s self.old → result ≡ true → (t : Followed) × HasFed format (with_piece fed (record { stream = stream; bytes = bytes.now })) s t × IsAt format n (with_piece fed (record { stream = stream; bytes = bytes.now })) t self.new }
        ensures same { (format : Format) (n : ℕ) (fed : List (List ℕ)) (s : Followed) → stream < n → IsAt format n fed s self.old → result ≡ false → IsAt format n fed s self.new }
        ensures tables { self.new.tables ≡ self.old.tables }
        ensures order { self.new.applier.order.items ≡ self.old.applier.order.items }
    {
        wait_head(&mut self.readers, stream, bytes)
    }

    /// Feeds bytes to a stream by which its next record may be whole.
    fn feed_on(
        &mut self,
        alloc: Global,
        format: Format,
        n: u16,
        stream: u8,
        bytes: &[u8],
    ) -> Result<(), LogRefusal>
        requires low { 1 ≤ n }
        requires high { n ≤ most_streams format }
        requires stream { stream < n }
        ensures ok { (fed : List (List ℕ)) (s : Followed) → IsAt format n fed s self.old → OnOk result ((t : Followed) × HasFed format (with_piece fed (record { stream = stream; bytes = bytes.now })) s t × IsAt format n (with_piece fed (record { stream = stream; bytes = bytes.now })) t self.new) }
        ensures bad { (fed : List (List ℕ)) (s : Followed) (fault : OneFault) → IsAt format n fed s self.old → result ≡ Err (refusals.Bad fault) → read_now format (with_piece fed (record { stream = stream; bytes = bytes.now })) s.order ≡ Err fault }
        ensures no_memory { (fed : List (List ℕ)) (s : Followed) → IsAt format n fed s self.old → result ≡ Err refusals.NoMemory → IsAt format n fed s self.new }
        ensures tables { OnErr result (self.new.tables ≡ self.old.tables) }
    {
        let room = mem::replace(&mut self.room, Vec::new(alloc));
        let Ok(mark) = mark_stream(
            room,
            self.readers.as_slice(),
            self.streams.as_slice(),
            stream,
        ) else {
            return Err(LogRefusal::NoMemory);
        };
        let before = read_count(self.streams.as_slice(), stream);
        match read_stream(
            alloc,
            format,
            n,
            &mut self.readers,
            &mut self.streams,
            stream,
            bytes,
        ) {
            Ok(()) => {}
            Err(LogRefusal::NoMemory) => {
                self.undo(alloc, stream, mark);
                return Err(LogRefusal::NoMemory);
            }
            Err(LogRefusal::Bad(fault)) => return Err(LogRefusal::Bad(fault)),
        }
        let after = read_count(self.streams.as_slice(), stream);
        match self.follow_new(alloc, stream as usize, before, is_more(before, after)) {
            Ok(()) => {
                self.room = mark.into_room();
                Ok(())
            }
            Err(LogRefusal::NoMemory) => {
                self.undo(alloc, stream, mark);
                Err(LogRefusal::NoMemory)
            }
            Err(LogRefusal::Bad(fault)) => Err(LogRefusal::Bad(fault)),
        }
    }

    /// Feeds bytes to a stream: reads, judges, and applies what is ready until nothing is.
    pub fn feed(
        &mut self,
        alloc: Global,
        format: Format,
        n: u16,
        stream: u8,
        bytes: &[u8],
    ) -> Result<(), LogRefusal>
        requires low { 1 ≤ n }
        requires high { n ≤ most_streams format }
        requires stream { stream < n }
        ensures ok { (fed : List (List ℕ)) (s : Followed) → IsAt format n fed s self.old → OnOk result ((t : Followed) × HasFed format (with_piece fed (record { stream = stream; bytes = bytes.now })) s t × IsAt format n (with_piece fed (record { stream = stream; bytes = bytes.now })) t self.new) }
        ensures bad { (fed : List (List ℕ)) (s : Followed) (fault : OneFault) → IsAt format n fed s self.old → result ≡ Err (refusals.Bad fault) → read_now format (with_piece fed (record { stream = stream; bytes = bytes.now })) s.order ≡ Err fault }
        ensures no_memory { (fed : List (List ℕ)) (s : Followed) → IsAt format n fed s self.old → result ≡ Err refusals.NoMemory → IsAt format n fed s self.new }
        ensures tables { OnErr result (self.new.tables ≡ self.old.tables) }
    {
        if is_short_by(self.readers.as_slice(), stream, bytes.len()) {
            return match self.wait(stream, bytes) {
                Ok(()) => Ok(()),
                Err(_) => Err(LogRefusal::NoMemory),
            };
        }
        match self.feed_on(alloc, format, n, stream, bytes) {
            Ok(()) => Ok(()),
            Err(e) => Err(e),
        }
    }
}
