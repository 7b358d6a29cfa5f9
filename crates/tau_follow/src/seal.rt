//! The log of all that was fed.
ghost use Rattle.std.specs.Prelude.{◌≡◌, ◌≤◌, ◌<◌, ◌+◌, [], true, false, if◌then◌else◌, ℕ, List, Some, Ok, Err, length, slice_get, slice_index, IfOk, IfSome, IsNone, OnOk, OnErr};
ghost use Rattle.tau_base.specs.declared.format.Format.{Format};
ghost use Rattle.tau_base.specs.declared.limits.TheConstants.{MAX_STREAMS as MOST};
ghost use Rattle.tau_scan.specs.Epochs.{vector_by};
ghost use Rattle.tau_scan.specs.Reading.{log_of_contents, IsLog};
ghost use Rattle.tau_scan.specs.Taken.{is_taken_by, taken, taken_in, taken_from};
ghost use Rattle.tau_scan.specs.declared.fault.LogFault.{LogFault as OneFault};
ghost use Rattle.tau_scan.specs.declared.fault.LogRefusal.TheVariants as refusals;
ghost use Rattle.tau_scan.specs.declared.log.Log.{Log as OneLog};
ghost use Rattle.tau_replay.specs.Followed.{IsRedoneBy};
ghost use Rattle.tau_replay.specs.Redone.{IsRedone, IsTangledAt};
ghost use Rattle.tau_follow_laws.specs.Following.{Followed};
ghost use Rattle.tau_follow.specs.Sealing.{IsCutAt, IsCutShort, IsWithout, IsRecovered, IsNoLog, AreLengths, tangled};
ghost use Rattle.tau_follow.specs.State.{IsAt, IsFed};
ghost use Rattle.tau_follow.specs.declared.reader.Reader.{Reader as OneReader};

use crate::check::declared;
use crate::reader::{Reader, vector_of};
use crate::state::State;
use std::alloc::Global;
use std::mem;
use tau_base::{Listed, Lv, MAX_STREAMS, NoMemory};
use tau_model::Tables;
use tau_record::{Entry, Placed, RecordCause, RecordFault};
use tau_replay::replay_turns;
use tau_scan::{Judge, Log, LogCause, LogFault, LogRefusal, ReplayRefusal};

/// Whether some bytes are left that are no whole record.
fn has_rest(reader: &Reader) -> bool
    ensures left { result ≡ true → reader.now.rest.items ≡ [] → ⊥ }
    ensures none { result ≡ false → reader.now.rest.items ≡ [] }
{
    reader.rest.len() > 0
}

/// The first stream of which the last record is not whole.
fn cut_short(readers: &[Reader]) -> Option<LogFault>
    requires { length readers.now ≤ MOST }
    ensures some { IfSome result (λ fault. IsCutAt readers.now fault) }
    ensures none { IsNone result → (j : ℕ) (r : OneReader) → slice_get readers.now j ≡ Some r → r.rest.items ≡ [] }
{
    for j in 0..readers.len() {
        if has_rest(&readers[j]) {
            return Some(LogFault {
                stream: j as u8,
                cause: LogCause::Body(RecordFault {
                    at: readers[j].at,
                    cause: RecordCause::Short,
                }),
            });
        }
    }
    None
}

/// Where the records of each stream end that are read.
fn lengths(alloc: Global, readers: &[Reader]) -> Result<Lv, NoMemory>
    ensures { IfOk result (λ lv. AreLengths readers.now lv) }
{
    let mut list = Vec::new(alloc);
    for j in 0..readers.len() {
        list.push(readers[j].at)?;
    }
    match vector_of(list.as_slice()) {
        Some(lv) => Ok(lv),
        None => Err(NoMemory),
    }
}

/// Whether recovery takes a record that is judged against this vector.
fn is_taken(lv: &Lv, entry: &Entry) -> bool
    ensures { result ≡ is_taken_by lv.now entry.now }
{
    match entry {
        Entry::Written { dep, .. } => lv.covers_all(dep.as_slice()),
        Entry::Command { dep, .. } => lv.covers_all(dep.as_slice()),
        Entry::Anchor { .. } => false,
        Entry::Catalogue { .. } => false,
        Entry::Epoch { .. } => false,
    }
}

/// One more if it is so.
fn added(count: usize, more: bool) -> Option<usize>
    ensures { IfSome result (λ sum. sum ≡ (if more then count + 1 else count)) }
{
    if more {
        return count.checked_add(1);
    }
    Some(count)
}

/// How many records of a stream recovery takes.
fn count_in(judge: &Judge, records: &[Placed]) -> Result<usize, NoMemory>
    ensures { (j : ℕ) → IfOk result (λ count. count ≡ length (taken_in (vector_by judge.now) j 0 records.now)) }
{
    let mut lv = judge.vector(0);
    let mut count = 0;
    for i in 0..records.len() {
        let placed = &records[i];
        let Some(sum) = added(count, is_taken(&lv, &placed.entry)) else {
            return Err(NoMemory);
        };
        count = sum;
        judge.pass(&mut lv, &placed.entry);
    }
    Ok(count)
}

/// How many records of all streams recovery takes.
fn count_all(judge: &Judge, streams: &[Listed<Placed>]) -> Result<usize, NoMemory>
    ensures { IfOk result (λ count. count ≡ length (taken_from (vector_by judge.now) 0 streams.now)) }
{
    let mut count: usize = 0;
    for j in 0..streams.len() {
        let more = count_in(judge, streams[j].as_slice())?;
        let Some(sum) = count.checked_add(more) else {
            return Err(NoMemory);
        };
        count = sum;
    }
    Ok(count)
}

/// How many records recovery takes.
fn count_taken(alloc: Global, log: &Log) -> Result<usize, NoMemory>
    ensures { IfOk result (λ count. count ≡ length (taken log.now)) }
{
    let judge = Judge::of(alloc, log)?;
    count_all(&judge, log.streams.as_slice())
}

/// What recovery gives of a log: its rows, and how many records it takes.
fn recovered(alloc: Global, log: &Log) -> Result<(Tables, usize), LogRefusal>
    requires { IsLog log.now }
    ensures rows { IfOk result (λ r. IsRedone log.now r.0) }
    ensures turns { IfOk result (λ r. IsRedoneBy log.now [] r.0) }
    ensures count { IfOk result (λ r. r.1 ≡ length (taken log.now)) }
    ensures bad { (fault : OneFault) → result ≡ Err (refusals.Bad fault) → (j : ℕ) × (at : ℕ) × (fault ≡ tangled j at) × IsTangledAt log.now j at }
{
    let tables = match replay_turns(alloc, log, &[]) {
        Ok(tables) => tables,
        Err(ReplayRefusal::NoMemory) => return Err(LogRefusal::NoMemory),
        Err(ReplayRefusal::Tangled { stream, at }) => {
            return Err(LogRefusal::Bad(LogFault {
                stream,
                cause: LogCause::Tangled { at },
            }));
        }
    };
    match count_taken(alloc, log) {
        Ok(count) => Ok((tables, count)),
        Err(_) => Err(LogRefusal::NoMemory),
    }
}

/// A log, and how many of its records recovery takes.
#[derive(Drop)]
pub struct Sealed {
    pub log: Log,
    pub count: usize,
}

impl State {
    /// The log of the records that are read, once no bytes are left. It takes the records, which stay if it is refused.
    fn log_of(&mut self, alloc: Global) -> Result<Log, NoMemory>
        requires fed { IsFed self.old }
        requires whole { (j : ℕ) (r : OneReader) → slice_get self.old.readers.items j ≡ Some r → r.rest.items ≡ [] }
        ensures ok { (f : Format) (n : ℕ) (fed : List (List ℕ)) (s : Followed) → IsAt f n fed s self.old → IfOk result (λ log. log_of_contents f fed ≡ Ok log) }
        ensures log { IfOk result IsLog }
        ensures streams { IfOk result (λ log. log.streams ≡ self.old.streams.items) }
        ensures rest { OnOk result (IsWithout self.old self.new) }
        ensures err { OnErr result (self.new ≡ self.old) }
    {
        if self.streams.len() > MAX_STREAMS {
            return Err(NoMemory);
        }
        let elv = lengths(alloc, self.readers.as_slice())?;
        let Ok(declarations) = declared(alloc, self.streams.as_slice()) else {
            return Err(NoMemory);
        };
        let streams = mem::replace(&mut self.streams, Vec::new(alloc));
        Ok(Log {
            elv,
            declarations,
            streams: Listed::of(streams),
        })
    }

    /// The log of all that was fed. It takes the records, which stay if it is refused.
    fn take_log(&mut self, alloc: Global) -> Result<Log, LogRefusal>
        requires { IsFed self.old }
        ensures ok { (f : Format) (n : ℕ) (fed : List (List ℕ)) (s : Followed) → IsAt f n fed s self.old → IfOk result (λ log. log_of_contents f fed ≡ Ok log) }
        ensures log { IfOk result IsLog }
        ensures streams { IfOk result (λ log. log.streams ≡ self.old.streams.items) }
        ensures bad { (f : Format) (n : ℕ) (fed : List (List ℕ)) (s : Followed) (fault : OneFault) → IsAt f n fed s self.old → result ≡ Err (refusals.Bad fault) → IsCutShort f fed fault }
        ensures rest { OnOk result (IsWithout self.old self.new) }
        ensures err { OnErr result (self.new ≡ self.old) }
    {
        if self.readers.len() > MAX_STREAMS {
            return Err(LogRefusal::NoMemory);
        }
        match cut_short(self.readers.as_slice()) {
            Some(fault) => Err(LogRefusal::Bad(fault)),
            None => match self.log_of(alloc) {
                Ok(log) => Ok(log),
                Err(_) => Err(LogRefusal::NoMemory),
            },
        }
    }

    /// Ends the feeding: recovers the log of all that was fed.
    pub fn seal(&mut self, alloc: Global) -> Result<Sealed, LogRefusal>
        requires { IsFed self.old }
        ensures ok { (f : Format) (n : ℕ) (fed : List (List ℕ)) (s : Followed) → IsAt f n fed s self.old → IfOk result (λ sealed. IsRecovered f fed sealed.log sealed.count self.new.tables) }
        ensures bad { (f : Format) (n : ℕ) (fed : List (List ℕ)) (s : Followed) (fault : OneFault) → IsAt f n fed s self.old → result ≡ Err (refusals.Bad fault) → IsNoLog f fed fault }
        ensures err { (f : Format) (n : ℕ) (fed : List (List ℕ)) (s : Followed) → IsAt f n fed s self.old → OnErr result (IsAt f n fed s self.new) }
        ensures tables { OnErr result (self.new.tables ≡ self.old.tables) }
    {
        let log = match self.take_log(alloc) {
            Ok(log) => log,
            Err(e) => return Err(e),
        };
        match recovered(alloc, &log) {
            Ok((tables, count)) => {
                self.tables = tables;
                Ok(Sealed { log, count })
            }
            Err(e) => {
                self.streams = log.streams.into_vec();
                Err(e)
            }
        }
    }
}
