//! The follower.
ghost use Rattle.std.specs.Prelude.{◌≡◌, ◌≤◌, ◌<◌, [], true, false, ℕ, List, Some, None, Ok, Err, length, replicate, IfOk, IfSome, IsNone, OnOk, OnErr};
ghost use Rattle.tau_base.specs.Modes.{most_streams};
ghost use Rattle.tau_base.specs.declared.format.Format.{Format};
ghost use Rattle.tau_model.specs.Tables.{IsTablesOf};
ghost use Rattle.tau_scan.specs.Taken.{taken};
ghost use Rattle.tau_scan.specs.declared.fault.LogFault.{LogFault as OneFault};
ghost use Rattle.tau_scan.specs.declared.log.Log.{Log as OneLog};
ghost use Rattle.tau_replay.specs.Redone.{IsRedone};
ghost use Rattle.tau_follow_laws.specs.Following.{Followed, begun};
ghost use Rattle.tau_follow_laws.specs.Feeding.{with_piece, read_now, HasFed};
ghost use Rattle.tau_follow.specs.declared.refusal.FollowRefusal.TheVariants as refusals;
ghost use Rattle.tau_follow.specs.Follower.{applied_db, log_of, width_of, count_of, rows_of, IsOpen, HasFailed, Follows, IsSealed};
ghost use Rattle.tau_follow.specs.Sealing.{IsNoLog};

use crate::refusal::FollowRefusal;
use crate::state::State;
use crate::width::Width;
use std::alloc::Global;
use tau_base::{Format, NoMemory};
use tau_model::Tables;
use tau_scan::{Log, LogFault, LogRefusal};

/// A second copy of the tables, which is fed the contents of the streams as they grow.
#[derive(Drop)]
pub struct Follower {
    alloc: Global,
    width: Width,
    state: State,
    /// How many records are applied; once it is sealed, how many recovery takes.
    count: usize,
    failed: Option<LogFault>,
    log: Option<Log>,
}

/// Why bytes were not taken.
fn refusal_of(failed: Option<LogFault>) -> FollowRefusal
    ensures bad { (fault : OneFault) → result ≡ refusals.Bad fault → failed ≡ Some fault }
    ensures none { result ≡ refusals.NoMemory → failed ≡ None }
{
    match failed {
        Some(fault) => FollowRefusal::Bad(fault),
        None => FollowRefusal::NoMemory,
    }
}

impl Follower {
    /// A follower of `n` streams of which nothing is fed.
    #[tactic(auto, unfolding(crate::specs::Follower::IsOpen))]
    pub fn new(alloc: Global, format: Format, n: u16) -> Result<Follower, NoMemory>
        requires low { 1 ≤ n }
        requires high { n ≤ most_streams format }
        ensures begun { IfOk result (λ follower. Follows format n (replicate n []) (begun n) follower) }
        ensures open { IfOk result IsOpen }
        ensures width { IfOk result (λ follower. width_of follower ≡ n) }
    {
        let state = State::new(alloc, n)?;
        Ok(Follower {
            alloc,
            width: Width::new(format, n),
            state,
            count: 0,
            failed: None,
            log: None,
        })
    }

    /// Feeds the next bytes of a stream: reads the records that are whole by them, and applies each record whose vector the
    /// recovered one covers. `Bad` names the first cause why what was read is no log, or that a record was applied too
    /// early; the follower has failed then. Out of memory nothing was taken.
    #[tactic(auto, unfolding(crate::specs::Follower::IsOpen))]
    pub fn feed(&mut self, stream: u8, bytes: &[u8]) -> Result<(), FollowRefusal>
        requires open { IsOpen self.old }
        requires stream { stream < width_of self.old }
        ensures ok { (f : Format) (n : ℕ) (fed : List (List ℕ)) (s : Followed) → Follows f n fed s self.old → OnOk result ((t : Followed) × HasFed f (with_piece fed (record { stream = stream; bytes = bytes.now })) s t × Follows f n (with_piece fed (record { stream = stream; bytes = bytes.now })) t self.new) }
        ensures bad { (f : Format) (n : ℕ) (fed : List (List ℕ)) (s : Followed) (fault : OneFault) → Follows f n fed s self.old → result ≡ Err (refusals.Bad fault) → read_now f (with_piece fed (record { stream = stream; bytes = bytes.now })) s.order ≡ Err fault }
        ensures no_memory { (f : Format) (n : ℕ) (fed : List (List ℕ)) (s : Followed) → Follows f n fed s self.old → result ≡ Err refusals.NoMemory → Follows f n fed s self.new }
        ensures failed { (fault : OneFault) → result ≡ Err (refusals.Bad fault) → HasFailed fault self.new }
        ensures again { (fault : OneFault) → HasFailed fault self.old → result ≡ Err (refusals.Bad fault) }
        ensures open { IsOpen self.new }
        ensures width { width_of self.new ≡ width_of self.old }
        ensures rows { OnErr result (rows_of self.new ≡ rows_of self.old) }
        ensures count { OnErr result (count_of self.new ≡ count_of self.old) }
    {
        if let Some(fault) = self.failed {
            return Err(FollowRefusal::Bad(fault));
        }
        if self.state.wait_byte(stream, bytes) {
            return Ok(());
        }
        if self.state.wait_head(stream, bytes) {
            return Ok(());
        }
        if self.feed_on(stream, bytes) {
            return Ok(());
        }
        Err(refusal_of(self.failed))
    }

    /// Feeds bytes by which the next record of a stream may be whole, and returns whether they were taken. If they were not,
    /// the follower has failed, or memory was refused. It has not failed before.
    #[tactic(auto, unfolding(crate::specs::Follower::IsOpen))]
    #[inline(never)]
    fn feed_on(&mut self, stream: u8, bytes: &[u8]) -> bool
        requires stream { stream < width_of self.old }
        ensures ok { (f : Format) (n : ℕ) (fed : List (List ℕ)) (s : Followed) → Follows f n fed s self.old → result ≡ true → (t : Followed) × HasFed f (with_piece fed (record { stream = stream; bytes = bytes.now })) s t × Follows f n (with_piece fed (record { stream = stream; bytes = bytes.now })) t self.new }
        ensures bad { (f : Format) (n : ℕ) (fed : List (List ℕ)) (s : Followed) (fault : OneFault) → Follows f n fed s self.old → result ≡ false → HasFailed fault self.new → read_now f (with_piece fed (record { stream = stream; bytes = bytes.now })) s.order ≡ Err fault }
        ensures no_memory { (f : Format) (n : ℕ) (fed : List (List ℕ)) (s : Followed) → Follows f n fed s self.old → result ≡ false → self.new.failed ≡ None → Follows f n fed s self.new }
        ensures log { self.new.log ≡ self.old.log }
        ensures width { width_of self.new ≡ width_of self.old }
        ensures rows { result ≡ false → rows_of self.new ≡ rows_of self.old }
        ensures count { result ≡ false → count_of self.new ≡ count_of self.old }
    {
        match self.state.feed(
            self.alloc,
            self.width.format(),
            self.width.n(),
            stream,
            bytes,
        ) {
            Ok(()) => {
                self.count = self.state.applier.order.len();
                true
            }
            Err(LogRefusal::NoMemory) => false,
            Err(LogRefusal::Bad(fault)) => {
                self.failed = Some(fault);
                false
            }
        }
    }

    /// Ends the feeding, once the whole contents of all streams are fed: recovers their log. `Bad` names the stream of which
    /// the last record is not whole, or the first record that waits for one that waits; the follower has failed then. Out of
    /// memory it goes on as before.
    #[tactic(auto, unfolding(crate::specs::Follower::IsOpen))]
    pub fn seal(&mut self) -> Result<(), FollowRefusal>
        requires open { IsOpen self.old }
        ensures ok { (f : Format) (n : ℕ) (fed : List (List ℕ)) (s : Followed) → Follows f n fed s self.old → OnOk result ((log : OneLog) × IsSealed f fed log self.new) }
        ensures bad { (f : Format) (n : ℕ) (fed : List (List ℕ)) (s : Followed) (fault : OneFault) → Follows f n fed s self.old → result ≡ Err (refusals.Bad fault) → IsNoLog f fed fault }
        ensures no_memory { (f : Format) (n : ℕ) (fed : List (List ℕ)) (s : Followed) → Follows f n fed s self.old → result ≡ Err refusals.NoMemory → Follows f n fed s self.new }
        ensures failed { (fault : OneFault) → result ≡ Err (refusals.Bad fault) → HasFailed fault self.new }
        ensures again { (fault : OneFault) → HasFailed fault self.old → result ≡ Err (refusals.Bad fault) }
        ensures open { OnErr result (IsOpen self.new) }
        ensures width { width_of self.new ≡ width_of self.old }
        ensures rows { OnErr result (rows_of self.new ≡ rows_of self.old) }
        ensures count { OnErr result (count_of self.new ≡ count_of self.old) }
    {
        if let Some(fault) = self.failed {
            return Err(FollowRefusal::Bad(fault));
        }
        match self.state.seal(self.alloc) {
            Ok(sealed) => {
                self.count = sealed.count;
                self.log = Some(sealed.log);
                Ok(())
            }
            Err(LogRefusal::NoMemory) => Err(FollowRefusal::NoMemory),
            Err(LogRefusal::Bad(fault)) => {
                self.failed = Some(fault);
                Err(FollowRefusal::Bad(fault))
            }
        }
    }

    /// How many records are applied. Once it is sealed these are all that recovery takes.
    pub fn applied(&self) -> usize
        ensures count { result ≡ count_of self.now }
        ensures fed { (f : Format) (n : ℕ) (fed : List (List ℕ)) (s : Followed) → Follows f n fed s self.now → result ≡ length s.order }
        ensures sealed { (f : Format) (fed : List (List ℕ)) (log : OneLog) → IsSealed f fed log self.now → result ≡ length (taken log) }
    {
        self.count
    }

    /// The rows of what the applied records did.
    pub fn tables(&self) -> &Tables
        ensures rows { result.now ≡ rows_of self.now }
        ensures fed { (f : Format) (n : ℕ) (fed : List (List ℕ)) (s : Followed) → Follows f n fed s self.now → IsTablesOf (applied_db s) result.now }
        ensures sealed { (f : Format) (fed : List (List ℕ)) (log : OneLog) → IsSealed f fed log self.now → IsRedone log result.now }
    {
        &self.state.tables
    }

    /// The log of all contents, if it is sealed.
    pub fn log(&self) -> Option<&Log>
        ensures some { IfSome result (λ log. log_of self.now ≡ Some log.now) }
        ensures none { IsNone result → log_of self.now ≡ None }
    {
        match &self.log {
            Some(log) => Some(log),
            None => None,
        }
    }
}
