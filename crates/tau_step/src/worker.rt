//! A worker acts.
ghost use Rattle.std.specs.Prelude.{ℕ, ◌≡◌, ◌<◌, None, List, Ok, true};
ghost use Rattle.tau_model.specs.History.{Act};
ghost use Rattle.tau_machine.specs.Hands.{Txn};
ghost use Rattle.tau_machine.specs.State.{hand_of};
ghost use Rattle.tau_machine.specs.Events as machine;
ghost use Rattle.tau_core.specs.View.{Hidden, core_of};
ghost use Rattle.tau_core.specs.Stands.{Stands, Stood};
ghost use Rattle.tau_core.specs.declared.event.Event.TheVariants as event;
ghost use Rattle.tau_core.specs.declared.event.Outcome.{Outcome};
ghost use Rattle.tau_core.specs.Answered.{outcome_by};
ghost use Rattle.tau_step.specs.Acting.{Acts, IsAlone, IsSettling, Settles, Tells, WorkerTurned, raised};

use tau_base::NoMemory;
use tau_core::{Acted, Core, Phase};

/// What the answer of an event means for the turn: whether anything was done.
fn did(acted: Acted) -> Result<bool, NoMemory>
    ensures { (so : Outcome) → Tells so (Ok true) → Tells (outcome_by so acted) result }
{
    match acted {
        Acted::Went => Ok(true),
        Acted::Busy { .. } => Ok(true),
        Acted::Other { .. } => Ok(false),
        Acted::NoMemory => Err(NoMemory),
    }
}

/// A lock, and whether anything was done. A worker that rests begins its next call.
fn lock(core: &mut Core, worker: u8) -> Result<bool, NoMemory>
    requires stood { Stood core.old }
    requires there { worker < core.old.load.workers }
    ensures acts { Acts (event.Lock worker) result core.old core.new }
    ensures load { core.new.load ≡ core.old.load }
    ensures stood { Stood core.new }
{
    did(core.lock(worker))
}

/// A key is given back.
fn quit(core: &mut Core, worker: u8) -> Result<bool, NoMemory>
    requires stood { Stood core.old }
    requires there { worker < core.old.load.workers }
    ensures acts { Acts (event.Quit worker) result core.old core.new }
    ensures load { core.new.load ≡ core.old.load }
    ensures stood { Stood core.new }
{
    did(core.quit(worker))
}

/// The record gets its place.
fn commit(core: &mut Core, worker: u8) -> Result<bool, NoMemory>
    requires stood { Stood core.old }
    requires there { worker < core.old.load.workers }
    ensures acts { Acts (event.Commit worker) result core.old core.new }
    ensures load { core.new.load ≡ core.old.load }
    ensures stood { Stood core.new }
{
    did(core.commit(worker))
}

/// The record is posted.
fn post(core: &mut Core, worker: u8) -> Result<bool, NoMemory>
    requires stood { Stood core.old }
    requires there { worker < core.old.load.workers }
    ensures acts { Acts (event.Post worker) result core.old core.new }
    ensures load { core.new.load ≡ core.old.load }
    ensures stood { Stood core.new }
{
    did(core.post(worker))
}

/// A key is freed.
fn free(core: &mut Core, worker: u8) -> Result<bool, NoMemory>
    requires stood { Stood core.old }
    requires there { worker < core.old.load.workers }
    ensures acts { Acts (event.Free worker) result core.old core.new }
    ensures load { core.new.load ≡ core.old.load }
    ensures stood { Stood core.new }
{
    did(core.free(worker))
}

/// The call has ended. A worker that rests begins its next call.
fn done(core: &mut Core, worker: u8) -> Result<bool, NoMemory>
    requires stood { Stood core.old }
    requires there { worker < core.old.load.workers }
    ensures acts { Acts (event.Done worker) result core.old core.new }
    ensures load { core.new.load ≡ core.old.load }
    ensures stood { Stood core.new }
{
    did(core.done(worker))
}

/// The next action of the worker, and whether it had any. After a stop it finishes the call in hand and begins no other.
#[inline(always)]
pub(crate) fn worker_turn(core: &mut Core, worker: u8, stopped: bool) -> Result<bool, NoMemory>
    requires stood { Stood core.old }
    requires there { worker < core.old.load.workers }
    requires stop { (h : Hidden) → stopped ≡ raised core.old h }
    ensures turned { (K : List (Act Txn)) (h : Hidden) (es : List machine.Event) (told : List (ℕ × List ℕ)) → Stands core.old K h → WorkerTurned worker core.old core.new K h es told result }

    // A worker that acts alone meets no Busy.
    ensures alone { IsAlone worker core.old → IsSettling worker core.old → Settles worker core.old core.new }
{
    match core.next_of(worker) {
        Phase::Resting => begin_turn(core, worker, stopped),
        Phase::Locking => lock(core, worker),
        Phase::Quitting => quit(core, worker),
        Phase::Ready => commit(core, worker),
        Phase::Placed => post(core, worker),
        Phase::Freeing => free(core, worker),
        Phase::Ended => done(core, worker),
        Phase::Short { .. } => Ok(false),
        Phase::Stopped { .. } => Ok(false),
    }
}

/// The first action of the next call of a worker that rests: a lock, or its end where it wants no row.
fn begin_turn(core: &mut Core, worker: u8, stopped: bool) -> Result<bool, NoMemory>
    requires stood { Stood core.old }
    requires there { worker < core.old.load.workers }
    requires stop { (h : Hidden) → stopped ≡ raised core.old h }
    requires rests { (K : List (Act Txn)) (h : Hidden) → Stands core.old K h → hand_of (core_of core.old h) worker ≡ None }
    ensures turned { (K : List (Act Txn)) (h : Hidden) (es : List machine.Event) (told : List (ℕ × List ℕ)) → Stands core.old K h → WorkerTurned worker core.old core.new K h es told result }

    // A worker that acts alone meets no Busy.
    ensures alone { IsAlone worker core.old → IsSettling worker core.old → Settles worker core.old core.new }
{
    if stopped {
        return Ok(false);
    }
    let began = lock(core, worker)?;
    if began {
        return Ok(true);
    }
    done(core, worker)
}
