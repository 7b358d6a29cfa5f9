//! A log is redone on a checkpoint.
ghost use Rattle.std.specs.Prelude.{◌≡◌, [], ℕ, List, Err, IfOk};
ghost use Rattle.tau_model.specs.Tables.{db_of_rows};
ghost use Rattle.tau_scan.specs.Reading.{IsLog};
ghost use Rattle.tau_scan.specs.Sound.{IsOrderOver};
ghost use Rattle.tau_scan.specs.Taken.{Kept};
ghost use Rattle.tau_replay.specs.Course.{after};
ghost use Rattle.tau_replay.specs.Followed.{IsRedoneByOn};
ghost use Rattle.tau_replay.specs.Redone.{IsRedoneOn, IsTangledOver, taken_after};
ghost use Rattle.tau_ckpt.specs.Chosen.{checkpoint_at};

use crate::checkpoint::Checkpoint;
use std::alloc::Global;
use tau_model::Tables;
use tau_replay::redo_behind;
use tau_scan::{Log, ReplayRefusal, largest_epoch};

/// Redoes the taken records of a log that start at or after the checkpoint's position of their stream, on its rows.
pub fn redo_after(alloc: Global, log: &Log, base: &Checkpoint) -> Result<Tables, ReplayRefusal>
    requires { IsLog log.now }
    // The tables are those of redoing these records in an orderly order, on the database of the rows.
    ensures ok { IfOk result (λ tables. IsRedoneOn log.now (taken_after base.now.lv log.now) (db_of_rows base.now.rows) tables) }
    // They are what rounds of all workers give.
    ensures followed { IfOk result (λ tables. IsRedoneByOn log.now (after log.now base.now.lv (db_of_rows base.now.rows)) [] tables) }
    // No orderly order exists: this is the first of them, by stream and place, of those that can't be started.
    ensures tangled { (j at : ℕ) → result ≡ Err (ReplayRefusal.Tangled j at) → IsTangledOver (taken_after base.now.lv log.now) j at × ((order : List Kept) → IsOrderOver (taken_after base.now.lv log.now) order → ⊥) }
{
    redo_behind(alloc, log, &base.lv, base.rows.rows())
}

/// The checkpoint with this number of a log that was redone to these rows.
pub fn checkpoint_at(log: &Log, number: u64, rows: Tables) -> Checkpoint
    ensures { result ≡ checkpoint_at log.now number rows }
{
    Checkpoint {
        number,
        epoch: largest_epoch(log.streams.as_slice()),
        lv: log.elv,
        rows,
    }
}
