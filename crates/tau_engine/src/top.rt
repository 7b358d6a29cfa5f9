//! The top call.
ghost use Rattle.std.specs.Prelude.{◌≡◌, map, string_bytes, vec_len};
ghost use Rattle.tau_disk.specs.Disk.{Rose};
ghost use Rattle.tau_words.specs.Words.{command_of};
ghost use Rattle.tau_engine.specs.Top.{Says};

use crate::bench::{Job, bench};
use crate::drill::drill_source;
use crate::run::{choice_of, run};
use std::alloc::Global;
use std::sync::Wait;
use std::thread::Threads;
use tau_commands::{
    DISKS, Status, audit, checkpoint, follow, inspect, read_source, recover, refuse, restore,
};
use tau_disk::{Disk, Gate, MemDisk, Sink, Source};
use tau_words::{Command, WordsRefusal, read_words};

/// Does what the words say, and returns how it ended. The words are those after the program's name. A run uses the
/// first disks, and goes on from what they hold; all disks stand in their places again, whatever the answer.
pub fn taurus<R: Threads + Wait + Sync, S: Source, K: Sink + Send, D: Disk + Send, G: Gate + Sync>(
    rt: &R,
    alloc: Global,
    words: &[String],
    source: &mut S,
    sink: &mut K,
    disks: &mut Vec<D>,
    gate: &G,
) -> Status
    requires { vec_len disks.old ≡ DISKS }

    // The disks stand in their places again.
    ensures count { vec_len disks.new ≡ DISKS }
    ensures says { Says ⟦<D as Disk>⟧ ⟦<MemDisk as Disk>⟧ (record { tells = S.tells; left = S.left source.old; left' = S.left source.new; rose = Rose (S.faults source.old) (S.faults source.new) })
        (record { hears = K.tells; held = K.held sink.old; held' = K.held sink.new; faults = K.faults sink.old; faults' = K.faults sink.new }) disks.old.items disks.new.items (command_of (map string_bytes words.now)) result }
{
    match read_words(alloc, words) {
        Err(WordsRefusal::NoMemory) => Status::NoMemory,
        Err(WordsRefusal::Usage) => refuse(alloc, sink, Status::Usage),
        Ok(Command::Recover { n, p }) => recover(rt, alloc, usize::from(n), p, sink, disks, gate),
        Ok(Command::Drill { n, m, p: _, ending }) => drill_source(
            rt, alloc, n, m, ending, source, sink, gate,
        ),
        Ok(Command::Checkpoint { n, p }) => checkpoint(rt, alloc, n, p, sink, disks, gate),
        Ok(Command::Restore { n, p }) => restore(rt, alloc, n, p, sink, disks, gate),
        Ok(Command::Inspect { n }) => inspect(alloc, usize::from(n), sink, disks),
        Ok(Command::Audit { n, m }) => audit(alloc, n, m, source, sink, disks),
        Ok(Command::Follow { n }) => follow(alloc, n, source, sink),
        Ok(Command::Bench { start, calls, n, m }) => {
            let job = Job {
                start,
                calls,
                streams: n,
                workers: m,
            };
            bench(rt, alloc, job, sink, gate)
        }
        Ok(
            Command::Run {
                n,
                m,
                mode,
                optimistic,
            },
        ) => match read_source(alloc, source) {
            Err(refusal) => refuse(alloc, sink, refusal),
            Ok(load) => {
                let choice = choice_of(n, m, mode, optimistic);
                run(rt, alloc, &load, choice, sink, disks, gate)
            }
        },
    }
}
