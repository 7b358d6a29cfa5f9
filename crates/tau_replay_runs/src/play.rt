//! What redoing a log gives, by the lines of a scene: how it is redone, ` = `, and the rows of table 0 with their numbers, as
//! `1:7 4:9`, or `none`, or `tangled` with the stream and the place of the first record that can't be redone.
ghost use Rattle.tau_scan.specs.Reading.{IsLog};

use crate::spelled::{log_of, put_digits};
use crate::turns::every_list;
use std::alloc::Global;
use std::process::Abort;
use std::sync::Wait;
use std::thread::Threads;
use tau_base::{Key, Lv, Value};
use tau_disk::Quiet;
use tau_model::{SerialStore, Tables};
use tau_record::Entry;
use tau_replay::{redo_behind, replay_threads, replay_turns};
use tau_scan::{Log, ReplayRefusal};

/// These rows.
fn rows_of(alloc: Global, text: &str) -> Option<Vec<(Key, Value)>> {
    let mut rows = Vec::new(alloc);
    if text == "none" {
        return Some(rows);
    }
    for word in text.split(' ') {
        let (row, number) = word.split_once(':')?;
        let key = Key {
            table: 0,
            row: row.parse::<i64>().ok()?,
        };
        rows.push((key, Value::Int(number.parse::<i64>().ok()?)))
            .ok()?;
    }
    Some(rows)
}

/// Whether this is what was given.
pub fn is_given(alloc: Global, found: &Result<Tables, ReplayRefusal>, given: &str) -> Option<bool> {
    match found {
        Ok(tables) => Some(tables.rows() == rows_of(alloc, given)?.as_slice()),
        Err(ReplayRefusal::Tangled { stream, at }) => {
            let (wanted, place) = given.strip_prefix("tangled ")?.split_once(' ')?;
            Some(wanted.parse::<u8>().ok()? == *stream && place.parse::<u64>().ok()? == *at)
        }
        Err(ReplayRefusal::NoMemory) => None,
    }
}

/// `turns`: by these turns of workers, two digits each.
fn by_turns(alloc: Global, log: &Log, digits: &str, given: &str) -> Option<bool>
    requires { IsLog log.now }
{
    let mut turns = Vec::new(alloc);
    put_digits(&mut turns, digits)?;
    is_given(alloc, &replay_turns(alloc, log, turns.as_slice()), given)
}

/// `threads`: by so many workers side by side.
fn by_threads<R: Threads + Wait + Sync>(
    rt: &R,
    alloc: Global,
    log: &Log,
    count: &str,
    given: &str,
) -> Option<bool>
    requires { IsLog log.now }
{
    let workers = count.parse::<u8>().ok()?;
    if workers == 0 || workers > 16 {
        return None;
    }
    is_given(
        alloc,
        &replay_threads(rt, alloc, log, workers, &Quiet),
        given,
    )
}

/// `behind`: from a place of each of two streams on, `on` rows that are there.
fn behind(alloc: Global, log: &Log, text: &str, given: &str) -> Option<bool>
    requires { IsLog log.now }
{
    let (places, base) = text.split_once(" on ").unwrap_or((text, "none"));
    let (first, second) = places.split_once(' ')?;
    let from = Lv::zero(2)
        .with(0, u64::from(first.parse::<u32>().ok()?))
        .with(1, u64::from(second.parse::<u32>().ok()?));
    let rows = rows_of(alloc, base)?;
    is_given(
        alloc,
        &redo_behind(alloc, log, &from, rows.as_slice()),
        given,
    )
}

/// Executes by itself the call at a place of a stream.
fn execute(store: &mut SerialStore, log: &Log, word: &str) -> Option<()> {
    let (j, place) = word.split_once('.')?;
    let records = log.streams.as_slice().get(j.parse::<usize>().ok()?)?;
    let placed = records.as_slice().get(place.parse::<usize>().ok()?)?;
    match &placed.entry {
        Entry::Command { call, .. } if log.declarations.procs.takes(&call.call()) => {
            match store.execute(&log.declarations.procs, &call.call()) {
                Ok(_) => Some(()),
                Err(_) => None,
            }
        }
        _ => None,
    }
}

/// `serial`: what these calls give, each by itself in this order.
fn serial(alloc: Global, log: &Log, words: &str, given: &str) -> Option<bool> {
    let mut store = SerialStore::new(alloc);
    for word in words.split(' ') {
        execute(&mut store, log, word)?;
    }
    Some(store.tables(alloc).ok()?.rows() == rows_of(alloc, given)?.as_slice())
}

/// Whether a line that compares holds.
fn holds<R: Threads + Wait + Sync>(
    rt: &R,
    alloc: Global,
    log: &Log,
    how: &str,
    given: &str,
) -> Option<bool>
    requires { IsLog log.now }
{
    let (word, rest) = how.split_once(' ').unwrap_or((how, ""));
    match word {
        "turns" => by_turns(alloc, log, rest, given),
        "threads" => by_threads(rt, alloc, log, rest, given),
        "behind" => behind(alloc, log, rest, given),
        "serial" => serial(alloc, log, rest, given),
        "every" => every_list(alloc, log, false, rest, given),
        "random" => every_list(alloc, log, true, rest, given),
        _ => None,
    }
}

/// Whether a line that compares nothing has a word of its own, and if of a stream of one that the log has.
fn is_known(log: &Log, line: &str) -> bool {
    let (word, rest) = line.split_once(' ').unwrap_or((line, ""));
    match word {
        "#" | "log" | "streams" => true,
        "stream" => match rest.split_once(' ') {
            Some((j, _)) => match j.parse::<usize>() {
                Ok(number) => number < log.streams.as_slice().len(),
                Err(_) => false,
            },
            None => false,
        },
        _ => false,
    }
}

/// Plays a scene, which compares something.
fn play_scene<R: Abort + Threads + Wait + Sync>(rt: &R, alloc: Global, log: &Log, scene: &str)
    requires { IsLog log.now }
{
    let mut compares = false;
    for line in scene.lines() {
        let good = match line.split_once(" = ") {
            Some((how, given)) => {
                compares = true;
                holds(rt, alloc, log, how, given) == Some(true)
            }
            None => is_known(log, line),
        };
        assert!(rt; good, "{line}");
    }
    assert!(rt; compares, "{scene}");
}

/// Plays all scenes of a text, between which there are empty lines.
pub fn play<R: Abort + Threads + Wait + Sync>(rt: &R, alloc: Global, text: &str) {
    for scene in text.split("\n\n") {
        let log = log_of(alloc, scene).expect(rt, "a log that can be read");
        play_scene(rt, alloc, &log, scene);
    }
}
