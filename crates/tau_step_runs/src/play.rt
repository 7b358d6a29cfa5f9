//! Plays scenes. A scene has a name, the text of a workload, and one or more runs, each with what it tells:
//!
//!     new M                     of M workers on two new streams
//!     locking M, optimistic M   the same from an opening, in this style
//!     .. failing C              the call C of the second stream's disk fails
//!     order N by M              the stream of each disk call of M workers on N streams, in digits
//!
//! Runs that tell the same stand on one line.
ghost use Rattle.std.specs.Prelude.{◌≤◌, length, IfOk};
ghost use Rattle.tau_base.specs.Modes.{most_streams};
ghost use Rattle.tau_base.specs.declared.format.Format.TheVariants.{One};
ghost use Rattle.tau_base.specs.declared.limits.TheConstants.{MAX_CATALOGUE, MAX_WORKERS};
ghost use Rattle.tau_text.specs.Canonical.{declarations_text};
ghost use Rattle.tau_text.specs.Kept.{AreCalls, IsRunnable};

use crate::streams::tells_end;
use std::alloc::Global;
use std::test::Fail;
use tau_base::{LogMode, MAX_CATALOGUE};
use tau_occ::Style;
use tau_step::device_order;
use tau_text::{Workload, parse_workload, print_declarations};

/// Plays each scene. `before` is the text that all of them begin with.
pub fn play(alloc: Global, before: &str, scenes: &str) -> Result<(), Fail> {
    let scenes = scenes.strip_prefix("\nscene: ").ok_or("no scene")?;
    for scene in scenes.split("\nscene: ") {
        play_scene(alloc, before, scene)?;
    }
    Ok(())
}

fn play_scene(alloc: Global, before: &str, scene: &str) -> Result<(), Fail> {
    let (_, body) = scene.split_once('\n').ok_or("a scene of one line")?;
    let (text, runs) = body.split_once("\nrun: ").ok_or("a scene with no run")?;
    let load = match load_of(alloc, before, text) {
        Ok(load) => load,
        Err(fail) => return Err(fail),
    };
    for run in runs.split("\nrun: ") {
        play_run(alloc, &load, scene, run)?;
    }
    Ok(())
}

/// The workload of a scene, whose declarations fit into a catalogue.
fn load_of(alloc: Global, before: &str, text: &str) -> Result<Workload, Fail>
    ensures runnable { IfOk result IsRunnable }
    ensures text { IfOk result (λ load. length (declarations_text load.declarations) ≤ MAX_CATALOGUE) }
{
    let mut whole = String::from_str(alloc, before)?;
    whole.push_str(text)?;
    let Ok(load) = parse_workload(alloc, whole.as_bytes()) else {
        return Err(Fail::new("the text is no workload"));
    };
    let Ok(catalogue) = print_declarations(alloc, &load.declarations) else {
        return Err(Fail::new("out of memory"));
    };
    if catalogue.len() > MAX_CATALOGUE {
        return Err(Fail::new("the declarations are too long"));
    }
    Ok(load)
}

/// Each of the runs on the first line tells the lines after it.
fn play_run(alloc: Global, load: &Workload, scene: &str, run: &str) -> Result<(), Fail>
    requires calls { AreCalls load.now.declarations.procs load.now.calls }
    requires text { length (declarations_text load.now.declarations) ≤ MAX_CATALOGUE }
{
    let (ways, wanted) = run.split_once('\n').ok_or("a run that tells nothing")?;
    for way in ways.split(", ") {
        if !tells(alloc, load, way, wanted)? {
            return Err(Fail::new(format_args!("{way} of {scene}")));
        }
    }
    Ok(())
}

/// Whether a run tells this.
fn tells(alloc: Global, load: &Workload, way: &str, wanted: &str) -> Result<bool, Fail>
    requires calls { AreCalls load.now.declarations.procs load.now.calls }
    requires text { length (declarations_text load.now.declarations) ≤ MAX_CATALOGUE }
{
    let (word, rest) = way.split_once(' ').ok_or("a run with no workers")?;
    let style = match word {
        "order" => return orders(alloc, load, rest, wanted),
        "new" => None,
        "locking" => Some(Style::Locking),
        "optimistic" => Some(Style::Optimistic),
        _ => return Err(Fail::new("no such run")),
    };
    let (workers, failing) = crew_of(rest)?;
    tells_end(alloc, load, style, workers, failing, wanted)
}

/// How many workers run, and the call of the second disk that fails.
fn crew_of(rest: &str) -> Result<(u8, Option<u32>), Fail>
    ensures { IfOk result (λ crew. (1 ≤ crew.0) × (crew.0 ≤ MAX_WORKERS)) }
{
    match rest.split_once(" failing ") {
        Some((workers, call)) => Ok((count_of(workers)?, Some(call.parse::<u32>()?))),
        None => Ok((count_of(rest)?, None)),
    }
}

/// A number from 1 to 16.
fn count_of(word: &str) -> Result<u8, Fail>
    ensures workers { IfOk result (λ count. (1 ≤ count) × (count ≤ MAX_WORKERS)) }
    ensures streams { IfOk result (λ count. count ≤ most_streams One) }
{
    match word.parse::<u8>() {
        Ok(count) if 1 <= count && count <= 16 => Ok(count),
        _ => Err(Fail::new("no such count")),
    }
}

/// Whether the disk calls of a run go to these streams.
fn orders(alloc: Global, load: &Workload, rest: &str, wanted: &str) -> Result<bool, Fail>
    requires calls { AreCalls load.now.declarations.procs load.now.calls }
    requires text { length (declarations_text load.now.declarations) ≤ MAX_CATALOGUE }
{
    let (streams, workers) = rest.split_once(" by ").ok_or("no streams")?;
    let n = count_of(streams)?;
    let m = count_of(workers)?;
    let order = device_order(alloc, load, n, m, LogMode::Values)?;
    Ok(is_order(order.as_slice(), wanted))
}

fn is_order(order: &[u8], wanted: &str) -> bool {
    let mut left = order.iter();
    for digit in wanted.bytes() {
        if digit != b' ' && digit != b'\n' && left.next() != Some(&digit.wrapping_sub(b'0')) {
            return false;
        }
    }
    left.next() == None
}
