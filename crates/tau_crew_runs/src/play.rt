//! Plays scenes. A scene has a name, the text of a workload, and one or more runs in threads on two new streams:
//!
//!     new M                     of M workers
//!     locking M, optimistic M   the same from an opening, in this style
//!     .. after K                the first stream is said to have K anchors
//!
//! Runs that come to the same stand on one line. They come to a report, or to this:
//!
//!     image HEX                 what the disk of each stream holds
//!     anchors K A               so many calls are acknowledged, and the first stream has got so many anchors
//!     counts K                  so many calls are acknowledged, which reply the numbers from 1 in the order of the history
ghost use Rattle.std.specs.Prelude.{◌≤◌, length, IfOk};
ghost use Rattle.tau_base.specs.declared.limits.TheConstants.{MAX_CATALOGUE};
ghost use Rattle.tau_text.specs.Canonical.{declarations_text};
ghost use Rattle.tau_text.specs.Kept.{AreCalls, IsRunnable};

use crate::streams::{Way, comes_to};
use std::alloc::Global;
use std::sync::Wait;
use std::test::Fail;
use std::thread::Threads;
use tau_base::MAX_CATALOGUE;
use tau_occ::Style;
use tau_text::{Workload, parse_workload, print_declarations};

/// Plays each scene. `before` is the text that all of them begin with.
pub fn play<R: Threads + Wait + Sync>(
    rt: &R,
    alloc: Global,
    before: &str,
    scenes: &str,
) -> Result<(), Fail> {
    let scenes = scenes.strip_prefix("\nscene: ").ok_or("no scene")?;
    for scene in scenes.split("\nscene: ") {
        play_scene(rt, alloc, before, scene)?;
    }
    Ok(())
}

fn play_scene<R: Threads + Wait + Sync>(
    rt: &R,
    alloc: Global,
    before: &str,
    scene: &str,
) -> Result<(), Fail> {
    let (_, body) = scene.split_once('\n').ok_or("a scene of one line")?;
    let (text, runs) = body.split_once("\nrun: ").ok_or("a scene with no run")?;
    let load = match load_of(alloc, before, text) {
        Ok(load) => load,
        Err(fail) => return Err(fail),
    };
    for run in runs.split("\nrun: ") {
        play_run(rt, alloc, &load, scene, run)?;
    }
    Ok(())
}

/// The workload of a scene, whose declarations fit into a catalogue.
fn load_of(alloc: Global, before: &str, text: &str) -> Result<Workload, Fail>
    ensures runnable { IfOk result IsRunnable }
    ensures text { IfOk result (λ load. length (declarations_text load.declarations) ≤ MAX_CATALOGUE) }
{
    let mut whole = String::from_str(alloc, before)?;
    whole.push_str(text)?;
    let Ok(load) = parse_workload(alloc, whole.as_bytes()) else {
        return Err(Fail::new("the text is no workload"));
    };
    let Ok(catalogue) = print_declarations(alloc, &load.declarations) else {
        return Err(Fail::new("out of memory"));
    };
    if catalogue.len() > MAX_CATALOGUE {
        return Err(Fail::new("the declarations are too long"));
    }
    Ok(load)
}

/// Each of the runs on the first line comes to what the lines after it say.
fn play_run<R: Threads + Wait + Sync>(
    rt: &R,
    alloc: Global,
    load: &Workload,
    scene: &str,
    run: &str,
) -> Result<(), Fail>
    requires calls { AreCalls load.now.declarations.procs load.now.calls }
    requires text { length (declarations_text load.now.declarations) ≤ MAX_CATALOGUE }
{
    let (ways, wanted) = run.split_once('\n').ok_or("a run that comes to nothing")?;
    for words in ways.split(", ") {
        let way = way_of(words).ok_or("no such run")?;
        if !comes_to(rt, alloc, load, way, wanted)? {
            return Err(Fail::new(format_args!("{words} of {scene}")));
        }
    }
    Ok(())
}

/// How a run goes.
fn way_of(words: &str) -> Option<Way> {
    let (word, rest) = words.split_once(' ')?;
    let style = match word {
        "new" => None,
        "locking" => Some(Style::Locking),
        "optimistic" => Some(Style::Optimistic),
        _ => return None,
    };
    let (workers, anchors) = rest.split_once(" after ").unwrap_or((rest, "0"));
    match (workers.parse::<u8>(), anchors.parse::<u32>()) {
        (Ok(workers), Ok(anchors)) => Some(Way {
            anchors,
            workers,
            style,
        }),
        _ => None,
    }
}
