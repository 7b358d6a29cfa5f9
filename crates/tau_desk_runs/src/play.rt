//! Plays scenes. A scene has a name, the text of a workload, and one or more desks of N streams and M workers in a style, each with its lines.
//! Two workers go turn by turn:
//!
//!     W SAID                  what the next turn of worker W comes to
//!     W keeps LINE            what its committed calls are
//!
//! Or each of these steps ends with its seat in the head again:
//!
//!     worker W                all calls of worker W
//!     manager J S E           the manager of stream J gathers all that is posted, up to E, which is durable then, and drops what is covered from shard S
//!     clerk W C A,B           the clerk acknowledges the first covered call of worker W, C with this vector
//!     threads                 alone: everyone, each in a thread of its own
//!
//! and after `closed:` the lines say what the core holds:
//!
//!     calls K                 so many calls have committed
//!     call I C A,B P,Q        the I-th is C, with this dep and this vector
//!     placed I C A,B S E      the I-th is C, with this dep, and its record starts at S and ends at E
//!     row R V                 the number of row R of the first table, or none
ghost use Rattle.std.specs.Prelude.{◌≡◌, ◌≤◌, IfSome, Some};
ghost use Rattle.tau_core.specs.Opens.{Opened};

use crate::rows::holds_all;
use crate::seats::closes;
use crate::steps::goes;
use crate::turns::turns;
use std::alloc::Global;
use std::sync::Wait;
use std::test::Fail;
use std::thread::Threads;
use tau_base::{LogMode, MAX_CATALOGUE};
use tau_desk::{Desk, Head};
use tau_occ::Style;
use tau_text::{parse_workload, print_declarations};

/// Plays each scene.
pub fn play<R: Threads + Wait + Sync>(rt: &R, alloc: Global, scenes: &str) -> Result<(), Fail> {
    let scenes = scenes.strip_prefix("\nscene: ").ok_or("no scene")?;
    for scene in scenes.split("\nscene: ") {
        if let Err(line) = play_scene(rt, alloc, scene) {
            return Err(Fail::new(format_args!("{line} of {scene}")));
        }
    }
    Ok(())
}

/// Plays each desk of a scene. An `Err` is the first line that is wrong.
fn play_scene<'a, R: Threads + Wait + Sync>(
    rt: &R,
    alloc: Global,
    scene: &'a str,
) -> Result<(), &'a str> {
    let (_, body) = scene.split_once('\n').ok_or("a scene of one line")?;
    let (text, desks) = body.split_once("\ndesk: ").ok_or("a scene with no desk")?;
    for lines in desks.split("\ndesk: ") {
        play_desk(rt, alloc, text, lines)?;
    }
    Ok(())
}

fn play_desk<'a, R: Threads + Wait + Sync>(
    rt: &R,
    alloc: Global,
    text: &str,
    lines: &'a str,
) -> Result<(), &'a str> {
    let (kind, lines) = lines.split_once('\n').ok_or("a desk with no lines")?;
    let Some((desk, mut head)) = desk_in(alloc, text, kind) else {
        return Err("no such desk");
    };
    let Some((steps, rows)) = lines.split_once("closed:\n") else {
        return turns(rt, alloc, &desk, &mut head, lines);
    };
    let head = match goes(rt, alloc, &desk, head, steps) {
        Ok(head) => head,
        Err(line) => return Err(line),
    };
    let core = closes(desk, head).ok_or("a role is out, or a call is in hand")?;
    holds_all(&core, rows)
}

/// A desk of the run of this text, in which nothing has happened, and its head.
fn desk_in(alloc: Global, text: &str, kind: &str) -> Option<(Desk, Head)>
    ensures own { IfSome result (λ d. d.1.table_id ≡ d.0.table.shared.table_id) }
    ensures opened { IfSome result (λ d. d.1.me.0.opened ≡ Some d.0.table.shared.key.value) }
    ensures run { IfSome result (λ d. Opened d.0.table.shared.key.value.load d.0.table.shared.key.value) }
{
    let (streams, rest) = kind.split_once(" by ")?;
    let (workers, style) = rest.split_once(' ')?;
    let style = match style {
        "locking" => Style::Locking,
        "optimistic" => Style::Optimistic,
        _ => return None,
    };
    let n = count_of(streams)?;
    let m = count_of(workers)?;
    desk_of(alloc, text, n, m, style)
}

fn desk_of(alloc: Global, text: &str, n: u8, m: u8, style: Style) -> Option<(Desk, Head)>
    requires n_low { 1 ≤ n }
    requires n_high { n ≤ 16 }
    requires m_low { 1 ≤ m }
    requires m_high { m ≤ 16 }
    ensures own { IfSome result (λ d. d.1.table_id ≡ d.0.table.shared.table_id) }
    ensures opened { IfSome result (λ d. d.1.me.0.opened ≡ Some d.0.table.shared.key.value) }
    ensures run { IfSome result (λ d. Opened d.0.table.shared.key.value.load d.0.table.shared.key.value) }
{
    let Ok(load) = parse_workload(alloc, text.as_bytes()) else {
        return None;
    };
    let Ok(catalogue) = print_declarations(alloc, &load.declarations) else {
        return None;
    };
    if catalogue.len() > MAX_CATALOGUE {
        return None;
    }
    match Desk::new(alloc, &load, n, m, LogMode::Values, style) {
        Ok(opened) => Some(opened),
        Err(_) => None,
    }
}

/// A number from 1 to 16.
fn count_of(word: &str) -> Option<u8>
    ensures { IfSome result (λ count. (1 ≤ count) × (count ≤ 16)) }
{
    let count = word.parse::<u8>().unwrap_or(0);
    if count < 1 || count > 16 {
        return None;
    }
    Some(count)
}
