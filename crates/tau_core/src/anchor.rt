//! The manager of a stream places an anchor.
ghost use Rattle.std.specs.Prelude.{◌≡◌, ◌<◌, ◌++◌, ◌∷◌, [], None, OnOk, OnErr, slice_get};
ghost use Rattle.tau_core.specs.State.{plain};
ghost use Rattle.tau_core.specs.Stands.{Stood};
ghost use Rattle.tau_core.specs.View.{stop_in};
ghost use Rattle.tau_core.specs.Anchors.{Anchored};

use crate::event::{Outcome, Phase};
use crate::state::State;
use tau_base::{Lv, MAX_ANCHORS, MAX_LSN, NoMemory};
use tau_record::encode_anchor;

/// Places and posts an anchor that holds the persisted positions.
pub(crate) fn anchor(state: &mut State, stream: usize) -> Outcome
    requires stood { Stood (plain state.old) }
    requires there { stream < state.old.load.streams }
    ensures { Anchored (plain state.old) stream result (plain state.new) }
{
    let part = &state.streams[stream];
    if let Some(at) = part.stop {
        return Outcome::NotNow {
            phase: Phase::Stopped { at },
        };
    }
    place_anchor(state, stream)
}

/// Places and posts the anchor, where there is memory and the stream has positions left.
fn place_anchor(state: &mut State, stream: usize) -> Outcome
    requires stood { Stood (plain state.old) }
    requires there { stream < state.old.load.streams }
    requires going { stop_in (slice_get state.old.streams.items stream) ≡ None }
    ensures { Anchored (plain state.old) stream result (plain state.new) }
{
    let plv = state.plv;
    let start = state.ends.get(stream);
    let Ok(bytes) = encode_anchor(state.alloc, &plv) else {
        return Outcome::NoMemory;
    };
    let past = start + bytes.len() as u64;
    let before = state.load.opening.anchors.as_slice()[stream];
    let part = &mut state.streams[stream];
    if past >= MAX_LSN {
        return Outcome::NoMemory;
    }
    let number = u64::from(before) + part.anchors.len() as u64;
    if number >= MAX_ANCHORS {
        return Outcome::NoMemory;
    }
    if part.own.reserve().is_err() {
        return Outcome::NoMemory;
    }
    match keep(&mut part.anchors, plv) {
        Err(_) => Outcome::NoMemory,
        Ok(()) => {
            part.own.post(start, bytes);
            state.ends.set(stream, past);
            Outcome::Placed { start }
        }
    }
}

/// Puts a vector last.
fn keep(anchors: &mut Vec<Lv>, lv: Lv) -> Result<(), NoMemory>
    ensures ok { OnOk result (anchors.new.items ≡ anchors.old.items ++ lv ∷ []) }
    ensures err { OnErr result (anchors.new.items ≡ anchors.old.items) }
{
    Ok(anchors.push(lv)?)
}
