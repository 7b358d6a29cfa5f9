//! What was gathered is given away.
ghost use Rattle.std.specs.Prelude.{◌≡◌, ◌<◌};
ghost use Rattle.tau_core.specs.State.{plain};
ghost use Rattle.tau_core.specs.Stands.{Sound};
ghost use Rattle.tau_core.specs.Body.{Gives};

use crate::state::State;
use std::mem;

/// The bytes that were gathered since the last such call.
pub(crate) fn take_body(state: &mut State, stream: usize) -> Vec<u8>
    requires sound { Sound (plain state.old) }
    requires there { stream < state.old.load.streams }
    ensures { Gives (plain state.old) stream result.items (plain state.new) }
{
    let empty = Vec::new(state.alloc);
    let part = &mut state.streams[stream];
    mem::replace(&mut part.body, empty)
}

/// They are put in the place of what `bytes` had, into whose memory the stream is gathered from then on.
pub(crate) fn swap_body(state: &mut State, stream: usize, bytes: &mut Vec<u8>)
    requires sound { Sound (plain state.old) }
    requires there { stream < state.old.load.streams }
    ensures { Gives (plain state.old) stream bytes.new.items (plain state.new) }
{
    bytes.clear();
    let part = &mut state.streams[stream];
    mem::swap(&mut part.body, bytes);
}
