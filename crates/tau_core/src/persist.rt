//! Positions of streams: what is persisted, and where a stream is cut.
ghost use Rattle.std.specs.Prelude.{◌≡◌, ◌<◌, IfSome, IfNone};
ghost use Rattle.tau_base.specs.declared.limits.TheConstants.{MAX_LSN};
ghost use Rattle.tau_core.specs.State.{plain};
ghost use Rattle.tau_core.specs.Stands.{Sound};
ghost use Rattle.tau_core.specs.Managers.{Reaches, Bars, Persisted, StoppedBy};
ghost use Rattle.tau_core.specs.Answered.{reached_by};

use crate::event::Phase;
use crate::state::State;

/// Persists what is gathered of the stream up to a position.
pub(crate) fn persist(state: &mut State, stream: usize, upto: u64) -> Result<(), Phase>
    requires sound { Sound (plain state.old) }
    requires there { stream < state.old.load.streams }
    ensures { Persisted (plain state.old) stream upto (reached_by result) (plain state.new) }
{
    match bar(state, stream, upto) {
        Some(phase) => Err(phase),
        None => {
            state.plv.set(stream, upto);
            Ok(())
        }
    }
}

/// Cuts the stream at a position.
pub(crate) fn stop(state: &mut State, stream: usize, at: u64) -> Result<(), Phase>
    requires sound { Sound (plain state.old) }
    requires there { stream < state.old.load.streams }
    ensures { StoppedBy (plain state.old) stream at (reached_by result) (plain state.new) }
{
    match bar(state, stream, at) {
        Some(phase) => Err(phase),
        None => {
            let part = &mut state.streams[stream];
            part.stop = Some(at);
            Ok(())
        }
    }
}

/// Why a stream may not be persisted or cut at a position.
fn bar(state: &State, stream: usize, at: u64) -> Option<Phase>
    requires sound { Sound (plain state.now) }
    requires there { stream < state.now.load.streams }
    ensures some { IfSome result (λ phase. Bars (plain state.now) stream at phase) }
    ensures none { IfNone result (Reaches (plain state.now) stream at) }
    ensures small { IfNone result (at < MAX_LSN) }
{
    let part = &state.streams[stream];
    if let Some(at) = part.stop {
        return Some(Phase::Stopped { at });
    }
    let gathered = state.gathered.get(stream);
    if at < state.plv.get(stream) || gathered < at {
        return Some(Phase::Short { gathered });
    }
    None
}
