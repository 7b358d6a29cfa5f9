//! Many lists of turns.
ghost use Rattle.tau_scan.specs.Reading.{IsLog};

use crate::play::is_given;
use std::alloc::Global;
use tau_replay::replay_turns;
use tau_scan::Log;

/// The next turns: of the digits of a number, each of worker 0, 1 or 2 or of none, or random ones, of any byte below 32.
fn next_turns(turns: &mut [u8], state: &mut u64, random: bool) {
    for turn in turns.iter_mut() {
        if random {
            *state = state
                .wrapping_mul(6_364_136_223_846_793_005)
                .wrapping_add(1_442_695_040_888_963_407);
            *turn = state.to_be_bytes()[0] / 8;
        } else {
            *turn = [0, 1, 2, 16][(*state % 4) as usize];
            *state /= 4;
        }
    }
}

/// `every` and `random`: whether each of so many lists of so many turns gives this.
pub fn every_list(alloc: Global, log: &Log, random: bool, text: &str, given: &str) -> Option<bool>
    requires { IsLog log.now }
{
    let (length, count) = text.split_once(' ')?;
    let mut turns = [0u8; 20];
    let turns = turns.get_mut(..length.parse::<usize>().ok()?)?;
    let mut state = 1u64;
    for k in 0..count.parse::<u64>().ok()? {
        if !random {
            state = k;
        }
        next_turns(turns, &mut state, random);
        if !is_given(alloc, &replay_turns(alloc, log, turns), given)? {
            return Some(false);
        }
    }
    Some(true)
}
