//! Reading a command line.
ghost use Rattle.std.specs.Prelude.{◌≡◌, ◌≤◌, Err, IfOk, Some, None, map, option_map, string_bytes};
ghost use Rattle.tau_words.specs.Words.{same_word, run_with, mode_by, wide_in, run_as, run_by, run_of_counts, run_of, recover_of, checkpoint_of, restore_of, follow_of, inspect_of, audit_of, tear_of, ending_of, drill_of, bench_of, command_on_streams, command_of};
ghost use Rattle.tau_words.specs.declared.command.WordsRefusal.TheVariants.{Usage};
ghost use Rattle.tau_words.specs.declared.command.Command.TheVariants.{Drill};

use crate::command::{Command, Ending, WordsRefusal};
use crate::number::{
    MAX_COUNT, MAX_DEVICE_CALL, MAX_START, count_of, number_in, run_count_of, streams_of,
    workers_of,
};
use crate::split::{MAX_WORDS, has_flag, split};
use std::alloc::Global;
use tau_base::{LogMode, MAX_CALLS};
use tau_disk::Tear;

fn is_word(word: &str, name: &str) -> bool
    ensures { result ≡ same_word word.now name.now }
{
    word == name
}

fn run_with(mode: LogMode, wide: bool, optimistic: bool, n: &str, m: &str) -> Option<Command>
    ensures { result ≡ run_with mode wide optimistic n.now m.now }
{
    match (run_count_of(wide, n), run_count_of(wide, m)) {
        (Some(n), Some(m)) => Some(Command::Run {
            n,
            m,
            mode,
            optimistic,
        }),
        _ => None,
    }
}

fn mode_by(command: bool, wide: bool) -> LogMode
    ensures { result ≡ mode_by command wide }
{
    if command {
        if wide {
            LogMode::WideCommands
        } else {
            LogMode::Commands
        }
    } else if wide {
        LogMode::WideValues
    } else {
        LogMode::Values
    }
}

/// Whether the words that are left ask for the wide format, if they say no more than that.
fn wide_in(words: &[&str]) -> Option<bool>
    ensures { result ≡ wide_in (map (λ s. s.now) words.now) }
{
    match words {
        [] => Some(false),
        [word] => {
            if is_word(word, "wide") {
                Some(true)
            } else {
                None
            }
        }
        _ => None,
    }
}

/// The run whose records hold this, with these counts and what the words after these say.
fn run_as(command: bool, optimistic: bool, n: &str, m: &str, words: &[&str]) -> Option<Command>
    ensures { result ≡ run_as command optimistic n.now m.now (map (λ s. s.now) words.now) }
{
    match wide_in(words) {
        None => None,
        Some(wide) => run_with(mode_by(command, wide), wide, optimistic, n, m),
    }
}

/// The same, where the words may begin with how its workers go on.
fn run_by(command: bool, n: &str, m: &str, words: &[&str]) -> Option<Command>
    ensures { result ≡ run_by command n.now m.now (map (λ s. s.now) words.now) }
{
    match words {
        [] => run_as(command, false, n, m, words),
        [word, rest @ ..] => {
            if is_word(word, "optimistic") {
                run_as(command, true, n, m, rest)
            } else {
                run_as(command, false, n, m, words)
            }
        }
    }
}

/// The same, where they may begin with what its records hold.
fn run_of_counts(n: &str, m: &str, words: &[&str]) -> Option<Command>
    ensures { result ≡ run_of_counts n.now m.now (map (λ s. s.now) words.now) }
{
    match words {
        [] => run_by(false, n, m, words),
        [word, rest @ ..] => {
            if is_word(word, "data") {
                run_by(false, n, m, rest)
            } else if is_word(word, "command") {
                run_by(true, n, m, rest)
            } else {
                run_by(false, n, m, words)
            }
        }
    }
}

fn run_of(words: &[&str]) -> Option<Command>
    ensures { result ≡ run_of (map (λ s. s.now) words.now) }
{
    match words {
        [n, m, rest @ ..] => run_of_counts(n, m, rest),
        _ => None,
    }
}

fn recover_of(words: &[&str]) -> Option<Command>
    ensures { result ≡ recover_of (map (λ s. s.now) words.now) }
{
    match words {
        [n, p] => match (streams_of(n), count_of(p)) {
            (Some(n), Some(p)) => Some(Command::Recover { n, p }),
            _ => None,
        },
        _ => None,
    }
}

fn checkpoint_of(words: &[&str]) -> Option<Command>
    ensures { result ≡ checkpoint_of (map (λ s. s.now) words.now) }
{
    match words {
        [n, p] => match (streams_of(n), count_of(p)) {
            (Some(n), Some(p)) => Some(Command::Checkpoint { n, p }),
            _ => None,
        },
        _ => None,
    }
}

fn restore_of(words: &[&str]) -> Option<Command>
    ensures { result ≡ restore_of (map (λ s. s.now) words.now) }
{
    match words {
        [n, p] => match (streams_of(n), count_of(p)) {
            (Some(n), Some(p)) => Some(Command::Restore { n, p }),
            _ => None,
        },
        _ => None,
    }
}

fn follow_of(words: &[&str]) -> Option<Command>
    ensures { result ≡ follow_of (map (λ s. s.now) words.now) }
{
    match words {
        [n] => match streams_of(n) {
            Some(n) => Some(Command::Follow { n }),
            None => None,
        },
        _ => None,
    }
}

fn inspect_of(words: &[&str]) -> Option<Command>
    ensures { result ≡ inspect_of (map (λ s. s.now) words.now) }
{
    match words {
        [n] => match streams_of(n) {
            Some(n) => Some(Command::Inspect { n }),
            None => None,
        },
        _ => None,
    }
}

fn audit_of(words: &[&str]) -> Option<Command>
    ensures { result ≡ audit_of (map (λ s. s.now) words.now) }
{
    match words {
        [n, m] => match (streams_of(n), workers_of(m)) {
            (Some(n), Some(m)) => Some(Command::Audit { n, m }),
            _ => None,
        },
        _ => None,
    }
}

fn tear_of(word: &str) -> Option<Tear>
    ensures { result ≡ tear_of word.now }
{
    if is_word(word, "old") {
        Some(Tear::Old)
    } else if is_word(word, "new") {
        Some(Tear::New)
    } else if is_word(word, "torn") {
        Some(Tear::Torn)
    } else {
        None
    }
}

fn ending_of(streams: u8, how: &str, first: &str, second: &str) -> Option<Ending>
    requires low { 1 ≤ streams }
    requires high { streams ≤ MAX_COUNT }
    ensures { result ≡ ending_of streams how.now first.now second.now }
{
    if is_word(how, "stop") {
        match (number_in(1, MAX_DEVICE_CALL, first), tear_of(second)) {
            (Some(after), Some(tear)) => Some(Ending::Stop { after, tear }),
            _ => None,
        }
    } else if is_word(how, "fail") {
        let last = u32::from(streams) - 1;
        match (
            number_in(0, last, first),
            number_in(1, MAX_DEVICE_CALL, second),
        ) {
            (Some(stream), Some(call)) => Some(Ending::Fail {
                stream: stream as u8,
                call,
            }),
            _ => None,
        }
    } else {
        None
    }
}

fn drill_with(n: u8, m: u8, p: u8, ending: Option<Ending>) -> Option<Command>
    ensures { result ≡ option_map (λ e. Drill n m p e) ending }
{
    match ending {
        None => None,
        Some(ending) => Some(Command::Drill { n, m, p, ending }),
    }
}

fn drill_of(words: &[&str]) -> Option<Command>
    ensures { result ≡ drill_of (map (λ s. s.now) words.now) }
{
    match words {
        [n, m, p, how, first, second] => match (count_of(n), count_of(m), count_of(p)) {
            (Some(n), Some(m), Some(p)) => drill_with(n, m, p, ending_of(n, how, first, second)),
            _ => None,
        },
        _ => None,
    }
}

fn bench_of(words: &[&str]) -> Option<Command>
    ensures { result ≡ bench_of (map (λ s. s.now) words.now) }
{
    match words {
        [a, c, n, m] => {
            let start = number_in(0, MAX_START, a);
            let calls = number_in(0, MAX_CALLS as u32, c);
            match (start, calls, count_of(n), count_of(m)) {
                (Some(start), Some(calls), Some(n), Some(m)) => Some(Command::Bench {
                    start: start as u16,
                    calls,
                    n,
                    m,
                }),
                _ => None,
            }
        }
        _ => None,
    }
}

/// The command with this name, of those that work on streams that were written.
fn command_on_streams(name: &str, rest: &[&str]) -> Option<Command>
    ensures { result ≡ command_on_streams name.now (map (λ s. s.now) rest.now) }
{
    if is_word(name, "checkpoint") {
        checkpoint_of(rest)
    } else if is_word(name, "restore") {
        restore_of(rest)
    } else if is_word(name, "follow") {
        follow_of(rest)
    } else if is_word(name, "inspect") {
        inspect_of(rest)
    } else if is_word(name, "audit") {
        audit_of(rest)
    } else {
        None
    }
}

fn command_of(words: &[&str]) -> Option<Command>
    ensures { result ≡ command_of (map (λ s. s.now) words.now) }
{
    match words {
        [] => None,
        [name, rest @ ..] => {
            if is_word(name, "run") {
                run_of(rest)
            } else if is_word(name, "recover") {
                recover_of(rest)
            } else if is_word(name, "drill") {
                drill_of(rest)
            } else if is_word(name, "bench") {
                bench_of(rest)
            } else {
                command_on_streams(name, rest)
            }
        }
    }
}

/// The command of the words after the program's name.
pub fn read_words(alloc: Global, words: &[String]) -> Result<Command, WordsRefusal>
    ensures ok { IfOk result (λ c. command_of (map string_bytes words.now) ≡ Some c) }
    // Only words that are no command are refused so.
    ensures usage { result ≡ Err Usage → command_of (map string_bytes words.now) ≡ None }
{
    if words.len() > MAX_WORDS || has_flag(words) {
        return Err(WordsRefusal::Usage);
    }
    let matches = split(alloc, words)?;
    let found = matches.get_strs("word").unwrap_or(&[]);
    match command_of(found) {
        Some(command) => Ok(command),
        None => Err(WordsRefusal::Usage),
    }
}
