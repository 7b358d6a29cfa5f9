//! What is read of texts, and what is printed.
use crate::play::{is_printed, outcome, play};
use crate::rows::{
    ALONE, CALLS, DECLARATIONS, FORMS, LARGE, LINES, LONG, MANY, MANY_AND_FEW, NUMBERED, SPELLINGS,
    STEPS, STEPS_AND_TEXTS,
};
use std::alloc::Global;
use tau_proc::Proc;
use tau_text::{Workload, parse_workload, print_declarations};

#[test]
fn texts(rt: HostRuntime) {
    for rows in [LINES, DECLARATIONS, FORMS, ALONE] {
        play(&rt, rt.alloc(), ("", ""), rows);
    }
}

#[test]
fn texts_up_to_their_limits(rt: HostRuntime) {
    for rows in [STEPS_AND_TEXTS, NUMBERED, LARGE] {
        play(&rt, rt.alloc(), ("", ""), rows);
    }
}

#[test]
fn calls_and_turns_up_to_their_limits(rt: HostRuntime) {
    play(&rt, rt.alloc(), ("", ""), MANY);
}

#[test]
fn bytes_up_to_their_limit(rt: HostRuntime) {
    play(&rt, rt.alloc(), ("", ""), LONG);
}

#[test]
fn steps_by_their_words(rt: HostRuntime) {
    play(&rt, rt.alloc(), ("table a¶proc p 2¶", "¶end¶"), STEPS);
}

#[test]
fn calls_and_turns_by_their_words(rt: HostRuntime) {
    play(
        &rt,
        rt.alloc(),
        ("table a¶proc p 2¶end¶proc q 0¶end¶", "¶"),
        CALLS,
    );
}

static DECLARED: &str = "table ab¶table a¶proc pq 1¶end¶proc p 2¶end¶proc q 0¶end¶proc e 8¶end¶";

// Lines of calls, each with much text after it, and as the last of a text.
#[test]
fn spellings(rt: HostRuntime) {
    let more = "¶# much longer than a number is¶";
    for (back, rows) in [(more, SPELLINGS), ("", SPELLINGS), ("", MANY_AND_FEW)] {
        play(&rt, rt.alloc(), (DECLARED, back), rows);
    }
}

// Bytes, and the first line of them that is no text.
static NO_TEXTS: [(u32, &[u8]); 6] = [
    (1, b"\xff"),
    (1, b"# \xc3\n"),
    (2, b"table a\nput a 1 \"\xed\xa0\x80\""),
    (1, b"foo \x80\nfoo"),
    (3, b"proc p 0\n\n\xf8\nfoo"),
    (4, b"table a\nadd a 1 2\nadd a 3 4\n# this is \xff no text"),
];

#[test]
fn bytes_that_are_no_text(rt: HostRuntime) {
    for (line, text) in &NO_TEXTS {
        assert!(rt; outcome(rt.alloc(), text) == (*line, 1), "line {line}");
    }
}

static TRANSFERS: &str =
    "table acct\nproc move 3\nget r0 acct $1\nneed r0 >= $3\nsub r0 r0 $3\nget r1 acct $2\nadd r1 r1 $3\nput acct $1 r0\nput acct $2 r1\nreply r0\nend\nput acct 1 100\nput acct 2 50\ncall move 1 2 30\ncall move 1 2 80\nget acct 2\nturns\n";

// Whether this is the procedure `move`, of three arguments and eight steps.
fn is_move(procs: &[Proc]) -> bool {
    match procs {
        [found] => found.name.as_str() == "move" && found.args == 3 && found.steps.len() == 8,
        _ => false,
    }
}

// Whether there are so many tables and calls, and turns.
fn has_counts(load: &Workload) -> bool {
    load.declarations.tables.len() == 1 && load.calls.len() == 5 && load.turns.is_some()
}

// Whether the third call is one of the declared procedure with three arguments.
fn calls_move(load: &Workload) -> bool {
    if load.calls.len() <= 2 {
        return false;
    }
    let call = load.calls.call_at(2);
    call.proc == 4 && call.args.len() == 3
}

// Whether the declarations are printed as the first 136 bytes of the text.
fn declares(alloc: Global, load: &Workload) -> bool {
    match print_declarations(alloc, &load.declarations) {
        Ok(found) => { found.len() == 136 && TRANSFERS.as_bytes().starts_with(found.as_slice()) }
        Err(_) => false,
    }
}

#[test]
fn transfers_are_read_and_printed(rt: HostRuntime) {
    let load = parse_workload(rt.alloc(), TRANSFERS.as_bytes()).expect(&rt, "a workload");
    assert!(rt; has_counts(&load) && is_move(load.declarations.procs.list()) && calls_move(&load));
    assert!(rt; is_printed(rt.alloc(), &load, TRANSFERS) && declares(rt.alloc(), &load));
}
