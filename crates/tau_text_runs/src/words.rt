//! Command lines.
use std::alloc::Global;
use std::process::Abort;
use tau_words::read_words;

// Lines that ask for something, and what.
static ASKED: &str = "\
run 2 1:Ok(Run { n: 2, m: 1, mode: Values, optimistic: false })
run 16 16 data:Ok(Run { n: 16, m: 16, mode: Values, optimistic: false })
run 1 3 command:Ok(Run { n: 1, m: 3, mode: Commands, optimistic: false })
run 2 1 wide:Ok(Run { n: 2, m: 1, mode: WideValues, optimistic: false })
run 32 31 data wide:Ok(Run { n: 32, m: 31, mode: WideValues, optimistic: false })
run 17 32 command wide:Ok(Run { n: 17, m: 32, mode: WideCommands, optimistic: false })
run 2 1 optimistic:Ok(Run { n: 2, m: 1, mode: Values, optimistic: true })
run 2 1 data optimistic:Ok(Run { n: 2, m: 1, mode: Values, optimistic: true })
run 2 1 command optimistic:Ok(Run { n: 2, m: 1, mode: Commands, optimistic: true })
run 32 1 optimistic wide:Ok(Run { n: 32, m: 1, mode: WideValues, optimistic: true })
run 1 1 command optimistic wide:Ok(Run { n: 1, m: 1, mode: WideCommands, optimistic: true })
recover 16 1:Ok(Recover { n: 16, p: 1 })
recover 32 16:Ok(Recover { n: 32, p: 16 })
checkpoint 32 16:Ok(Checkpoint { n: 32, p: 16 })
restore 1 2:Ok(Restore { n: 1, p: 2 })
follow 32:Ok(Follow { n: 32 })
inspect 7:Ok(Inspect { n: 7 })
audit 32 31:Ok(Audit { n: 32, m: 31 })
drill 1 1 1 stop 10 torn:Ok(Drill { n: 1, m: 1, p: 1, ending: Stop { after: 10, tear: Torn } })
drill 16 15 14 stop 1000000 old:Ok(Drill { n: 16, m: 15, p: 14, ending: Stop { after: 1000000, tear: Old } })
drill 1 2 3 stop 1 new:Ok(Drill { n: 1, m: 2, p: 3, ending: Stop { after: 1, tear: New } })
drill 2 2 1 fail 1 9:Ok(Drill { n: 2, m: 2, p: 1, ending: Fail { stream: 1, call: 9 } })
drill 16 1 1 fail 15 1000000:Ok(Drill { n: 16, m: 1, p: 1, ending: Fail { stream: 15, call: 1000000 } })
drill 1 1 1 fail 0 1:Ok(Drill { n: 1, m: 1, p: 1, ending: Fail { stream: 0, call: 1 } })
bench 7 20000 4 8:Ok(Bench { start: 7, calls: 20000, n: 4, m: 8 })
bench 0 0 1 1:Ok(Bench { start: 0, calls: 0, n: 1, m: 1 })
bench 999 200000 16 16:Ok(Bench { start: 999, calls: 200000, n: 16, m: 16 })";

// Lines that ask for nothing.
static REFUSED: &str = "\
:Err(Usage)
nonsense:Err(Usage)
run:Err(Usage)
run 2:Err(Usage)
run 0 1:Err(Usage)
run 1 0:Err(Usage)
run 17 1:Err(Usage)
run 1 17:Err(Usage)
run 01 1:Err(Usage)
run +1 1:Err(Usage)
run -1 1:Err(Usage)
run 1 :Err(Usage)
run  1:Err(Usage)
run 1 1x:Err(Usage)
run 1 99999999999999999999:Err(Usage)
run 1 1 values:Err(Usage)
run 1 1 data data:Err(Usage)
run 33 1 wide:Err(Usage)
run 1 33 wide:Err(Usage)
run 17 17 data:Err(Usage)
run 17 1 optimistic:Err(Usage)
run 1 1 wide data:Err(Usage)
run 1 1 wide optimistic:Err(Usage)
run 1 1 wide wide:Err(Usage)
run 1 1 optimistic command:Err(Usage)
run 1 1 data command wide:Err(Usage)
run 1 1 data optimistic wide wide:Err(Usage)
checkpoint 1:Err(Usage)
checkpoint 33 1:Err(Usage)
restore 1 17:Err(Usage)
restore 1 1 1:Err(Usage)
follow:Err(Usage)
follow 0:Err(Usage)
follow 33:Err(Usage)
follow 1 1:Err(Usage)
inspect 33:Err(Usage)
audit 1:Err(Usage)
audit 1 33:Err(Usage)
audit 33 1:Err(Usage)
Run 1 1:Err(Usage)
recover 1:Err(Usage)
recover 33 1:Err(Usage)
recover 1 17:Err(Usage)
recover 1 1 1:Err(Usage)
drill 1 1 1 stop 0 old:Err(Usage)
drill 1 1 1 stop 1000001 old:Err(Usage)
drill 1 1 1 stop 1 older:Err(Usage)
drill 1 1 1 stop 1:Err(Usage)
drill 1 1 1 stop 1 old old:Err(Usage)
drill 1 1 1 halt 1 old:Err(Usage)
drill 1 1 1 fail 1 1:Err(Usage)
drill 1 1 1 fail 00 1:Err(Usage)
drill 1 1 1 fail 0 0:Err(Usage)
drill 1 1 17 fail 0 1:Err(Usage)
bench 1000 1 1 1:Err(Usage)
bench 0 200001 1 1:Err(Usage)
bench 00 1 1 1:Err(Usage)
bench 1 1 1:Err(Usage)
help:Err(Usage)
-h:Err(Usage)
--help:Err(Usage)
--version:Err(Usage)
--:Err(Usage)
run 2 1 --help:Err(Usage)
run 2 1 data 1 2 3 4 5:Err(Usage)";

// The words of a line, at each space.
fn words_of(rt: &impl Abort, alloc: Global, line: &str) -> Vec<String> {
    let mut words = Vec::new(alloc);
    for word in line.split(' ') {
        let word = String::from_str(alloc, word).expect(rt, "memory");
        words.push(word).expect(rt, "memory");
    }
    words
}

// Whether this is what comes of words.
fn is_told(alloc: Global, words: &[String], told: &str) -> bool {
    let outcome = read_words(alloc, words);
    match format!(in alloc; "{outcome:?}") {
        Ok(text) => text.as_str() == told,
        Err(_) => false,
    }
}

// A line, and what comes of it.
fn is_row(rt: &impl Abort, alloc: Global, row: &str) -> bool {
    let Some((line, told)) = row.split_once(':') else {
        return false;
    };
    let words = words_of(rt, alloc, line);
    is_told(alloc, words.as_slice(), told)
}

#[test]
fn lines_and_what_they_ask_for(rt: HostRuntime) {
    assert!(rt; is_told(rt.alloc(), &[], "Err(Usage)"));
    for rows in [ASKED, REFUSED] {
        for row in rows.split('\n') {
            assert!(rt; is_row(&rt, rt.alloc(), row), "{row}");
        }
    }
}
