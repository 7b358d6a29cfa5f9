//! Scenes: calls of the program one after another over the same disks, and what must come of them, as a text. It is cut before each line
//! `== TITLE`, and each of its parts is a scene: its lines begin with a word and are done in turn.
//!
//! - `row FIELD / FIELD ..` is no line of a scene, which is played with each of its rows, or once if it has none: `%1`, `%2` .. stand for
//!   the fields in its lines (not in parts). `rows FROM PAST FIELDS` is a row for each number from one to before the other: `{k}` stands for the number, `{k*5:8+1}` for
//!   what is worked out from left to right (`:` is what a division leaves), and `{k:3|a|b|c}` for the one of these that has that number, from 0.
//! - `#` is a comment. `$name DIGITS` names bytes in hexadecimal digits, which other lines spell by `$name`, or `$name:FROM:PAST` for a range
//!   of them; `@name LINES` names lines. LINES have ` ; ` between them. `do NAME` does what the lines `part NAME LINE` say. All scenes of a
//!   text know its names.
//! - `new` begins anew: new disks. `disk J IMAGE` is a disk that holds this, `failing J K ..` a new one of which these calls fail, and
//!   `stopping J K` one on which all stops at that call. `change J FROM PAST BYTES` puts bytes in place of those of its image, and `tear old`,
//!   `tear new`, `tear torn` leaves of all disks what a stop would leave. An IMAGE is `bytes BYTES`, or `stream FORMAT STREAMS NUMBER BODY / BODY ..`:
//!   the header of a stream, and its blocks; `each FROM PAST BODY` is a block for each number, `{k}` in it eight bytes.
//! - `> WORDS` begins a call. Its source is what comes then: `| LINES` (`|- LINE` is one with no end), `each FROM PAST LINES` for each number
//!   (`repeat FROM PAST TEXT` with no end), `+ BYTES`, `piece J BYTES` of a stream, `told` (what the call before told). Of its source and
//!   its sink these calls fail: `source K ..`, `sink K ..`. `hold PLACE N PLACE M` holds who reaches the first place for the Nth time until
//!   the other was reached M times; a PLACE is `call-J` or `replay-J` of a worker, `commit-J` or `flush-J` of a stream, or `ack`.
//! - `= CODE` makes the call, which ends with this code. All of what it told has to be looked at: `< LINES` are the next lines, `~ LINES` some
//!   of the next ones, in whichever order. Or it is looked at as a whole: `has LINES` one after another, `count N WORDS`, lines that begin
//!   so, `sum N WORDS`, of the numbers at their ends, `where WORDS ; LINE`, that if one begins so, the other is there too. `keep` keeps it
//!   all, and `kept WORDS` says that it begins with a line that begins so, after which it is what was kept. `= any` makes a call that ends
//!   as it may, and tells what it may. `same` says that the call ended as the one before it, for the same cause. `reached N PLACE` says how
//!   often a place, or all of a kind, were reached at least.
//! - `had J N` and `held J IMAGE` look at a disk: how many calls it has had, and what it holds; `last J N BYTES` at what begins N bytes before
//!   its end. `idle` says that no disk was called.
use crate::disks::{look_at_disks, prepare};
use crate::lines::spelled_lines;
use crate::number::put_template;
use crate::spell::{filled, number_of, numbers_of, put_bytes, put_piece, word_of, words_of};
use crate::told::Told;
use crate::watch::Watch;
use std::alloc::Global;
use std::process::Abort;
use std::str;
use std::sync::Wait;
use std::test::*;
use std::thread::Threads;
use tau_disk::{MemDisk, MemSink, MemSource};
use tau_engine::{DISKS, Status, taurus};

/// A scene of a text, and the row with which it is played.
#[derive(Clone, Copy)]
struct Scene<'t> {
    text: &'t str,
    title: &'t str,
    lines: &'t str,
    row: &'t str,
}

/// What a scene has come to.
#[derive(Drop)]
struct Stage<'t> {
    text: &'t str,
    disks: Vec<MemDisk>,
    words: &'t str,
    // Whether the call that was begun was made.
    is_made: bool,
    source: Vec<u8>,
    source_fails: &'t str,
    sink_fails: &'t str,
    told: Told,
    // How the last call ended, and the one before it.
    status: Option<Status>,
    before: Option<Status>,
    calls: u64,
    watch: Watch,
    // The line of a part that is played.
    part: &'t str,
}

impl<'t> Stage<'t> {
    fn new<R: Abort>(rt: &R, alloc: Global, text: &'t str) -> Stage<'t> {
        Stage {
            text,
            disks: Vec::new(alloc),
            words: "",
            is_made: true,
            source: Vec::new(alloc),
            source_fails: "",
            sink_fails: "",
            told: Told::new(alloc),
            status: None,
            before: None,
            calls: 0,
            watch: Watch::new(rt, alloc),
            part: "",
        }
    }

    // Begins a call of these words.
    fn call<R: Abort>(&mut self, rt: &R, alloc: Global, words: &'t str) -> bool {
        self.words = words;
        self.is_made = false;
        self.source.clear();
        self.source_fails = "";
        self.sink_fails = "";
        self.watch = Watch::new(rt, alloc);
        true
    }

    fn add<R: Abort>(&mut self, rt: &R, text: &str) -> bool {
        self.source
            .extend_from_slice(text.as_bytes())
            .expect(rt, "memory");
        true
    }

    fn add_lines<R: Abort>(&mut self, rt: &R, alloc: Global, lines: &str) -> bool {
        match spelled_lines(rt, alloc, self.text, lines) {
            Some(lines) => self.add(rt, &lines),
            None => false,
        }
    }

    // Adds the template for each of these numbers.
    fn add_each<R: Abort>(
        &mut self,
        rt: &R,
        alloc: Global,
        from: u64,
        past: u64,
        template: &str,
    ) -> bool {
        let is_plain = !template.contains('{');
        for k in from..past {
            let is_put = if is_plain {
                self.add(rt, template)
            } else {
                put_template(rt, alloc, template, k, &mut self.source)
            };
            if !is_put {
                return false;
            }
        }
        from < past
    }

    // Adds lines for each of these numbers, or a text.
    fn repeat<R: Abort>(&mut self, rt: &R, alloc: Global, word: &str, rest: &str) -> Option<bool> {
        let (from, rest) = number_of(rest)?;
        let (past, rest) = number_of(rest)?;
        if word == "repeat" {
            return Some(self.add_each(rt, alloc, from, past, rest));
        }
        let lines = spelled_lines(rt, alloc, self.text, rest)?;
        Some(self.add_each(rt, alloc, from, past, &lines))
    }

    // Makes the call over this source and this sink.
    fn make_over<R: Threads + Wait + Sync + Abort>(
        &mut self,
        rt: &R,
        alloc: Global,
        source: &mut MemSource,
        sink: &mut MemSink,
    ) -> Option<u8> {
        if self.disks.len() != DISKS {
            return None;
        }
        let words = words_of(rt, alloc, self.words);
        let status = taurus(
            rt,
            alloc,
            words.as_slice(),
            source,
            sink,
            &mut self.disks,
            &self.watch,
        );
        self.before = self.status;
        self.status = Some(status);
        Some(status.code())
    }

    // The call has told this, and ended with this code, where that is so.
    fn end<R: Abort>(&mut self, rt: &R, told: &[u8], found: u8, code: &str) -> bool {
        let is_any = code == "any";
        self.told.set(rt, told, is_any);
        self.calls = self.calls.wrapping_add(1);
        self.is_made = true;
        is_any || code.parse::<u8>() == Ok(found)
    }

    // Makes the call, which ends with this code.
    fn make<R: Threads + Wait + Sync + Abort>(
        &mut self,
        rt: &R,
        alloc: Global,
        code: &str,
    ) -> bool {
        let Some(fails) = numbers_of(rt, alloc, self.source_fails) else {
            return false;
        };
        let mut source = MemSource::new(alloc, &self.source, &fails).expect(rt, "memory");
        let Some(fails) = numbers_of(rt, alloc, self.sink_fails) else {
            return false;
        };
        let mut sink = MemSink::new(alloc, &fails).expect(rt, "memory");
        let Some(found) = self.make_over(rt, alloc, &mut source, &mut sink) else {
            return false;
        };
        self.end(rt, sink.bytes(), found, code) && self.watch.is_in_time()
    }

    // What a call is made of.
    fn compose<R: Abort>(
        &mut self,
        rt: &R,
        alloc: Global,
        word: &str,
        rest: &'t str,
    ) -> Option<bool> {
        Some(match word {
            "|" => self.add_lines(rt, alloc, rest),
            "|-" => self.add(rt, rest),
            "+" => put_bytes(rt, alloc, self.text, rest, 0, &mut self.source),
            "piece" => put_piece(rt, alloc, self.text, rest, &mut self.source),
            "each" | "repeat" => return self.repeat(rt, alloc, word, rest),
            "hold" => self.watch.hold(rt, rest),
            "told" => {
                self.source
                    .extend_from_slice(self.told.bytes())
                    .expect(rt, "memory");
                true
            }
            "source" => {
                self.source_fails = rest;
                true
            }
            "sink" => {
                self.sink_fails = rest;
                true
            }
            _ => return None,
        })
    }

    // What is said of a disk or of how the call ended.
    fn look_beside<R: Abort>(&self, rt: &R, alloc: Global, word: &str, rest: &str) -> Option<bool> {
        match word {
            "same" => Some(self.status == self.before),
            "reached" => self.watch.has_reached(rest),
            _ => look_at_disks(rt, alloc, self.text, &self.disks, word, rest),
        }
    }

    // Whether each call that was begun was made, and all that it told was looked at.
    fn is_settled(&self) -> bool {
        self.is_made && self.told.is_seen()
    }

    // Does what a line of no part says.
    fn does_one<R: Threads + Wait + Sync + Abort>(
        &mut self,
        rt: &R,
        alloc: Global,
        word: &str,
        rest: &'t str,
    ) -> bool {
        match word {
            _ if rest.contains('%') => false,
            ">" => self.is_settled() && self.call(rt, alloc, rest),
            "=" => !self.is_made && self.make(rt, alloc, rest),
            _ => match prepare(rt, alloc, self.text, &mut self.disks, word, rest) {
                Some(done) => done && self.is_settled(),
                None => self.compose_or_look(rt, alloc, word, rest),
            },
        }
    }

    // Does what the lines of this part say; there is one at least.
    fn does_part<R: Threads + Wait + Sync + Abort>(
        &mut self,
        rt: &R,
        alloc: Global,
        name: &str,
    ) -> bool {
        self.part = "";
        let text = self.text;
        for line in text.lines() {
            if let Some(said) = line_of_part(line, name) {
                self.part = said;
                let (word, rest) = word_of(said);
                if !self.does_one(rt, alloc, word, rest) {
                    return false;
                }
            }
        }
        !self.part.is_empty()
    }

    // Does what a line says.
    fn does<R: Threads + Wait + Sync + Abort>(
        &mut self,
        rt: &R,
        alloc: Global,
        word: &str,
        rest: &'t str,
    ) -> bool {
        if word == "do" {
            return self.does_part(rt, alloc, rest);
        }
        self.part = "";
        self.does_one(rt, alloc, word, rest)
    }

    fn compose_or_look<R: Abort>(
        &mut self,
        rt: &R,
        alloc: Global,
        word: &str,
        rest: &'t str,
    ) -> bool {
        match self.compose(rt, alloc, word, rest) {
            Some(done) => done,
            None => match self.look_beside(rt, alloc, word, rest) {
                Some(is_so) => is_so,
                None => self.told.look(rt, alloc, self.text, word, rest),
            },
        }
    }
}

// What the line says, if it is one of this part.
fn line_of_part<'t>(line: &'t str, name: &str) -> Option<&'t str> {
    let (word, rest) = word_of(line);
    let (part, said) = word_of(rest);
    if word == "part" && part == name {
        Some(said)
    } else {
        None
    }
}

// Whether a line that begins with this word says nothing to be done.
fn is_silent(word: &str) -> bool {
    word.starts_with(['$', '@']) || matches!(word, "#" | "part" | "row" | "rows")
}

// What is wrong: a line of a scene, the row with which it is played, the line of the part that it plays, and what was told.
fn fault(scene: Scene<'_>, line: &str, stage: &Stage<'_>) -> Fail {
    let told = str::from_utf8(stage.told.bytes()).unwrap_or("no text");
    let (title, row, part) = (scene.title, scene.row, stage.part);
    Fail::new(format_args!("{title}, row {row}\n{line}\n{part}\n{told}"))
}

// Plays a scene that is filled.
fn play_filled<R: Threads + Wait + Sync + Abort>(
    rt: &R,
    alloc: Global,
    scene: Scene<'_>,
) -> Result<(), Fail> {
    let mut stage = Stage::new(rt, alloc, scene.text);
    for line in scene.lines.lines() {
        let (word, rest) = word_of(line);
        if !line.is_empty() && !is_silent(word) && !stage.does(rt, alloc, word, rest) {
            return Err(fault(scene, line, &stage));
        }
    }
    if stage.calls == 0 || !stage.is_settled() {
        return Err(fault(scene, "the end", &stage));
    }
    Ok(())
}

// Plays the scene with this row.
fn play_row<R: Threads + Wait + Sync + Abort>(
    rt: &R,
    alloc: Global,
    scene: Scene<'_>,
    row: &str,
) -> Result<(), Fail> {
    let lines = filled(rt, alloc, scene.lines, row);
    let scene = Scene {
        text: scene.text,
        title: scene.title,
        lines: &lines,
        row,
    };
    play_filled(rt, alloc, scene)
}

// Plays the scene with a row for each of these numbers.
fn play_numbers<R: Threads + Wait + Sync + Abort>(
    rt: &R,
    alloc: Global,
    scene: Scene<'_>,
    spelled: &str,
) -> Result<(), Fail> {
    let (from, rest) = number_of(spelled).ok_or("rows without a number")?;
    let (past, fields) = number_of(rest).ok_or("rows without an end")?;
    if past <= from {
        return Err(Fail::new("rows that are none"));
    }
    for k in from..past {
        let mut row = Vec::new(alloc);
        if !put_template(rt, alloc, fields, k, &mut row) {
            return Err(Fail::new("rows that cannot be filled"));
        }
        play_row(rt, alloc, scene, str::from_utf8(&row).unwrap_or(""))?;
    }
    Ok(())
}

// Plays the scene with each of its rows, or once if it has none.
fn play_scene<R: Threads + Wait + Sync + Abort>(
    rt: &R,
    alloc: Global,
    scene: Scene<'_>,
) -> Result<(), Fail> {
    let mut has_rows = false;
    for line in scene.lines.lines() {
        match word_of(line) {
            ("row", row) => play_row(rt, alloc, scene, row)?,
            ("rows", rest) => play_numbers(rt, alloc, scene, rest)?,
            _ => continue,
        }
        has_rows = true;
    }
    if has_rows {
        return Ok(());
    }
    play_row(rt, alloc, scene, "")
}

/// Plays the scenes of a text. What comes before the first title is a scene too, if it is not empty.
pub(crate) fn play<R: Threads + Wait + Sync + Abort>(
    rt: &R,
    alloc: Global,
    text: &str,
) -> Result<(), Fail> {
    for part in text.split("\n==") {
        let (title, lines) = part.split_once('\n').unwrap_or((part, ""));
        if !title.is_empty() && !title.starts_with(' ') {
            return Err(Fail::new(format_args!("no title: {title}")));
        }
        let scene = Scene {
            text,
            title,
            lines,
            row: "",
        };
        if !part.is_empty() {
            play_scene(rt, alloc, scene)?;
        }
    }
    Ok(())
}
