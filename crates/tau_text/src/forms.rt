//! What the lines of a text say, each form by its words.
ghost use Rattle.std.specs.Prelude.{◌≡◌, ◌≤◌, ◌<◌, ◌+◌, ◌^◌, ◌&&◌, Ok, length, map, IfOk, IsTrue};
ghost use Rattle.std.specs.List.{list_all};
ghost use Rattle.tau_proc.specs.Limits.{is_register, operand_fits, target_fits, step_fits};
ghost use Rattle.tau_text.specs.Lines.{words};
ghost use Rattle.tau_text.specs.Given.{Gives};
ghost use Rattle.tau_text.specs.Forms.{table_line, proc_line, grown, line_size, get_words, put_words, del_words, sum_words, test_words, reply_words, step_line, step_added, depth_at, step_head, head, turns_line};

use crate::fault::{LineRefusal, TextCause};
use crate::heads::{Head, StepHead};
use crate::lines::{first_word, next_word, no_more};
use crate::load::Turn;
use crate::spelled::{
    compare, count, is_same, known_table, new_proc, new_table, operand, register, turn,
};
use tau_base::{
    Listed, MAX_ARGS, MAX_CATALOGUE, MAX_PROCS, MAX_STEPS, MAX_TABLES, MAX_TURNS, Name,
};
use tau_proc::{Compare, Operand, Proc, Step};

/// The name that a table's line declares.
#[tactic(auto, unfolding(crate::specs::Forms::table_line))]
pub fn table_line(tables: &[Name], rest: &[u8]) -> Result<Name, LineRefusal>
    ensures given { Gives (λ n. n) result (table_line tables.now (words rest.now)) }
    ensures room { IfOk result (λ n. length tables.now < MAX_TABLES) }
{
    let (word, rest) = first_word(rest)?;
    let name = new_table(tables, word)?;
    no_more(rest)?;
    if tables.len() >= MAX_TABLES {
        return Err(LineRefusal::Cause(TextCause::TooMany));
    }
    Ok(name)
}

#[tactic(auto, unfolding(crate::specs::Forms::get_words))]
fn get_words(tables: &[Name], args: u8, rest: &[u8]) -> Result<(u8, u16, Operand), LineRefusal>
    requires few { length tables.now ≤ MAX_TABLES }
    requires args { args ≤ MAX_ARGS }
    ensures given { Gives (λ x. x) result (get_words tables.now args (words rest.now)) }
    ensures fits { IfOk result (λ x. IsTrue (is_register x.0 && operand_fits args x.2)) }
{
    let (word, rest) = first_word(rest)?;
    let into = register(word)?;
    let (word, rest) = first_word(rest)?;
    let table = known_table(tables, word)?;
    let (word, rest) = first_word(rest)?;
    let row = operand(args, word)?;
    no_more(rest)?;
    Ok((into, table, row))
}

#[tactic(auto, unfolding(crate::specs::Forms::put_words))]
fn put_words(tables: &[Name], args: u8, rest: &[u8]) -> Result<(u16, Operand, Operand), LineRefusal>
    requires few { length tables.now ≤ MAX_TABLES }
    requires args { args ≤ MAX_ARGS }
    ensures given { Gives (λ x. x) result (put_words tables.now args (words rest.now)) }
    ensures fits { IfOk result (λ x. IsTrue (operand_fits args x.1 && operand_fits args x.2)) }
{
    let (word, rest) = first_word(rest)?;
    let table = known_table(tables, word)?;
    let (word, rest) = first_word(rest)?;
    let row = operand(args, word)?;
    let (word, rest) = first_word(rest)?;
    let value = operand(args, word)?;
    no_more(rest)?;
    Ok((table, row, value))
}

#[tactic(auto, unfolding(crate::specs::Forms::del_words))]
fn del_words(tables: &[Name], args: u8, rest: &[u8]) -> Result<(u16, Operand), LineRefusal>
    requires few { length tables.now ≤ MAX_TABLES }
    requires args { args ≤ MAX_ARGS }
    ensures given { Gives (λ x. x) result (del_words tables.now args (words rest.now)) }
    ensures fits { IfOk result (λ x. IsTrue (operand_fits args x.1)) }
{
    let (word, rest) = first_word(rest)?;
    let table = known_table(tables, word)?;
    let (word, rest) = first_word(rest)?;
    let row = operand(args, word)?;
    no_more(rest)?;
    Ok((table, row))
}

#[tactic(auto, unfolding(crate::specs::Forms::sum_words))]
fn sum_words(args: u8, rest: &[u8]) -> Result<(u8, Operand, Operand), LineRefusal>
    requires { args ≤ MAX_ARGS }
    ensures given { Gives (λ x. x) result (sum_words args (words rest.now)) }
    ensures fits { IfOk result (λ x. IsTrue (target_fits args x.0 x.1 x.2)) }
{
    let (word, rest) = first_word(rest)?;
    let into = register(word)?;
    let (word, rest) = first_word(rest)?;
    let left = operand(args, word)?;
    let (word, rest) = first_word(rest)?;
    let right = operand(args, word)?;
    no_more(rest)?;
    Ok((into, left, right))
}

#[tactic(auto, unfolding(crate::specs::Forms::test_words))]
fn test_words(args: u8, rest: &[u8]) -> Result<(Operand, Compare, Operand), LineRefusal>
    requires { args ≤ MAX_ARGS }
    ensures given { Gives (λ x. x) result (test_words args (words rest.now)) }
    ensures fits { IfOk result (λ x. IsTrue (operand_fits args x.0 && operand_fits args x.2)) }
{
    let (word, rest) = first_word(rest)?;
    let left = operand(args, word)?;
    let (word, rest) = first_word(rest)?;
    let how = compare(word)?;
    let (word, rest) = first_word(rest)?;
    let right = operand(args, word)?;
    no_more(rest)?;
    Ok((left, how, right))
}

#[tactic(auto, unfolding(crate::specs::Forms::reply_words))]
fn reply_words(args: u8, rest: &[u8]) -> Result<Operand, LineRefusal>
    requires { args ≤ MAX_ARGS }
    ensures given { Gives (λ x. x) result (reply_words args (words rest.now)) }
    ensures fits { IfOk result (λ x. IsTrue (operand_fits args x)) }
{
    let (word, rest) = first_word(rest)?;
    let value = operand(args, word)?;
    no_more(rest)?;
    Ok(value)
}

/// A step, by its first word.
#[tactic(auto, unfolding(crate::specs::Forms::step_line))]
pub fn step_line(
    tables: &[Name],
    args: u8,
    head: StepHead,
    rest: &[u8],
) -> Result<Step, LineRefusal>
    requires few { length tables.now ≤ MAX_TABLES }
    requires args { args ≤ MAX_ARGS }
    ensures given { Gives (λ x. x) result (step_line tables.now args head (words rest.now)) }
    ensures fits { IfOk result (λ x. IsTrue (step_fits args x)) }
{
    match head {
        StepHead::Get => {
            let (into, table, row) = get_words(tables, args, rest)?;
            Ok(Step::Get { into, table, row })
        }
        StepHead::Put => {
            let (table, row, value) = put_words(tables, args, rest)?;
            Ok(Step::Put { table, row, value })
        }
        StepHead::Del => {
            let (table, row) = del_words(tables, args, rest)?;
            Ok(Step::Del { table, row })
        }
        StepHead::Add => {
            let (into, left, right) = sum_words(args, rest)?;
            Ok(Step::Add { into, left, right })
        }
        StepHead::Sub => {
            let (into, left, right) = sum_words(args, rest)?;
            Ok(Step::Sub { into, left, right })
        }
        StepHead::Mul => {
            let (into, left, right) = sum_words(args, rest)?;
            Ok(Step::Mul { into, left, right })
        }
        StepHead::Min => {
            let (into, left, right) = sum_words(args, rest)?;
            Ok(Step::Min { into, left, right })
        }
        StepHead::Max => {
            let (into, left, right) = sum_words(args, rest)?;
            Ok(Step::Max { into, left, right })
        }
        StepHead::Cat => {
            let (into, left, right) = sum_words(args, rest)?;
            Ok(Step::Cat { into, left, right })
        }
        StepHead::Need => {
            let (left, how, right) = test_words(args, rest)?;
            Ok(Step::Need { left, how, right })
        }
        StepHead::When => {
            let (left, how, right) = test_words(args, rest)?;
            Ok(Step::When { left, how, right })
        }
        StepHead::Done => {
            no_more(rest)?;
            Ok(Step::Done)
        }
        StepHead::Reply => {
            let value = reply_words(args, rest)?;
            Ok(Step::Reply(value))
        }
        StepHead::End => Err(LineRefusal::Cause(TextCause::UnknownWord)),
    }
}

/// How many `when` are open after a line.
#[tactic(auto, unfolding(crate::specs::Forms::depth_at))]
pub fn depth_at(depth: u32, head: StepHead) -> Result<u32, LineRefusal>
    requires { depth < 2 ^ 16 }
    ensures given { Gives (λ n. n) result (depth_at depth head) }
    ensures small { IfOk result (λ n. n ≤ depth + 1) }
{
    match head {
        StepHead::When => Ok(depth + 1),
        StepHead::Done => {
            if depth == 0 {
                Err(LineRefusal::Cause(TextCause::BadStep))
            } else {
                Ok(depth - 1)
            }
        }
        StepHead::End => {
            if depth == 0 {
                Ok(0)
            } else {
                Err(LineRefusal::Cause(TextCause::NoEnd))
            }
        }
        _ => Ok(depth),
    }
}

/// The first word of a line outside the procedures.
#[tactic(auto, unfolding(crate::specs::Forms::head))]
pub fn head(word: &[u8]) -> Result<Head, LineRefusal>
    ensures { Gives (λ x. x) result (head word.now) }
{
    if is_same(word, b"table") {
        Ok(Head::Table)
    } else if is_same(word, b"proc") {
        Ok(Head::Proc)
    } else if is_same(word, b"put") {
        Ok(Head::Put)
    } else if is_same(word, b"add") {
        Ok(Head::Add)
    } else if is_same(word, b"get") {
        Ok(Head::Get)
    } else if is_same(word, b"del") {
        Ok(Head::Del)
    } else if is_same(word, b"call") {
        Ok(Head::Call)
    } else if is_same(word, b"turns") {
        Ok(Head::Turns)
    } else {
        Err(LineRefusal::Cause(TextCause::UnknownWord))
    }
}

/// The first word of a line inside a procedure.
#[tactic(auto, unfolding(crate::specs::Forms::step_head))]
pub fn step_head(word: &[u8]) -> Result<StepHead, LineRefusal>
    ensures { Gives (λ x. x) result (step_head word.now) }
{
    if is_same(word, b"get") {
        Ok(StepHead::Get)
    } else if is_same(word, b"put") {
        Ok(StepHead::Put)
    } else if is_same(word, b"del") {
        Ok(StepHead::Del)
    } else if is_same(word, b"add") {
        Ok(StepHead::Add)
    } else if is_same(word, b"sub") {
        Ok(StepHead::Sub)
    } else if is_same(word, b"mul") {
        Ok(StepHead::Mul)
    } else if is_same(word, b"min") {
        Ok(StepHead::Min)
    } else if is_same(word, b"max") {
        Ok(StepHead::Max)
    } else if is_same(word, b"cat") {
        Ok(StepHead::Cat)
    } else if is_same(word, b"need") {
        Ok(StepHead::Need)
    } else if is_same(word, b"when") {
        Ok(StepHead::When)
    } else if is_same(word, b"done") {
        Ok(StepHead::Done)
    } else if is_same(word, b"reply") {
        Ok(StepHead::Reply)
    } else if is_same(word, b"end") {
        Ok(StepHead::End)
    } else {
        Err(LineRefusal::Cause(TextCause::UnknownWord))
    }
}

/// The size with one more line of the declarations.
pub fn grown(size: u32, line: &[u8]) -> Result<u32, LineRefusal>
    requires { size ≤ MAX_CATALOGUE }
    ensures given { Gives (λ n. n) result (grown size (words line.now)) }
    ensures small { IfOk result (λ n. n ≤ MAX_CATALOGUE) }
{
    let mut total = size as usize;
    let mut rest = line;
    while let Some((word, after)) = next_word(rest) {
        total += word.len() + 1;
        if total > MAX_CATALOGUE {
            return Err(LineRefusal::Cause(TextCause::TooMany));
        }
        rest = after;
    }
    Ok(total as u32)
}

/// The name and the count of arguments of a procedure's line.
#[tactic(auto, unfolding(crate::specs::Forms::proc_line))]
pub fn proc_line(procs: &[Proc], rest: &[u8]) -> Result<(Name, u8), LineRefusal>
    ensures given { Gives (λ x. x) result (proc_line procs.now (words rest.now)) }
    ensures room { IfOk result (λ x. length procs.now < MAX_PROCS) }
    ensures few { IfOk result (λ x. x.1 ≤ MAX_ARGS) }
{
    let (word, rest) = first_word(rest)?;
    let name = new_proc(procs, word)?;
    let (word, rest) = first_word(rest)?;
    let args = count(word)?;
    no_more(rest)?;
    if procs.len() >= MAX_PROCS {
        return Err(LineRefusal::Cause(TextCause::TooMany));
    }
    Ok((name, args))
}

// A function that holds a `Step` and calls none that names `Operand` gets no proof (a bug of the kit).
fn names_operand(operand: &Operand) {
    let _ = operand;
}

/// The procedure with one more step.
#[tactic(auto, unfolding(crate::specs::Forms::step_added))]
pub fn step_added(
    tables: &[Name],
    proc: Proc,
    head: StepHead,
    rest: &[u8],
) -> Result<Proc, LineRefusal>
    requires few { length tables.now ≤ MAX_TABLES }
    requires args { proc.args ≤ MAX_ARGS }
    requires names { IsTrue (list_all (step_fits proc.args) proc.steps) }
    ensures given { Gives (λ x. x) result (step_added tables.now proc head (words rest.now)) }
    ensures more { IfOk result (λ p. (length p.steps ≡ length proc.steps + 1) × (length proc.steps < MAX_STEPS) × (p.args ≡ proc.args)) }
    ensures names { IfOk result (λ p. IsTrue (list_all (step_fits p.args) p.steps)) }
{
    let mut proc = proc;
    names_operand(&Operand::Absent);
    let step = step_line(tables, proc.args, head, rest)?;
    if proc.steps.len() >= MAX_STEPS {
        return Err(LineRefusal::Cause(TextCause::TooMany));
    }
    proc.steps.push(step)?;
    Ok(proc)
}

/// The turn words of a line after those before.
#[tactic(auto, unfolding(crate::specs::Forms::turns_line))]
pub fn turns_line(before: Listed<Turn>, rest: &[u8]) -> Result<Listed<Turn>, LineRefusal>
    requires { length before ≤ MAX_TURNS }
    ensures given { Gives (λ t. t) result (turns_line before (words rest.now)) }
    ensures few { IfOk result (λ t. length t ≤ MAX_TURNS) }
{
    let mut turns = before;
    let mut rest = rest;
    while let Some((word, after)) = next_word(rest) {
        let t = turn(word)?;
        if turns.len() >= MAX_TURNS {
            return Err(LineRefusal::Cause(TextCause::TooMany));
        }
        turns.push(t)?;
        rest = after;
    }
    Ok(turns)
}
