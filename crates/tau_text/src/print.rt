//! The canonical text. Each function puts lines at the end of a text, and on an error may have put some bytes.
ghost use Rattle.std.specs.Prelude.{ℕ, List, ◌≡◌, ◌++◌, ◌∷◌, [], OnOk, IfOk, codes, map, flat_map};
ghost use Rattle.tau_text.specs.Forms.{names_of};
ghost use Rattle.tau_text.specs.Canonical.{line_text, three, value_word, table_word, built_in_words, call_words, table_words, table_text, step_words, step_text, proc_words, proc_text, call_text, turns_text, turn_word, operand_word, compare_word, register_word, name_at, declarations_text, workload_text};

use crate::load::{Declarations, Turn, Workload};
use crate::words::{
    name_of, name_of_proc, name_of_table, next_compare, next_count, next_operand, next_register,
    next_turns, next_values, next_word,
};
use arrayvec::ArrayVec;
use std::alloc::{AllocError, Global};
use tau_base::{Call, Calls, Listed, Name, NoMemory, Value};
use tau_proc::{ADD, Compare, DEL, FIRST_DECLARED, GET, Operand, PUT, Proc, Step};

#[tactic(auto, using(crate::proofs::Chains::one_word))]
fn put_table(out: &mut Vec<u8>, name: &Name) -> Result<(), AllocError>
    ensures { OnOk result (out.new.items ≡ out.old.items ++ table_text name.now) }
{
    out.extend_from_slice(b"table")?;
    next_word(out, name.as_str().as_bytes())?;
    out.push(b'\n')?;
    Ok(())
}

fn put_tables(out: &mut Vec<u8>, tables: &[Name]) -> Result<(), AllocError>
    ensures { OnOk result (out.new.items ≡ out.old.items ++ flat_map table_text tables.now) }
{
    for name in tables {
        put_table(out, name)?;
    }
    Ok(())
}

#[tactic(auto, using(crate::proofs::Chains::three_words))]
fn put_get(
    out: &mut Vec<u8>,
    tables: &[Name],
    into: u8,
    table: u16,
    row: &Operand,
) -> Result<(), AllocError>
    ensures { OnOk result (out.new.items ≡ out.old.items ++ line_text (codes "get" ∷ register_word into ∷ name_at tables.now table ∷ operand_word row.now ∷ [])) }
{
    out.extend_from_slice(b"get")?;
    next_register(out, into)?;
    next_word(out, name_of(tables, usize::from(table)))?;
    next_operand(out, row)?;
    out.push(b'\n')?;
    Ok(())
}

#[tactic(auto, using(crate::proofs::Chains::three_words))]
fn put_put(
    out: &mut Vec<u8>,
    tables: &[Name],
    table: u16,
    row: &Operand,
    value: &Operand,
) -> Result<(), AllocError>
    ensures { OnOk result (out.new.items ≡ out.old.items ++ line_text (codes "put" ∷ name_at tables.now table ∷ operand_word row.now ∷ operand_word value.now ∷ [])) }
{
    out.extend_from_slice(b"put")?;
    next_word(out, name_of(tables, usize::from(table)))?;
    next_operand(out, row)?;
    next_operand(out, value)?;
    out.push(b'\n')?;
    Ok(())
}

#[tactic(auto, using(crate::proofs::Chains::two_words))]
fn put_del(out: &mut Vec<u8>, tables: &[Name], table: u16, row: &Operand) -> Result<(), AllocError>
    ensures { OnOk result (out.new.items ≡ out.old.items ++ line_text (codes "del" ∷ name_at tables.now table ∷ operand_word row.now ∷ [])) }
{
    out.extend_from_slice(b"del")?;
    next_word(out, name_of(tables, usize::from(table)))?;
    next_operand(out, row)?;
    out.push(b'\n')?;
    Ok(())
}

/// A step that puts a value of two operands into a register.
#[tactic(auto, using(crate::proofs::Chains::three_words))]
fn put_target(
    out: &mut Vec<u8>,
    word: &[u8],
    into: u8,
    left: &Operand,
    right: &Operand,
) -> Result<(), AllocError>
    ensures { OnOk result (out.new.items ≡ out.old.items ++ line_text (three word.now into left.now right.now)) }
{
    out.extend_from_slice(word)?;
    next_register(out, into)?;
    next_operand(out, left)?;
    next_operand(out, right)?;
    out.push(b'\n')?;
    Ok(())
}

/// A step that compares two operands.
#[tactic(auto, using(crate::proofs::Chains::three_words))]
fn put_test(
    out: &mut Vec<u8>,
    word: &[u8],
    left: &Operand,
    how: Compare,
    right: &Operand,
) -> Result<(), AllocError>
    ensures { OnOk result (out.new.items ≡ out.old.items ++ line_text (word.now ∷ operand_word left.now ∷ compare_word how ∷ operand_word right.now ∷ [])) }
{
    out.extend_from_slice(word)?;
    next_operand(out, left)?;
    next_compare(out, how)?;
    next_operand(out, right)?;
    out.push(b'\n')?;
    Ok(())
}

#[tactic(auto, using(crate::proofs::Chains::one_word))]
fn put_reply(out: &mut Vec<u8>, value: &Operand) -> Result<(), AllocError>
    ensures { OnOk result (out.new.items ≡ out.old.items ++ line_text (codes "reply" ∷ operand_word value.now ∷ [])) }
{
    out.extend_from_slice(b"reply")?;
    next_operand(out, value)?;
    out.push(b'\n')?;
    Ok(())
}

fn put_step(out: &mut Vec<u8>, tables: &[Name], step: &Step) -> Result<(), AllocError>
    ensures { OnOk result (out.new.items ≡ out.old.items ++ step_text tables.now step.now) }
{
    match step {
        Step::Get { into, table, row } => put_get(out, tables, *into, *table, row),
        Step::Put { table, row, value } => put_put(out, tables, *table, row, value),
        Step::Del { table, row } => put_del(out, tables, *table, row),
        Step::Add { into, left, right } => put_target(out, b"add", *into, left, right),
        Step::Sub { into, left, right } => put_target(out, b"sub", *into, left, right),
        Step::Mul { into, left, right } => put_target(out, b"mul", *into, left, right),
        Step::Min { into, left, right } => put_target(out, b"min", *into, left, right),
        Step::Max { into, left, right } => put_target(out, b"max", *into, left, right),
        Step::Cat { into, left, right } => put_target(out, b"cat", *into, left, right),
        Step::Need { left, how, right } => put_test(out, b"need", left, *how, right),
        Step::When { left, how, right } => put_test(out, b"when", left, *how, right),
        Step::Done => out.extend_from_slice(b"done\n"),
        Step::Reply(value) => put_reply(out, value),
    }
}

fn put_steps(out: &mut Vec<u8>, tables: &[Name], steps: &[Step]) -> Result<(), AllocError>
    ensures { OnOk result (out.new.items ≡ out.old.items ++ flat_map (step_text tables.now) steps.now) }
{
    for step in steps {
        put_step(out, tables, step)?;
    }
    Ok(())
}

/// The line that begins a procedure.
#[tactic(auto, using(crate::proofs::Chains::two_words))]
fn put_head(out: &mut Vec<u8>, proc: &Proc) -> Result<(), AllocError>
    ensures { OnOk result (out.new.items ≡ out.old.items ++ line_text (proc_words proc.now)) }
{
    out.extend_from_slice(b"proc")?;
    next_word(out, proc.name.as_str().as_bytes())?;
    next_count(out, proc.args)?;
    out.push(b'\n')?;
    Ok(())
}

#[tactic(auto, using(crate::proofs::Chains::three_parts))]
fn put_proc(out: &mut Vec<u8>, tables: &[Name], proc: &Proc) -> Result<(), AllocError>
    ensures { OnOk result (out.new.items ≡ out.old.items ++ proc_text tables.now proc.now) }
{
    put_head(out, proc)?;
    put_steps(out, tables, proc.steps.as_slice())?;
    out.extend_from_slice(b"end\n")
}

fn put_procs(out: &mut Vec<u8>, tables: &[Name], procs: &[Proc]) -> Result<(), AllocError>
    ensures { OnOk result (out.new.items ≡ out.old.items ++ flat_map (proc_text tables.now) procs.now) }
{
    for proc in procs {
        put_proc(out, tables, proc)?;
    }
    Ok(())
}

#[tactic(auto, unfolding(crate::specs::Canonical::declarations_text), using(crate::proofs::Chains::two_parts))]
fn put_declarations(out: &mut Vec<u8>, d: &Declarations) -> Result<(), AllocError>
    ensures { OnOk result (out.new.items ≡ out.old.items ++ declarations_text d.now) }
{
    put_tables(out, d.tables.as_slice())?;
    put_procs(out, d.tables.as_slice(), d.procs.list())
}

/// A call of a built-in whose first argument is a table.
#[tactic(auto, using(crate::proofs::Chains::first_and_values))]
fn put_keyed(
    out: &mut Vec<u8>,
    tables: &[Name],
    word: &[u8],
    table: &Value,
    values: &[Value],
) -> Result<(), AllocError>
    ensures { OnOk result (out.new.items ≡ out.old.items ++ line_text (word.now ∷ table_word tables.now table.now ∷ map value_word values.now)) }
{
    out.extend_from_slice(word)?;
    next_word(out, name_of_table(tables, table))?;
    next_values(out, values)?;
    out.push(b'\n')?;
    Ok(())
}

/// A call of a built-in, by its word.
#[tactic(auto, using(crate::proofs::Chains::no_values))]
fn put_built_in(
    out: &mut Vec<u8>,
    tables: &[Name],
    word: &[u8],
    args: &[Value],
) -> Result<(), AllocError>
    ensures { OnOk result (out.new.items ≡ out.old.items ++ line_text (built_in_words tables.now word.now args.now)) }
{
    match args {
        [] => {
            out.extend_from_slice(word)?;
            out.push(b'\n')?;
            Ok(())
        }
        [table, values @ ..] => put_keyed(out, tables, word, table, values),
    }
}

/// A call of a declared procedure.
#[tactic(auto, using(crate::proofs::Chains::first_and_values))]
fn put_declared(
    out: &mut Vec<u8>,
    procs: &[Proc],
    place: usize,
    args: &[Value],
) -> Result<(), AllocError>
    ensures { OnOk result (out.new.items ≡ out.old.items ++ line_text (codes "call" ∷ name_at (names_of procs.now) place ∷ map value_word args.now)) }
{
    out.extend_from_slice(b"call")?;
    next_word(out, name_of_proc(procs, place))?;
    next_values(out, args)?;
    out.push(b'\n')?;
    Ok(())
}

fn put_call(out: &mut Vec<u8>, d: &Declarations, call: &Call) -> Result<(), AllocError>
    ensures { OnOk result (out.new.items ≡ out.old.items ++ call_text d.now call.now) }
{
    let tables = d.tables.as_slice();
    let args = call.args.as_slice();
    match call.proc {
        PUT => put_built_in(out, tables, b"put", args),
        ADD => put_built_in(out, tables, b"add", args),
        GET => put_built_in(out, tables, b"get", args),
        DEL => put_built_in(out, tables, b"del", args),
        declared => {
            let place = usize::from(declared - FIRST_DECLARED);
            put_declared(out, d.procs.list(), place, args)
        }
    }
}

fn put_calls(out: &mut Vec<u8>, d: &Declarations, calls: &Calls) -> Result<(), AllocError>
    ensures { OnOk result (out.new.items ≡ out.old.items ++ flat_map (call_text d.now) calls.now) }
{
    let mut call = Call {
        proc: 0,
        args: ArrayVec::new(),
    };
    for i in 0..calls.len() {
        calls.put_into(i, &mut call);
        put_call(out, d, &call)?;
    }
    Ok(())
}

#[tactic(auto, using(crate::proofs::Chains::turns_line))]
fn put_turns(out: &mut Vec<u8>, turns: &Option<Listed<Turn>>) -> Result<(), AllocError>
    ensures { OnOk result (out.new.items ≡ out.old.items ++ turns_text turns.now) }
{
    if let Some(turns) = turns {
        out.extend_from_slice(b"turns")?;
        next_turns(out, turns.as_slice())?;
        out.push(b'\n')?;
    }
    Ok(())
}

#[tactic(auto, unfolding(crate::specs::Canonical::workload_text), using(crate::proofs::Chains::three_parts))]
fn put_workload(out: &mut Vec<u8>, load: &Workload) -> Result<(), AllocError>
    ensures { OnOk result (out.new.items ≡ out.old.items ++ workload_text load.now) }
{
    put_declarations(out, &load.declarations)?;
    put_calls(out, &load.declarations, &load.calls)?;
    put_turns(out, &load.turns)
}

/// The canonical text of a workload. A table or a procedure that is not there has a name of no bytes.
pub fn print_workload(alloc: Global, load: &Workload) -> Result<Vec<u8>, NoMemory>
    ensures { IfOk result (λ text. text.items ≡ workload_text load.now) }
{
    let mut out = Vec::new(alloc);
    put_workload(&mut out, load)?;
    Ok(out)
}

/// The canonical text of declarations. A table that is not there has a name of no bytes.
pub fn print_declarations(alloc: Global, d: &Declarations) -> Result<Vec<u8>, NoMemory>
    ensures { IfOk result (λ text. text.items ≡ declarations_text d.now) }
{
    let mut out = Vec::new(alloc);
    put_declarations(&mut out, d)?;
    Ok(out)
}
