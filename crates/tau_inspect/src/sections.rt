//! Reading a report, section after section.
ghost use Rattle.std.specs.Prelude.{ℕ, ◌≡◌, ◌≤◌, ◌-◌, ◌+◌, ◌==◌, ◌++◌, ◌∷◌, [], List, false, All, Option, IfOk, IfSome, IsTrue, MatchOption, length, take, count_by, ◌↔◌};
ghost use Rattle.std.specs.declared.cmp.Ordering.TheVariants.{Less};
ghost use Rattle.tau_base.specs.Database.{key_cmp};
ghost use Rattle.tau_base.specs.declared.value.Key.{Key};
ghost use Rattle.tau_base.specs.declared.value.Value.{Value};
ghost use Rattle.tau_inspect.specs.Bodies.{IsEnd};
ghost use Rattle.tau_inspect.specs.Parts.{lacks};
ghost use Rattle.tau_inspect.specs.ReportFor.{IsCall};
ghost use Rattle.tau_report.specs.Lines.{ack_line, order_line, row_line, end_line};
ghost use Rattle.tau_inspect.specs.RunText.{AreNames};
ghost use Rattle.tau_inspect.specs.ReportRead.{IsReadOf, NamesLine};
ghost use Rattle.tau_inspect.specs.Sections.{IsLine, AreAcks, AreFates, AreOrders, AreRows, IsAbove, Stops, StopsFates, StopsEnd, AcksFit, RowsFit};

use crate::by_number::{flag, flags, is_flagged};
use crate::lines::{next_ack, next_fate, next_line, next_order};
use crate::refusal::ReportRefusal;
use crate::told::{AckLine, read_end, read_row};
use std::alloc::Global;
use std::cmp::Ordering;
use tau_base::{Key, Listed, Lv, MAX_STREAMS, MAX_TABLES, Name, NoMemory, Value};
use tau_model::Tables;
use tau_report::{Acks, Fate, KeptFate, RunReport};
use tau_text::Declarations;

/// The calls of the history with which a text starts, put into the list. Returns what comes after them.
fn read_orders<'a>(
    text: &'a [u8],
    calls: u32,
    order: &mut Listed<u64>,
) -> Result<&'a [u8], NoMemory>
    requires { order.old ≡ [] }
    ensures told { IfOk result (λ rest. AreOrders calls text.now order.new rest.now) }
    ensures stops { IfOk result (λ rest. Stops order_line (All (IsCall calls)) 111 order.new rest.now) }
{
    let mut rest = text;
    'lines: loop {
        match next_order(rest, calls)? {
            None => return Ok(rest),
            Some((number, following)) => {
                order.push(number)?;
                rest = following;
            }
        }
    }
}

/// The acknowledgements with which a text starts, up to the second of a call, put into the list. Returns what comes after
/// them.
fn read_acks<'a>(
    alloc: Global,
    text: &'a [u8],
    calls: u32,
    streams: usize,
    acks: &mut Acks,
) -> Result<&'a [u8], NoMemory>
    requires low { 1 ≤ streams }
    requires high { streams ≤ MAX_STREAMS }
    requires none { acks.old ≡ [] }
    ensures told { IfOk result (λ rest. AreAcks calls streams text.now acks.new rest.now) }
    ensures stops { IfOk result (λ rest. Stops ack_line (AcksFit calls streams) 97 acks.new rest.now) }
{
    let mut seen = flags(alloc, calls as usize, &[])?;
    // A place that serves for all lines, since a vector is large.
    let mut ack = AckLine {
        number: 0,
        lv: Lv::zero(streams),
    };
    let mut rest = text;
    'lines: loop {
        match next_ack(rest, calls, &mut ack)? {
            None => return Ok(rest),
            Some(following) => {
                if is_flagged(&seen, ack.number) {
                    return Ok(rest);
                }
                flag(&mut seen, ack.number);
                acks.push(ack.number, &ack.lv)?;
                rest = following;
            }
        }
    }
}

/// What became of the calls, one line for each from the first on, put into the list as far as the text has such lines.
/// Returns what comes after them.
fn read_fates<'a>(
    alloc: Global,
    text: &'a [u8],
    calls: u32,
    fates: &mut Listed<KeptFate>,
) -> Result<&'a [u8], NoMemory>
    requires { fates.old ≡ [] }
    ensures told { IfOk result (λ rest. AreFates text.now fates.new rest.now) }
    ensures few { IfOk result (λ _. length fates.new ≤ calls) }
    ensures stops { IfOk result (λ rest. StopsFates calls fates.new rest.now) }
{
    let mut rest = text;
    for before in 0..calls {
        match next_fate(alloc, rest, u64::from(before) + 1)? {
            None => return Ok(rest),
            Some((fate, following)) => {
                fates.push(fate)?;
                rest = following;
            }
        }
    }
    Ok(rest)
}

/// Whether a key is below another.
fn is_less(key: Key, other: Key) -> bool
    ensures { IsTrue result ↔ (key_cmp key other ≡ Less) }
{
    match key.cmp(&other) {
        Ordering::Less => true,
        _ => false,
    }
}

/// Whether a key is above that of the last row.
fn is_above(rows: &[(Key, Value)], key: Key) -> bool
    ensures above { IsTrue result → IsAbove rows.now key }
    ensures below { result ≡ false → (front : List (Key × Value)) × (last : Key × Value) × (rows.now ≡ front ++ last ∷ []) × (key_cmp last.0 key ≡ Less → ⊥) }
{
    match rows {
        [] => true,
        [.., last] => is_less(last.0, key),
    }
}

/// The rows with which a text starts, as long as their keys ascend, put into the list. Returns what comes after them.
fn read_rows<'a>(
    text: &'a [u8],
    tables: &[Name],
    rows: &mut Vec<(Key, Value)>,
) -> Result<&'a [u8], NoMemory>
    requires few { length tables.now ≤ MAX_TABLES }
    requires names { AreNames tables.now }
    requires none { rows.old.items ≡ [] }
    ensures told { IfOk result (λ rest. AreRows tables.now text.now rows.new.items rest.now) }
    ensures stops { IfOk result (λ rest. Stops (row_line tables.now) (RowsFit (length tables.now)) 114 rows.new.items rest.now) }
{
    let mut rest = text;
    'lines: loop {
        match next_line(rest) {
            None => return Ok(rest),
            Some((line, following)) => match read_row(line, tables)? {
                None => return Ok(rest),
                Some(row) => {
                    if !is_above(rows.as_slice(), row.0) {
                        return Ok(rest);
                    }
                    rows.push(row)?;
                    rest = following;
                }
            },
        }
    }
}

/// What comes after the end with which a text starts; none if it starts with none.
fn after_end<'a>(text: &'a [u8], streams: u8) -> Result<Option<&'a [u8]>, NoMemory>
    ensures { IfOk result (λ o. MatchOption o (StopsEnd streams text.now) (λ rest. (failed : Option ℕ) × IsEnd streams failed × (text.now ≡ end_line failed ++ rest.now))) }
{
    match next_line(text) {
        None => Ok(None),
        Some((line, rest)) => match read_end(line, streams)? {
            None => Ok(None),
            Some(_) => Ok(Some(rest)),
        },
    }
}

/// How many lines of a text are whole.
fn lines_in(text: &[u8]) -> u64
    ensures { result ≡ count_by (λ b. b == 10) text.now }
{
    let mut lines = 0;
    for i in 0..text.len() {
        if text[i] == b'\n' {
            lines += 1;
        }
    }
    lines
}

/// The refusal of a text that is good up to these last bytes of it. A line beyond the 4,294,967,295th is not told: memory
/// counts as out.
fn bad_after(text: &[u8], rest: &[u8]) -> ReportRefusal
    requires { length rest.now ≤ length text.now }
    ensures { NamesLine (count_by (λ b. b == 10) (take (length text.now - length rest.now) text.now) + 1) result }
{
    let before = lines_in(&text[..text.len() - rest.len()]);
    if before >= u64::from(u32::MAX) {
        return ReportRefusal::NoMemory;
    }
    ReportRefusal::Bad {
        line: before as u32 + 1,
    }
}

/// What a run over these streams told of so many calls of a workload with these declarations, of which this is the text. If
/// no such run has this text, the first bad line of it: the one with which no such run's text goes on, or the one that lacks.
pub fn read_report(
    alloc: Global,
    declarations: &Declarations,
    streams: u8,
    calls: u32,
    text: &[u8],
) -> Result<RunReport, ReportRefusal>
    requires low { 1 ≤ streams }
    requires high { streams ≤ MAX_STREAMS }
    requires few { length declarations.now.tables ≤ MAX_TABLES }
    requires names { AreNames declarations.now.tables }
    ensures { IsReadOf declarations.now.tables streams calls text.now result }
{
    let mut acks = Acks::new(alloc);
    let rest = read_acks(alloc, text, calls, usize::from(streams), &mut acks)?;
    let mut fates = Listed::new(alloc);
    let rest = read_fates(alloc, rest, calls, &mut fates)?;
    if fates.len() < calls as usize {
        return Err(bad_after(text, rest));
    }
    let mut order = Listed::new(alloc);
    let rest = read_orders(rest, calls, &mut order)?;
    let mut rows = Vec::new(alloc);
    let rest = read_rows(rest, declarations.tables.as_slice(), &mut rows)?;
    match after_end(rest, streams)? {
        None => return Err(bad_after(text, rest)),
        Some(more) => {
            if !more.is_empty() {
                return Err(bad_after(text, more));
            }
        }
    }
    Ok(RunReport {
        acks,
        fates,
        order,
        tables: Tables::of(rows),
    })
}
