//! The texts of whole reports.
ghost use Rattle.std.specs.Prelude.{◌≡◌, ◌++◌, OnOk, IfOk};
ghost use Rattle.tau_report.specs.Report.{rest_text, row_lines};

use crate::lines::{put_end, put_fates, put_order, put_rows};
use crate::report::RunReport;
use std::alloc::{AllocError, Global};
use tau_base::NoMemory;
use tau_model::Tables;
use tau_text::Declarations;

fn put_report(
    out: &mut Vec<u8>,
    d: &Declarations,
    report: &RunReport,
    disk: Option<u8>,
) -> Result<(), AllocError>
    ensures { OnOk result (out.new.items ≡ out.old.items ++ rest_text d.now.tables report.now disk) }
{
    put_fates(out, report.fates.as_slice())?;
    put_order(out, report.order.as_slice())?;
    put_rows(out, d.tables.as_slice(), report.tables.rows())?;
    put_end(out, disk)
}

/// What a run tells after the lines of its acknowledgements: what became of each call, the history, the rows, and the
/// end, with the lowest stream whose disk failed. Rows of tables that are not declared have no name.
pub fn report_text(
    alloc: Global,
    d: &Declarations,
    report: &RunReport,
    disk: Option<u8>,
) -> Result<Vec<u8>, NoMemory>
    ensures { IfOk result (λ text. text.items ≡ rest_text d.now.tables report.now disk) }
{
    let mut text = Vec::new(alloc);
    put_report(&mut text, d, report, disk)?;
    Ok(text)
}

/// A line for each row of the tables, in ascending order of keys.
pub fn table_text(alloc: Global, d: &Declarations, tables: &Tables) -> Result<Vec<u8>, NoMemory>
    ensures { IfOk result (λ text. text.items ≡ row_lines d.now.tables tables.now) }
{
    let mut text = Vec::new(alloc);
    put_rows(&mut text, d.tables.as_slice(), tables.rows())?;
    Ok(text)
}
