//! Reports and logs, and what an audit says of them.
ghost use Rattle.tau_scan.specs.Reading.{IsLog};

use crate::logs::log_of;
use crate::reports::{text_of, verdict_on};
use std::alloc::Global;
use std::process::Abort;
use std::test::*;
use tau_inspect::Verdict;
use tau_scan::Log;

// The verdict, the workload, the records of each stream (`-` if there are none) and the report. For each check there are
// reports and logs that fail it and none before it.
static AUDITS: &str = "\
# A report that is true.
Yes|table a¶put a 1 5¶add a 1 2¶|first,second|ack 1 53,0¶ack 2 53,61¶reply 1 none¶reply 2 int 7¶order 1¶order 2¶\
row a 1 int 7¶end 0¶
# A reply that is not.
No { check: Reply, number: 2 }|table a¶put a 1 5¶add a 1 2¶|first,second|ack 1 53,0¶ack 2 53,61¶reply 1 none¶\
reply 2 int 8¶order 1¶order 2¶row a 1 int 7¶end 0¶
# A stream that lost what was acknowledged.
No { check: Ack, number: 2 }|table a¶put a 1 5¶add a 1 2¶|first,-|ack 1 53,0¶ack 2 53,61¶reply 1 none¶reply 2 int 7¶\
order 1¶order 2¶row a 1 int 7¶end 0¶
# A stream that lost what was not.
Cut|table a¶put a 1 5¶put a 2 6¶put a 3 7¶put a 4 8¶turns w0 w0 w0 w0 w0 w1 w1 w1 w1 w1 m0 c m1¶|first,-|ack 1 53,0¶\
reply 1 none¶unsure 2 none¶unrun 3¶unrun 4¶order 1¶order 2¶row a 1 int 5¶row a 2 int 6¶end 6 1¶
# An epoch.
No { check: Epoch, number: 0 }|table a¶put a 1 5¶add a 1 2¶|epoch+after_epoch,second+epoch|ack 1 53,0¶ack 2 53,61¶\
reply 1 none¶reply 2 int 7¶order 1¶order 2¶row a 1 int 7¶end 0¶
No { check: Epoch, number: 0 }|table a¶put a 1 5¶add a 1 2¶|-,second+epoch|ack 1 53,0¶ack 2 53,61¶reply 1 none¶\
reply 2 int 7¶order 1¶order 2¶row a 1 int 7¶end 0¶
# Each call stands in the order once if it has a reply, and has an acknowledgement if it is told as acknowledged.
No { check: Fate, number: 1 }|table a¶put a 1 5¶add a 1 2¶|first,second|ack 1 53,0¶ack 2 53,61¶reply 1 none¶\
reply 2 int 7¶order 2¶row a 1 int 7¶end 0¶
No { check: Fate, number: 2 }|table a¶put a 1 5¶add a 1 2¶|first,second|ack 1 53,0¶ack 2 53,61¶reply 1 none¶\
reply 2 int 7¶order 1¶order 2¶order 2¶row a 1 int 7¶end 0¶
No { check: Fate, number: 2 }|table a¶put a 1 5¶add a 1 2¶|first,second|ack 1 53,0¶reply 1 none¶unrun 2¶order 1¶\
order 2¶row a 1 int 7¶end 0¶
No { check: Fate, number: 2 }|table a¶put a 1 5¶add a 1 2¶|first,second|ack 1 53,0¶reply 1 none¶reply 2 int 7¶order 1¶\
order 2¶row a 1 int 7¶end 0¶
No { check: Fate, number: 1 }|table a¶put a 1 5¶add a 1 2¶|first,second|ack 1 53,0¶ack 2 53,61¶unsure 1 none¶\
reply 2 int 7¶order 1¶order 2¶row a 1 int 7¶end 0¶
No { check: Fate, number: 2 }|table a¶put a 1 5¶add a 1 2¶|first,second|ack 1 53,0¶ack 2 53,61¶reply 1 none¶unrun 2¶\
order 1¶row a 1 int 5¶end 0¶
# Replies.
No { check: Reply, number: 1 }|table a¶put a 1 5¶add a 1 2¶|first,second|ack 1 53,0¶ack 2 53,61¶reply 1 int 5¶\
reply 2 int 8¶order 1¶order 2¶row a 1 int 7¶end 0¶
No { check: Reply, number: 2 }|table a¶put a 1 5¶add a 1 2¶|first,second|ack 1 53,0¶ack 2 53,61¶reply 1 none¶\
reply 2 int 7¶order 2¶order 1¶row a 1 int 7¶end 0¶
# Rows.
No { check: Row, number: 0 }|table a¶put a 1 5¶add a 1 2¶|first,second|ack 1 53,0¶ack 2 53,61¶reply 1 none¶\
reply 2 int 7¶order 1¶order 2¶row a 1 int 8¶end 0¶
No { check: Row, number: 0 }|table a¶put a 1 5¶add a 1 2¶|first,second|ack 1 53,0¶ack 2 53,61¶reply 1 none¶\
reply 2 int 7¶order 1¶order 2¶end 0¶
No { check: Row, number: 0 }|table a¶put a 1 5¶add a 1 2¶|first,second|ack 1 53,0¶ack 2 53,61¶reply 1 none¶\
reply 2 int 7¶order 1¶order 2¶row a 1 int 7¶row a 2 int 7¶end 0¶
# A record of no call.
No { check: Record, number: 2 }|table a¶put a 1 5¶add a 1 2¶|first,second|ack 1 53,0¶reply 1 none¶unrun 2¶order 1¶\
row a 1 int 5¶end 0¶
# A record twice.
No { check: Record, number: 1 }|table a¶put a 1 5¶add a 1 2¶|first+first,second|ack 1 53,0¶ack 2 53,61¶reply 1 none¶\
reply 2 int 7¶order 1¶order 2¶row a 1 int 7¶end 0¶
# A record of another stream.
No { check: Record, number: 2 }|table a¶put a 1 5¶put a 2 6¶|second_apart,first|ack 1 0,53¶ack 2 53,0¶reply 1 none¶\
reply 2 none¶order 1¶order 2¶row a 1 int 5¶row a 2 int 6¶end 0¶
No { check: Record, number: 1 }|table a¶put a 1 5¶put a 2 6¶|-,first|ack 1 0,53¶ack 2 53,0¶reply 1 none¶reply 2 none¶\
order 1¶order 2¶row a 1 int 5¶row a 2 int 6¶end 0¶
# A record of other writes.
No { check: Record, number: 1 }|table a¶put a 1 5¶add a 1 2¶|first_other,second|ack 1 53,0¶ack 2 53,61¶reply 1 none¶\
reply 2 int 7¶order 1¶order 2¶row a 1 int 7¶end 0¶
No { check: Record, number: 2 }|table a¶put a 1 5¶add a 1 2¶|first,second_nine|ack 1 53,0¶ack 2 53,61¶reply 1 none¶\
reply 2 int 7¶order 1¶order 2¶row a 1 int 7¶end 0¶
# A record of another vector.
No { check: Record, number: 2 }|table a¶put a 1 5¶add a 1 2¶|first,second|ack 1 53,0¶ack 2 53,60¶reply 1 none¶\
reply 2 int 7¶order 1¶order 2¶row a 1 int 7¶end 0¶
No { check: Record, number: 1 }|table a¶put a 1 5¶add a 1 2¶|first,second|ack 1 53,13¶ack 2 53,61¶reply 1 none¶\
reply 2 int 7¶order 1¶order 2¶row a 1 int 7¶end 0¶
# Records of commands.
Yes|table a¶put a 1 5¶get a 1¶|command,-|ack 1 62,0¶ack 2 62,0¶reply 1 none¶reply 2 int 5¶order 1¶order 2¶\
row a 1 int 5¶end 0¶
No { check: Record, number: 1 }|table a¶put a 1 5¶get a 1¶|command_other,-|ack 1 62,0¶ack 2 62,0¶reply 1 none¶\
reply 2 int 5¶order 1¶order 2¶row a 1 int 5¶end 0¶
No { check: Record, number: 2 }|table a¶put a 1 5¶get a 1¶|command,command_get|ack 1 62,0¶ack 2 62,0¶reply 1 none¶\
reply 2 int 5¶order 1¶order 2¶row a 1 int 5¶end 0¶
# A call that only reads is acknowledged, and what it read is lost.
No { check: Ack, number: 2 }|table a¶put a 1 5¶get a 1¶|-,-|ack 2 53,0¶ack 1 53,0¶reply 1 none¶reply 2 int 5¶order 1¶\
order 2¶row a 1 int 5¶end 0¶
# The first acknowledgement.
No { check: Ack, number: 1 }|table a¶put a 1 5¶add a 1 2¶|-,-|ack 1 53,0¶ack 2 53,61¶reply 1 none¶reply 2 int 7¶\
order 1¶order 2¶row a 1 int 7¶end 0¶
# The second call adds to what the first wrote, and only its record is there.
No { check: Closed, number: 2 }|table a¶put a 1 5¶add a 1 2¶|-,second_alone|unsure 1 none¶unsure 2 int 7¶order 1¶\
order 2¶row a 1 int 7¶end 0¶
# The second call writes what the first read, and only its record is there.
No { check: Closed, number: 2 }|table a¶proc dup 0¶get r0 a 1¶put a 2 r0¶end¶call dup¶put a 1 9¶|-,second_nine|\
unsure 1 none¶unsure 2 none¶order 1¶order 2¶row a 1 int 9¶end 0¶
# Two calls of which neither waits for the other stand in the order of their numbers.
Yes|table a¶put a 1 5¶put a 2 6¶|first,second_apart|ack 1 53,0¶ack 2 0,53¶reply 1 none¶reply 2 none¶order 1¶order 2¶\
row a 1 int 5¶row a 2 int 6¶end 0¶
No { check: Order, number: 2 }|table a¶put a 1 5¶put a 2 6¶|first,second_apart|ack 1 53,0¶ack 2 0,53¶reply 1 none¶\
reply 2 none¶order 2¶order 1¶row a 1 int 5¶row a 2 int 6¶end 0¶
# Rows are removed between reads of others, written again, and moved by procedures that read two rows and write two.
# Nothing of them is in the log.
Cut|table a¶proc move 3¶get r0 a $1¶need r0 >= $3¶sub r0 r0 $3¶get r1 a $2¶add r1 r1 $3¶put a $1 r0¶put a $2 r1¶\
reply r0¶end¶put a 1 5¶put a 2 6¶get a 2¶get a 1¶del a 1¶get a 2¶get a 1¶put a 1 9¶get a 1¶add a 2 3¶call move 2 1 4¶\
call move 2 1 6¶put a 3 \"x\"¶get a 3¶|-,-|unsure 1 none¶unsure 2 none¶unsure 3 int 6¶unsure 4 int 5¶unsure 5 none¶\
unsure 6 int 6¶unsure 7 none¶unsure 8 none¶unsure 9 int 9¶unsure 10 int 9¶unsure 11 int 5¶unsure 12 refused 2¶\
unsure 13 none¶unsure 14 text \"x\"¶order 1¶order 2¶order 3¶order 4¶order 5¶order 6¶order 7¶order 8¶order 9¶order 10¶\
order 11¶order 12¶order 13¶order 14¶row a 1 int 13¶row a 2 int 5¶row a 3 text \"x\"¶end 0¶
# A row that stayed.
No { check: Reply, number: 6 }|table a¶proc move 3¶get r0 a $1¶need r0 >= $3¶sub r0 r0 $3¶get r1 a $2¶add r1 r1 $3¶\
put a $1 r0¶put a $2 r1¶reply r0¶end¶put a 1 5¶put a 2 6¶get a 2¶get a 1¶del a 1¶get a 2¶get a 1¶put a 1 9¶get a 1¶\
add a 2 3¶call move 2 1 4¶call move 2 1 6¶put a 3 \"x\"¶get a 3¶|-,-|unsure 1 none¶unsure 2 none¶unsure 3 int 6¶\
unsure 4 int 5¶unsure 5 none¶unsure 6 none¶unsure 7 none¶unrun 8¶unrun 9¶unrun 10¶unrun 11¶unrun 12¶unrun 13¶unrun 14¶\
order 1¶order 2¶order 3¶order 4¶order 5¶order 6¶order 7¶row a 2 int 6¶end 0¶";

// Whether a verdict is told so.
fn is_told(alloc: Global, verdict: &Verdict, told: &str) -> bool {
    match format!(in alloc; "{verdict:?}") {
        Ok(text) => text.as_str() == told,
        Err(_) => false,
    }
}

// Whether an audit says what is told of a workload, a report that is spelled so, and a log.
fn is_report_judged(
    rt: &impl Abort,
    alloc: Global,
    told: &str,
    workload: &[u8],
    report: &str,
    log: &Log,
) -> bool
    requires { IsLog log.now }
{
    let report = text_of(rt, alloc, report);
    match verdict_on(alloc, workload, report.as_str().as_bytes(), log) {
        Some(verdict) => is_told(alloc, &verdict, told),
        None => false,
    }
}

// The same of a workload that is spelled so.
fn is_judged(
    rt: &impl Abort,
    alloc: Global,
    told: &str,
    workload: &str,
    report: &str,
    log: &Log,
) -> bool
    requires { IsLog log.now }
{
    let load = text_of(rt, alloc, workload);
    is_report_judged(rt, alloc, told, load.as_str().as_bytes(), report, log)
}

// Whether a row is so.
fn is_row(rt: &impl Abort, alloc: Global, row: &str) -> bool {
    let mut fields = row.split('|');
    match (fields.next(), fields.next(), fields.next(), fields.next()) {
        (Some(told), Some(workload), Some(streams), Some(report)) => {
            let log = log_of(rt, alloc, "1", streams);
            fields.next().is_none() && is_judged(rt, alloc, told, workload, report, &log)
        }
        _ => false,
    }
}

#[test]
fn audits(rt: HostRuntime) {
    for row in AUDITS.lines() {
        assert!(rt;
            row.starts_with("# ") || is_row(&rt, rt.alloc(), row),
            "{row}"
        );
    }
}
