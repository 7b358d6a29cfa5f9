//! What inspections tell, against texts worked out by hand.
use crate::logs::log_of;
use crate::reports::text_of;
use std::alloc::Global;
use std::process::Abort;
use std::test::*;
use tau_inspect::inspect_text;
use tau_scan::Log;

// The format, the records of each stream and the text.
static INSPECTIONS: &str = "\
# A record whose dependence is lost.
1|-,second|elv 13,61¶catalogue 0 0 13¶catalogue 1 0 13¶data 1 13 61 2 53,0 out 0¶end 0¶
# Records that are taken.
1|first,second|elv 53,61¶catalogue 0 0 13¶data 0 13 53 1 0,0 taken¶catalogue 1 0 13¶data 1 13 61 2 53,0 taken¶end 0¶
# An epoch judges what came before it: the old record stays out.
1|epoch+after_epoch,second+epoch|elv 94,86¶catalogue 0 0 13¶epoch 0 13 38 1 13,61¶data 0 38 94 1 13,61 taken¶\
catalogue 1 0 13¶data 1 13 61 2 53,0 out 0¶epoch 1 61 86 1 13,61¶end 0¶
# Records after an anchor.
1|anchor+anchored,second_of_three,third|elv 82,77,53¶catalogue 0 0 13¶anchor 0 13 42 13,13,53¶\
data 0 42 82 1 13,13,53 taken¶catalogue 1 0 13¶data 1 13 77 2 82,13,53 taken¶catalogue 2 0 13¶\
data 2 13 53 3 0,0,0 taken¶end 0¶
# Of two streams that are too short the lower one is told.
1|anchor+anchored,second_of_three,-|elv 82,77,13¶catalogue 0 0 13¶anchor 0 13 42 13,13,53¶\
data 0 42 82 1 13,13,53 out 2¶catalogue 1 0 13¶data 1 13 77 2 82,13,53 out 2¶catalogue 2 0 13¶end 0¶
1|-,second_of_three,-|elv 13,77,13¶catalogue 0 0 13¶catalogue 1 0 13¶data 1 13 77 2 82,13,53 out 0¶catalogue 2 0 13¶\
end 0¶
# A command.
1|command|elv 62¶catalogue 0 0 13¶command 0 13 62 1 0 taken¶end 0¶
# The wide format.
2|wide,wide_second|elv 55,63¶catalogue 0 0 13¶data 0 13 55 1 0,0 taken¶catalogue 1 0 13¶data 1 13 63 2 55,0 taken¶\
end 0¶";

// Whether this is the text of an inspection of a log.
fn tells(alloc: Global, log: &Log, wanted: &str) -> bool {
    match inspect_text(alloc, log) {
        Ok(text) => text.as_slice() == wanted.as_bytes(),
        Err(_) => false,
    }
}

// Whether an inspection tells what is spelled here.
fn is_told(rt: &impl Abort, alloc: Global, log: &Log, spelled: &str) -> bool {
    let wanted = text_of(rt, alloc, spelled);
    tells(alloc, log, wanted.as_str())
}

// Whether a row is so.
fn is_row(rt: &impl Abort, alloc: Global, row: &str) -> bool {
    let mut fields = row.split('|');
    match (fields.next(), fields.next(), fields.next(), fields.next()) {
        (Some(digit), Some(streams), Some(told), None) => {
            let log = log_of(rt, alloc, digit, streams);
            is_told(rt, alloc, &log, told)
        }
        _ => false,
    }
}

#[test]
fn inspections(rt: HostRuntime) {
    for row in INSPECTIONS.lines() {
        assert!(rt;
            row.starts_with("# ") || is_row(&rt, rt.alloc(), row),
            "{row}"
        );
    }
}
