//! Texts of reports, against values worked out by hand.
use crate::play::play;

/// A report is declarations, what became of each call, the order of the calls, the rows, and the stream whose disk failed.
/// Tables are declarations and rows. An acknowledgement is the call's number and its vector. `/` stands for the end of a
/// line, `-` for nothing.
static TEXTS: &str = "
# nothing was called
report - | - | - | - | - = end 0/
# two calls on one row
report table a/ | acked none, acked int 7 | 1,2 | 0 1 int 7 | - = reply 1 none/reply 2 int 7/order 1/order 2/row a 1 int 7/end 0/
# a disk fails
report table a/ | acked none, unsure none, unrun, unrun | 1,2 | 0 1 int 5, 0 2 int 6 | 1 = reply 1 none/unsure 2 none/unrun 3/unrun 4/order 1/order 2/row a 1 int 5/row a 2 int 6/end 6 1/
# each kind of reply
report table a/ | acked refused 2, unsure refused 64, acked int -9223372036854775808, acked int 9223372036854775807, acked text \"\", unsure text \"two  words\" | 6,5,4,3,200000 | - | 15 = reply 1 refused 2/unsure 2 refused 64/reply 3 int -9223372036854775808/reply 4 int 9223372036854775807/reply 5 text \"\"/unsure 6 text \"two  words\"/order 6/order 5/order 4/order 3/order 200000/end 6 15/
# no row
show - | - = -
# rows of numbers and texts
show table a/table long_name_of_16b/ | 0 -9223372036854775808 text \"a b\", 0 0 int 0, 1 -1 text \"\u{e9}\", 1 9223372036854775807 int -5 = row a -9223372036854775808 text \"a b\"/row a 0 int 0/row long_name_of_16b -1 text \"\u{e9}\"/row long_name_of_16b 9223372036854775807 int -5/
# lines of acknowledgements
ack 2 82,77,53 = ack 2 82,77,53/
ack 1 0 = ack 1 0/
ack 200000 0,4611686018427387903 = ack 200000 0,4611686018427387903/
ack 7 13,13,13,13,13,13,13,13,13,13,13,13,13,13,13,13,13,13,13,13,13,13,13,13,13,13,13,13,13,13,13,13 = ack 7 13,13,13,13,13,13,13,13,13,13,13,13,13,13,13,13,13,13,13,13,13,13,13,13,13,13,13,13,13,13,13,13/
# records that are taken: call 1 at 13 of stream 0, and call 2 at 13 of stream 1, which waits for it; both write row 1
scan any first second = ends 53,61; recovers 0 1 int 7 > elv 53,61/taken 0 13 1/taken 1 13 2/row a 1 int 7/end 0/
# the record of call 2 is whole, but its vector (53,0) is not covered
scan any narrow-0 second = ends 13,61; recovers - > elv 13,61/end 0/
";

#[test]
fn reports_have_their_texts(rt: HostRuntime) {
    play(&rt, rt.alloc(), TEXTS);
}
