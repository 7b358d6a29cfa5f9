//! Logs of format 1, and every cause why there is none, against values worked out by hand.
use crate::play::play;

static LOGS: &str = "
# a gate ends a stream
scan any one = ends 53; takes 0 -+
# nothing after a gate that reads 0 counts
scan any closed = ends 13
# nothing after a gate that reads 7 counts
scan any closed,34=7 = ends 13
# a command record is taken
scan any command = ends 62; takes 0 -+
# the ends cover what is taken
scan any first second = ends 53,61; takes 0 -+; takes 1 -+
# what waits for a record that is cut off is not taken
scan any narrow-0 second = ends 13,61; takes 1 --
# what waits for no record that is cut off is taken
scan any first narrow-1 = ends 53,13; takes 0 -+
# streams stand apart
scan any narrow-0 apart = ends 13,53; takes 1 -+
# an anchor is no call, and a record above what is there is not taken
scan any anchored nothing nothing = ends 82,0,0; takes 0 ---
# an unborn stream declares nothing
scan any nothing other = tables 1
# disks are read before all
scan any zeros fails=2 fails=1 = failed 1
# fewer bytes than a header, a gate and one byte of a block: an unborn stream holds nothing
scan any one,front=0 = ends 0
scan any one,front=1 = ends 0
scan any one,front=2 = ends 0
scan any one,front=3 = ends 0
scan any one,front=4 = ends 0
scan any one,front=5 = ends 0
scan any one,front=6 = ends 0
scan any one,front=7 = ends 0
scan any one,front=8 = ends 0
scan any one,front=9 = ends 0
scan any one,front=10 = ends 0
scan any one,front=11 = ends 0
scan any one,front=12 = ends 0
scan any one,front=13 = ends 0
scan any one,front=14 = ends 0
scan any one,front=15 = ends 0
scan any one,front=16 = ends 0
scan any one,front=17 = ends 0
";

#[test]
fn logs_are_read(rt: HostRuntime) {
    play(&rt, rt.alloc(), LOGS);
}

static CAUSES: &str = "
# a stream is born by its eighteenth byte
scan any zeros = bad 0 BadMagic
# a gate is open, and no block is there
scan any one,front=34 = bad 0 OpenGateWithoutBlock
# the mask has a bit for no stream
scan any bit-above = bad 0 BadMask 13
# the mask has a bit for a component of the anchor
scan any same-as-anchor = bad 0 BadMask 13
# a write of a table that is not declared
scan any no-table = bad 0 BadBody 13
# a write of no table comes before a kind of no record
scan any no-table-first = bad 0 BadBody 13
# the length comes before a write of no table
scan any no-table-cut = bad 0 BadLength 13
# a call of a procedure that is not declared
scan any no-procedure = bad 0 BadBody 13
# a call with a table that is not declared
scan any no-table-called = bad 0 BadBody 13
# a call with too few arguments
scan any too-few = bad 0 BadBody 13
# a catalogue with two spaces
scan any not-canonical = bad 0 BadBody 0
# catalogues differ
scan any first other = bad 1 Catalogue 0 6
# a stream of two among three
scan any first nothing nothing = bad 0 Count 3 2
# a record comes before catalogues
scan any first,39=9 other = bad 0 BadKind 13
# a count comes before records
scan any first,39=9 other,13=3 = bad 1 Count 2 3
# a header comes before its count, and before records
scan any first,39=9 other,13=3,0=0 = bad 1 BadMagic
# the header, the first gate and the record of `put a 1 5`
scan any one,0=0 = bad 0 BadMagic
scan any one,13=17 = bad 0 BadCount
scan any one,15=1 = bad 0 BadIndex
scan any one,20=0 = bad 0 OpenGateWithoutBlock
scan any one,21=1 = bad 0 BadKind 0
scan any one,39=9 = bad 0 BadKind 13
scan any one,43=41 = bad 0 Short 13
scan any one,43=39 = bad 0 BadLength 13
scan any one,51=0 = bad 0 BadBody 13
scan any one,55=1 = bad 0 BadAnchor 13
scan any one,59=0 = bad 0 BadBody 13
scan any one,70=3 = bad 0 BadBody 13
";

#[test]
fn causes_are_named_in_their_order(rt: HostRuntime) {
    play(&rt, rt.alloc(), CAUSES);
}
