//! What opening the streams of a run gives, worked out by hand.
use crate::play::play;
use std::test::*;

// Runs that begin on what their disks hold.
static OPENING: &str = "\
# A fresh run.
disk none
disk none
open 1 TABLE-A = begins 0 0 13 13 0 0 0
calls = 7 7
old 0 = HEAD-0 CATALOGUE 00
old 1 = HEAD-1 CATALOGUE 00

# Bytes of an unborn stream are written over: it is synced and read, and then six calls make the stream.
disk 6e
disk none
open 1 TABLE-A = begins 0 0 13 13 0 0 0
calls = 10 7
old 0 = HEAD-0 CATALOGUE 00
old 1 = HEAD-1 CATALOGUE 00

disk 6e6f
disk none
open 1 TABLE-A = begins 0 0 13 13 0 0 0
calls = 10 7
old 0 = HEAD-0 CATALOGUE 00
old 1 = HEAD-1 CATALOGUE 00

disk 6e6f20
disk none
open 1 TABLE-A = begins 0 0 13 13 0 0 0
calls = 10 7
old 0 = HEAD-0 CATALOGUE 00
old 1 = HEAD-1 CATALOGUE 00

disk 6e6f2068
disk none
open 1 TABLE-A = begins 0 0 13 13 0 0 0
calls = 10 7
old 0 = HEAD-0 CATALOGUE 00
old 1 = HEAD-1 CATALOGUE 00

disk 6e6f206865
disk none
open 1 TABLE-A = begins 0 0 13 13 0 0 0
calls = 10 7
old 0 = HEAD-0 CATALOGUE 00
old 1 = HEAD-1 CATALOGUE 00

disk 6e6f20686561
disk none
open 1 TABLE-A = begins 0 0 13 13 0 0 0
calls = 10 7
old 0 = HEAD-0 CATALOGUE 00
old 1 = HEAD-1 CATALOGUE 00

disk 6e6f2068656164
disk none
open 1 TABLE-A = begins 0 0 13 13 0 0 0
calls = 10 7
old 0 = HEAD-0 CATALOGUE 00
old 1 = HEAD-1 CATALOGUE 00

disk 6e6f206865616465
disk none
open 1 TABLE-A = begins 0 0 13 13 0 0 0
calls = 10 7
old 0 = HEAD-0 CATALOGUE 00
old 1 = HEAD-1 CATALOGUE 00

disk 6e6f20686561646572
disk none
open 1 TABLE-A = begins 0 0 13 13 0 0 0
calls = 10 7
old 0 = HEAD-0 CATALOGUE 00
old 1 = HEAD-1 CATALOGUE 00

disk 6e6f2068656164657220
disk none
open 1 TABLE-A = begins 0 0 13 13 0 0 0
calls = 10 7
old 0 = HEAD-0 CATALOGUE 00
old 1 = HEAD-1 CATALOGUE 00

disk 6e6f206865616465722061
disk none
open 1 TABLE-A = begins 0 0 13 13 0 0 0
calls = 10 7
old 0 = HEAD-0 CATALOGUE 00
old 1 = HEAD-1 CATALOGUE 00

disk 6e6f20686561646572206174
disk none
open 1 TABLE-A = begins 0 0 13 13 0 0 0
calls = 10 7
old 0 = HEAD-0 CATALOGUE 00
old 1 = HEAD-1 CATALOGUE 00

disk 6e6f2068656164657220617420
disk none
open 1 TABLE-A = begins 0 0 13 13 0 0 0
calls = 10 7
old 0 = HEAD-0 CATALOGUE 00
old 1 = HEAD-1 CATALOGUE 00

disk 6e6f206865616465722061742061
disk none
open 1 TABLE-A = begins 0 0 13 13 0 0 0
calls = 10 7
old 0 = HEAD-0 CATALOGUE 00
old 1 = HEAD-1 CATALOGUE 00

disk 6e6f2068656164657220617420616c
disk none
open 1 TABLE-A = begins 0 0 13 13 0 0 0
calls = 10 7
old 0 = HEAD-0 CATALOGUE 00
old 1 = HEAD-1 CATALOGUE 00

disk 6e6f2068656164657220617420616c6c
disk none
open 1 TABLE-A = begins 0 0 13 13 0 0 0
calls = 10 7
old 0 = HEAD-0 CATALOGUE 00
old 1 = HEAD-1 CATALOGUE 00

disk 6e6f2068656164657220617420616c6c2e
disk none
open 1 TABLE-A = begins 0 0 13 13 0 0 0
calls = 10 7
old 0 = HEAD-0 CATALOGUE 00
old 1 = HEAD-1 CATALOGUE 00

# A closed first gate ends the content. The stream is born, so no header is written.
disk HEAD-0 00 010203
disk none
open 1 TABLE-A = begins 0 0 13 13 0 0 0
calls = 8 7
old 0 = HEAD-0 CATALOGUE 00
old 1 = HEAD-1 CATALOGUE 00

# An old record is judged by its epoch: call 2 waits for a record that stream 0 does not hold.
disk HEAD-0 CATALOGUE 00
disk HEAD-1 CATALOGUE ADD 00
open 1 TABLE-A = begins 13 61 38 86 0 0 0
calls = 8 8
old 0 = HEAD-0 CATALOGUE EPOCH-1 00
old 1 = HEAD-1 CATALOGUE ADD EPOCH-1 00

# The next epoch: the row of `put a 7 1`, and none of `add a 1 2`, which stays out though stream 0 is longer now.
disk HEAD-0 CATALOGUE EPOCH-1 NEXT-PUT 00
disk HEAD-1 CATALOGUE ADD EPOCH-1 00
open 1 TABLE-A = begins 94 86 119 111 0 0 1
old 0 = HEAD-0 CATALOGUE EPOCH-1 NEXT-PUT EPOCH-2 00
old 1 = HEAD-1 CATALOGUE ADD EPOCH-1 EPOCH-2 00

# An empty stream beside one that is not: without a byte, and with five of its header.
disk none
disk HEAD-1 CATALOGUE 00
open 1 TABLE-A = begins 0 13 38 38 0 0 0
old 0 = HEAD-0 CATALOGUE-AND-EPOCH 00
old 1 = HEAD-1 CATALOGUE EPOCH-ALONE 00

disk 5441555255
disk HEAD-1 CATALOGUE 00
open 1 TABLE-A = begins 0 13 38 38 0 0 0
old 0 = HEAD-0 CATALOGUE-AND-EPOCH 00
old 1 = HEAD-1 CATALOGUE EPOCH-ALONE 00

# A run of other declarations, whose byte 6 differs, does not go on. The disks are read and keep what they hold.
disk HEAD-0 CATALOGUE PUT 00
disk HEAD-1 CATALOGUE 00
open 1 TABLE-B = declared 0 6
calls = 4 4
old 0 = HEAD-0 CATALOGUE PUT 00
old 1 = HEAD-1 CATALOGUE 00

# None goes on from the last epoch.
disk HEAD-0 CATALOGUE PUT 00
disk HEAD-1 CATALOGUE ENDED 00
open 1 TABLE-A = last 1
calls = 4 4
old 0 = HEAD-0 CATALOGUE PUT 00
old 1 = HEAD-1 CATALOGUE ENDED 00

# Other declarations come first.
disk HEAD-0 CATALOGUE PUT 00
disk HEAD-1 CATALOGUE ENDED 00
open 1 TABLE-AB = declared 0 7
calls = 4 4
old 0 = HEAD-0 CATALOGUE PUT 00
old 1 = HEAD-1 CATALOGUE ENDED 00

# Streams of format 2, and a run of format 1 that is to go on from them.
disk none
disk none
open 2 TABLE-A = begins 0 0 13 13 0 0 0
old 0 = WIDE CATALOGUE 00
open 1 TABLE-A = format 0 1 2

# Anchors that are there are counted. For the next run the epochs between are no anchors.
disk HEAD-0 CATALOGUE PUT ANCHOR 00
disk HEAD-1 CATALOGUE ANCHOR ANCHOR 00
open 1 TABLE-A = begins 74 55 99 80 1 2 1
open 1 TABLE-A = begins 99 80 124 105 1 2 1
";

#[test]
fn runs_begin_on_what_their_disks_hold(rt: HostRuntime) {
    play(&rt, rt.alloc(), OPENING);
}

// Disks that fail while a run opens its streams. Each holds bytes that its call 1 wrote.
static FAILING: &str = "\
# The first disk fails in each call: as it is asked, synced and read, and as its stream is started.
unsynced 2 HEAD-0 CATALOGUE PUT 00
unsynced 0 HEAD-1 CATALOGUE 00
open 1 TABLE-A = failed 0
calls = 2 1

unsynced 3 HEAD-0 CATALOGUE PUT 00
unsynced 0 HEAD-1 CATALOGUE 00
open 1 TABLE-A = failed 0
calls = 3 2

unsynced 4 HEAD-0 CATALOGUE PUT 00
unsynced 0 HEAD-1 CATALOGUE 00
open 1 TABLE-A = failed 0
calls = 4 2

unsynced 5 HEAD-0 CATALOGUE PUT 00
unsynced 0 HEAD-1 CATALOGUE 00
open 1 TABLE-A = failed 0
calls = 5 2

unsynced 6 HEAD-0 CATALOGUE PUT 00
unsynced 0 HEAD-1 CATALOGUE 00
open 1 TABLE-A = failed 0
calls = 6 5

unsynced 7 HEAD-0 CATALOGUE PUT 00
unsynced 0 HEAD-1 CATALOGUE 00
open 1 TABLE-A = failed 0
calls = 7 5

unsynced 8 HEAD-0 CATALOGUE PUT 00
unsynced 0 HEAD-1 CATALOGUE 00
open 1 TABLE-A = failed 0
calls = 8 5

unsynced 9 HEAD-0 CATALOGUE PUT 00
unsynced 0 HEAD-1 CATALOGUE 00
open 1 TABLE-A = failed 0
calls = 9 5

# The second disk fails in each call.
unsynced 0 HEAD-0 CATALOGUE PUT 00
unsynced 2 HEAD-1 CATALOGUE 00
open 1 TABLE-A = failed 1
calls = 2 2

unsynced 0 HEAD-0 CATALOGUE PUT 00
unsynced 3 HEAD-1 CATALOGUE 00
open 1 TABLE-A = failed 1
calls = 5 3

unsynced 0 HEAD-0 CATALOGUE PUT 00
unsynced 4 HEAD-1 CATALOGUE 00
open 1 TABLE-A = failed 1
calls = 5 4

unsynced 0 HEAD-0 CATALOGUE PUT 00
unsynced 5 HEAD-1 CATALOGUE 00
open 1 TABLE-A = failed 1
calls = 5 5

unsynced 0 HEAD-0 CATALOGUE PUT 00
unsynced 6 HEAD-1 CATALOGUE 00
open 1 TABLE-A = failed 1
calls = 9 6

unsynced 0 HEAD-0 CATALOGUE PUT 00
unsynced 7 HEAD-1 CATALOGUE 00
open 1 TABLE-A = failed 1
calls = 9 7

unsynced 0 HEAD-0 CATALOGUE PUT 00
unsynced 8 HEAD-1 CATALOGUE 00
open 1 TABLE-A = failed 1
calls = 9 8

unsynced 0 HEAD-0 CATALOGUE PUT 00
unsynced 9 HEAD-1 CATALOGUE 00
open 1 TABLE-A = failed 1
calls = 9 9

# No call of an opening fails.
unsynced 10 HEAD-0 CATALOGUE PUT 00
unsynced 10 HEAD-1 CATALOGUE 00
open 1 TABLE-A = begins 53 13 78 38 0 0 1
calls = 9 9

# Of two disks that fail the first call names one: all are asked before any is synced.
unsynced 3 HEAD-0 CATALOGUE PUT 00
unsynced 2 HEAD-1 CATALOGUE 00
open 1 TABLE-A = failed 1
calls = 2 2

# A disk is read before the next one is synced.
unsynced 5 HEAD-0 CATALOGUE PUT 00
unsynced 3 HEAD-1 CATALOGUE 00
open 1 TABLE-A = failed 0
calls = 5 2

# All are read before any is written.
unsynced 6 HEAD-0 CATALOGUE PUT 00
unsynced 5 HEAD-1 CATALOGUE 00
open 1 TABLE-A = failed 1
calls = 5 5

# Streams are started in ascending order.
unsynced 9 HEAD-0 CATALOGUE PUT 00
unsynced 6 HEAD-1 CATALOGUE 00
open 1 TABLE-A = failed 0
calls = 9 5

# Nothing is pending once a disk is read. Its sync fails: a stop still leaves nothing.
unsynced 3 HEAD-0 CATALOGUE PUT 00
unsynced 0 HEAD-1 CATALOGUE 00
open 1 TABLE-A = failed 0
old 0 = none

# It does not, and the reading fails.
unsynced 4 HEAD-0 CATALOGUE PUT 00
unsynced 0 HEAD-1 CATALOGUE 00
open 1 TABLE-A = failed 0
old 0 = HEAD-0 CATALOGUE PUT 00

# Nothing is written before the other disk is read.
unsynced 0 HEAD-0 CATALOGUE PUT 00
unsynced 5 HEAD-1 CATALOGUE 00
open 1 TABLE-A = failed 1
old 0 = HEAD-0 CATALOGUE PUT 00
new 0 = HEAD-0 CATALOGUE PUT 00
";

#[test]
fn disks_fail_in_each_call(rt: HostRuntime) {
    play(&rt, rt.alloc(), FAILING);
}

// Why a run does not go on from a log, at the edges of each cause.
static CAUSES: &str = "\
# The longest image to go on from has 2^60 bytes. The lowest stream that is longer is named, with its own length.
disk none
disk HEAD-1 CATALOGUE LAST-BUT-ONE 00
cause TABLE-A 1152921504606846976 1152921504606846976 = none
cause TABLE-A 1152921504606846977 1152921504606846976 = long 0 1152921504606846977
cause TABLE-A 1152921504606846976 1152921504606846977 = long 1 1152921504606846977
cause TABLE-A 1152921504606846977 1152921504606846978 = long 0 1152921504606846977

# Causes come in their order: other declarations, which differ in byte 6 or end before it, then the length, then the last number.
disk none
disk HEAD-1 CATALOGUE LAST 00
cause TABLE-B 1152921504606846977 0 = declared 1 6
cause TABLE 0 0 = declared 1 5
cause none 0 0 = declared 1 0
cause TABLE-A 1152921504606846977 0 = long 0 1152921504606846977
cause TABLE-A 1152921504606846976 0 = last 1
";

#[test]
fn causes_come_in_their_order(rt: HostRuntime) {
    play(&rt, rt.alloc(), CAUSES);
}
