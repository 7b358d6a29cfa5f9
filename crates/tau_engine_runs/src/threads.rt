//! Runs of workloads without turns: in threads. What is told here is so under every schedule.
use crate::scenes::play;
use std::test::*;

static SCENES: &str = "
== one worker begins its calls one after another, and its acknowledgements come in that order
new
> run 1 1
= 0
< end 0
new
> run 1 1
| table a ; put a 1 5
= 0
< ack 1 53 ; reply 1 none ; order 1 ; row a 1 int 5 ; end 0
new
> run 1 1
| table acct ; proc move 3 ; get r0 acct $1 ; need r0 >= $3 ; sub r0 r0 $3 ; get r1 acct $2 ; add r1 r1 $3 ; put acct $1 r0 ; put acct $2 r1 ; reply r0 ; end ; put acct 1 100 ; put acct 2 50 ; call move 1 2 30 ; call move 1 2 80 ; get acct 2
= 0
< ack 1 181 ; ack 2 221 ; ack 3 288 ; ack 4 288 ; ack 5 288 ; reply 1 none ; reply 2 none ; reply 3 int 70 ; reply 4 refused 2 ; reply 5 int 80 ; order 1 ; order 2 ; order 3 ; order 4 ; order 5 ; row acct 1 int 70 ; row acct 2 int 80 ; end 0
# The other stream has no record.
new
> run 2 1
| table a ; put a 1 5
= 0
< ack 1 53,0 ; reply 1 none ; order 1 ; row a 1 int 5 ; end 0

== two workers put into two streams; either is acknowledged first
$catalogue 04 0000000d 7461626c6520610a
# Each record has the vector of zeros.
$first 01 00000028 0000000000000001 00000000 0000 0001 0000 0000000000000001 01 0000000000000005
$second 01 00000028 0000000000000002 00000000 0000 0001 0000 0000000000000002 01 0000000000000006
new
> %1
| table a ; put a 1 5 ; put a 2 6
= 0
~ ack 1 53,0
~ ack 2 0,53
< reply 1 none ; reply 2 none ; order 1 ; order 2 ; row a 1 int 5 ; row a 2 int 6 ; end 0
held 0 stream 1 2 0 $catalogue / $first
held 1 stream 1 2 1 $catalogue / $second
> recover 2 2
= 0
< elv 53,53 ; taken 0 13 1 ; taken 1 13 2 ; row a 1 int 5 ; row a 2 int 6 ; end 0
# Stream 0 without its call.
disk 0 stream 1 2 0 $catalogue
> recover 2 2
= 0
< elv 13,53 ; taken 1 13 2 ; row a 2 int 6 ; end 0
row run 2 2
row run 2 2 optimistic

== a disk that fails in its first flush is used no more, and the run ends with its report
new
failing 0 8
> run 2 1
| table a ; put a 1 5
= 6
< unsure 1 none ; order 1 ; row a 1 int 5 ; end 6 0
had 0 8

== a sink that fails its first call gets nothing more; the run goes on
new
> run 1 2
| table a ; put a 1 5 ; put a 2 6 ; put a 3 7
sink 1
= 5
> recover 1 1
= 0
count 3 taken

== two records in flight: each worker of a recovery holds its first one until the other's was reached
new
disk 0 stream 1 2 0 $catalogue / $first
disk 1 stream 1 2 1 $catalogue / $second
> recover 2 2
hold replay-0 1 replay-1 1
hold replay-1 1 replay-0 1
= 0
< elv 53,53 ; taken 0 13 1 ; taken 1 13 2 ; row a 1 int 5 ; row a 2 int 6 ; end 0
reached 1 replay-0
reached 1 replay-1

== two workers put into two streams twice each, and are held
@four_puts table a ; put a 1 5 ; put a 2 6 ; put a 3 7 ; put a 4 8
# They are acknowledged in some order.
part acknowledged = 0
part acknowledged ~ ack 1 53,0
part acknowledged ~ ack 2 0,53
part acknowledged ~ ack 3 93,0
part acknowledged ~ ack 4 0,93
part acknowledged < reply 1 none ; reply 2 none ; reply 3 none ; reply 4 none ; order 1 ; order 3 ; order 2 ; order 4 ; row a 1 int 5 ; row a 2 int 6 ; row a 3 int 7 ; row a 4 int 8 ; end 0
# At once: the first record of each stream is held until that of the other was reached.
new
> run 2 2
| @four_puts
hold commit-0 1 commit-1 1
hold commit-1 1 commit-0 1
do acknowledged
# A flush lets the other stream commit: the second call of worker 1 is held until a flush of stream 0 was reached, and that flush until
# the second record of stream 1.
new
> run 2 2
| @four_puts
hold call-1 2 flush-0 1
hold flush-0 1 commit-1 2
do acknowledged
# Calls are acknowledged while workers run: the second call of worker 1 is held until an acknowledgement was reached.
new
> run 2 2
| @four_puts
hold call-1 2 ack 1
do acknowledged

== a removed entry
# Rows 2 and 66 are in one shard, whose entry of row 2 is removed before row 66 is locked: the second call waits for the first one by
# the floor of the shard. The first flush of stream 0 and the second call of worker 0 are each held until the other was reached, and
# the first call of worker 1 until the second flush of stream 0.
new
> run 2 2
| table a ; put a 2 5 ; put a 66 7 ; put a 3 6
hold flush-0 1 call-0 2
hold call-0 2 flush-0 1
hold call-1 1 flush-0 2
= 0
has ack 2 53,61

== an anchor
# The records of 700 puts of texts of 64 bytes end at 68,613, where an anchor of 13 bytes follows. The record of call 701 names it, and
# has no explicit component. The second call is held until the first flush was reached, that flush until call 701, and call 701 until
# the third flush.
new
> run 1 1
| table a
each 1 702 put a {k} \"xxxxxxxxxxxxxxxxxxxxxxxxxxxxxxxxxxxxxxxxxxxxxxxxxxxxxxxxxxxxxxxx\"
hold call-0 2 flush-0 1
hold call-0 701 flush-0 3
hold flush-0 1 call-0 701
= 0
has ack 701 68724
# The last block of the disk is that of call 701 alone: a record of 98 bytes, then the closed gate. The block before it ends with the
# anchor, whose 13 bytes hold position 68,613.
last 0 99 01 00000062 00000000000002bd 00000001 0000
last 0 117 03 0000000d 0000000000010c05
> recover 1 1
= 0
< elv 68724 ; taken 0 13 1 ; taken 0 111 2
has taken 0 68515 700 ; taken 0 68626 701
";

#[test]
fn runs_in_threads(rt: HostRuntime) -> Result<(), Fail> {
    play(&rt, rt.alloc(), SCENES)
}
