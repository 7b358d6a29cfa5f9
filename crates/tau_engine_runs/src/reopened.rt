//! Runs on disks that hold something: logs that they go on from, streams that were never born, and what is no log.
use crate::scenes::play;
use std::test::*;

static SCENES: &str = "
== a run goes on from a stream that was cut off
# It tells of its own call alone, and its epoch keeps the record out that waits for what was lost; the next run goes on from that.
# The catalogue of table a.
$catalogue 04 0000000d 7461626c6520610a
# Call 2 puts 7 into row 1, and waits for position 53 of stream 0.
$dependent 01 00000030 0000000000000002 00000000 0001 0000000000000035 0001 0000 0000000000000001 01 0000000000000007
# Epoch 1, before which there were 13 and 61 bytes.
$epoch_1 05 00000019 00000001 000000000000000d 000000000000003d
# Call 1 of that epoch puts 1 into row 7, after 13 and 61 bytes.
$put_1 01 00000038 0000000000000001 00000000 0003 000000000000000d 000000000000003d 0001 0000 0000000000000007 01 0000000000000001
# Epoch 2, before which there were 94 and 86 bytes.
$epoch_2 05 00000019 00000002 000000000000005e 0000000000000056
# Call 1 of that epoch makes row 7 hold 3, after 94 and 86 bytes.
$add_2 01 00000038 0000000000000001 00000000 0003 000000000000005e 0000000000000056 0001 0000 0000000000000007 01 0000000000000003
new
disk 0 stream 1 2 0 $catalogue
disk 1 stream 1 2 1 $catalogue / $dependent
> run 2 1
| table a ; put a 7 1
= 0
< ack 1 94,61 ; reply 1 none ; order 1 ; row a 7 int 1 ; end 0
had 0 12
had 1 8
held 0 stream 1 2 0 $catalogue / $epoch_1 / $put_1
held 1 stream 1 2 1 $catalogue / $dependent / $epoch_1
> recover 2 1
= 0
< elv 94,86 ; taken 0 38 1 ; row a 7 int 1 ; end 0
> run 2 1
| table a ; add a 7 2
= 0
< ack 1 175,86 ; reply 1 int 3 ; order 1 ; row a 7 int 3 ; end 0
held 0 stream 1 2 0 $catalogue / $epoch_1 / $put_1 / $epoch_2 / $add_2
held 1 stream 1 2 1 $catalogue / $dependent / $epoch_1 / $epoch_2
> recover 2 1
= 0
< elv 175,111 ; taken 0 38 1 ; taken 0 119 1 ; row a 7 int 3 ; end 0

== a stream without a byte gets the catalogue and the epoch in one block
# Epoch 1, before which there were 0 and 13 bytes.
$epoch_alone 05 00000019 00000001 0000000000000000 000000000000000d
# Call 1 of that epoch puts 5 into row 1, after 13 bytes of stream 1.
$put_after 01 00000030 0000000000000001 00000000 0002 000000000000000d 0001 0000 0000000000000001 01 0000000000000005
new
disk 1 stream 1 2 1 $catalogue
> run 2 1
| table a ; put a 1 5
= 0
< ack 1 86,13 ; reply 1 none ; order 1 ; row a 1 int 5 ; end 0
held 0 stream 1 2 0 $catalogue $epoch_alone / $put_after
> recover 2 1
= 0
< elv 86,38 ; taken 0 38 1 ; row a 1 int 5 ; end 0

== streams whose images have at most a header are made anew, after so many calls
new
disk 0 bytes %1
disk 1 bytes %2
> run 2 1
| table a
= 0
< end 0
held 0 stream 1 2 0 $catalogue
held 1 stream 1 2 1 $catalogue
had 0 %3
had 1 %4
row  /  / 7 / 7
row 78 /  / 10 / 7
row 5441555255532d4c4f472d31 0002 0000 00 / 5441555255532d4c4f472d31 0003 0001 / 10 / 10

== logs that no run goes on from
# Disks that hold something were asked, synced and read, the others asked, and nothing else.
new
disk 0 %1
disk 1 %2
> run 2 1
| table %3
= 7
< %4
held 0 %1
held 1 %2
had 0 %5
had 1 %6
# Call 1 puts 5 into row 1, and the same in format 2.
$put 01 00000028 0000000000000001 00000000 0000 0001 0000 0000000000000001 01 0000000000000005
$wide_put 01 0000002a 0000000000000001 00000000 00000000 0001 0000 0000000000000001 01 0000000000000005
# Call 1, which waits for position 61 of stream 1, and call 2, which waits for position 61 of stream 0.
$first_waits 01 00000030 0000000000000001 00000000 0002 000000000000003d 0001 0000 0000000000000001 01 0000000000000005
$second_waits 01 00000030 0000000000000002 00000000 0001 000000000000003d 0001 0000 0000000000000002 01 0000000000000006
# Its catalogue is another one.
row stream 1 2 0 $catalogue/$put / stream 1 2 1 $catalogue / b / fault 7 0 declared 6 / 4 / 4
# There is no header, or one of other streams.
row bytes 000000000000000000000000000000000000 / bytes / a / fault 7 0 image 1 / 4 / 1
row bytes / stream 1 3 1 $catalogue / a / fault 7 1 count 2 3 / 1 / 4
# It is of format 2.
row stream 2 2 0 $catalogue/$wide_put / stream 2 2 1 $catalogue / a / fault 7 0 format 1 2 / 4 / 4
# Each of two records waits for the other.
row stream 1 2 0 $catalogue/$first_waits / stream 1 2 1 $catalogue/$second_waits / a / fault 7 0 tangled 13 / 4 / 4

== a text without a table has another catalogue
new
disk 1 stream 1 2 1 $catalogue
> run 2 1
= 7
< fault 7 1 declared 0
held 0 bytes
held 1 stream 1 2 1 $catalogue
had 0 1
had 1 4

== there is no epoch after the last
# The last epoch of one stream, before which there were 13 bytes.
$last_epoch 05 00000011 ffffffff 000000000000000d
new
disk 0 stream 1 1 0 $catalogue / $last_epoch
> run 1 1
| table a
= 7
< fault 7 0 last
held 0 stream 1 1 0 $catalogue / $last_epoch

== a disk that fails comes before a bad log
new
disk 0 bytes 000000000000000000000000000000000000
failing 1 1
> run 2 1
| table a
= 6
< fault 6 1
had 0 1

== a run stops, and the next one goes on
# A run puts 5 into row 1. A second one adds 2 to it on the same disks, of which a call fails; a third one adds 2 again.
# The first run has made 11 calls of disk 0 and 7 of disk 1. The second one asks, syncs and reads each by four calls, puts
# its epoch after 53 and 13 bytes by four, and flushes its record in stream 0 by four.
new
failing %1
> run 2 1
| table a ; put a 1 5
= 0
< ack 1 53,0 ; reply 1 none ; order 1 ; row a 1 int 5 ; end 0
> run 2 1
| table a ; add a 1 2 ; turns
= 6
< %2
> run 2 1
| table a ; add a 1 2 ; turns
= 0
< %3
@unsure unsure 1 int 7 ; order 1 ; row a 1 int 7 ; end 6 0
# Nothing of the second run is there; its epoch is in stream 0 alone; it is in both; and so is its record.
@alone ack 1 134,13 ; reply 1 int 7 ; order 1 ; row a 1 int 7 ; end 0
@after_one ack 1 159,13 ; reply 1 int 7 ; order 1 ; row a 1 int 7 ; end 0
@after_both ack 1 159,38 ; reply 1 int 7 ; order 1 ; row a 1 int 7 ; end 0
@after_record ack 1 215,38 ; reply 1 int 9 ; order 1 ; row a 1 int 9 ; end 0
row 0 12 / fault 6 0 / @alone
row 0 13 / fault 6 0 / @alone
row 0 14 / fault 6 0 / @alone
row 0 15 / fault 6 0 / @alone
row 0 16 / fault 6 0 / @alone
row 0 17 / fault 6 0 / @alone
row 0 18 / fault 6 0 / @alone
row 0 19 / fault 6 0 / @after_one
row 0 20 / @unsure / @after_both
row 0 21 / @unsure / @after_both
row 0 22 / @unsure / @after_both
row 0 23 / @unsure / @after_record
row 1 8 / fault 6 1 / @alone
row 1 9 / fault 6 1 / @alone
row 1 10 / fault 6 1 / @alone
row 1 11 / fault 6 1 / @alone
row 1 12 / fault 6 1 / @after_one
row 1 13 / fault 6 1 / @after_one
row 1 14 / fault 6 1 / @after_one
row 1 15 / fault 6 1 / @after_both

== a log of format 2 is gone on from in format 2, and refused by a run in format 1
new
> run 2 1 wide
| table a ; put a 1 5
= 0
< ack 1 55,0 ; reply 1 none ; order 1 ; row a 1 int 5 ; end 0
held 0 stream 2 2 0 $catalogue / $wide_put
> recover 2 1
= 0
< elv 55,13 ; taken 0 13 1 ; row a 1 int 5 ; end 0
> run 2 1
| table a
= 7
< fault 7 0 format 1 2
> run 2 1 wide
| table a ; add a 1 2
= 0
< ack 1 138,13 ; reply 1 int 7 ; order 1 ; row a 1 int 7 ; end 0
> recover 2 1
= 0
< elv 138,38 ; taken 0 13 1 ; taken 0 80 1 ; row a 1 int 7 ; end 0
# A record of a call.
new
> run 2 1 command wide
| table a ; put a 1 5
= 0
< ack 1 64,0 ; reply 1 none ; order 1 ; row a 1 int 5 ; end 0
";

#[test]
fn runs_on_disks_that_hold_something(rt: HostRuntime) -> Result<(), Fail> {
    play(&rt, rt.alloc(), SCENES)
}
