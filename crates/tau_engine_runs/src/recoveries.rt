//! Recoveries of images that are given.
use crate::scenes::play;
use std::test::*;

static SCENES: &str = "
== the one stream of `put a 1 5`, with other bytes in place of those from one place to another
# Its gates are at 16, 34 and 79, and its record from 39 on.
new
disk 0 stream 1 1 0 $catalogue / $first
change 0 %1
> recover 1 1
= %2
< %3
# The catalogue of table a.
$catalogue 04 0000000d 7461626c6520610a
# Call 1 puts 5 into row 1.
$first 01 00000028 0000000000000001 00000000 0000 0001 0000 0000000000000001 01 0000000000000005
# Gates end a stream.
row 80 80 / 0 / elv 53 ; taken 0 13 1 ; row a 1 int 5 ; end 0
row 34 35 07 / 0 / elv 13 ; end 0
row 34 80 00 0100000001 616e79 / 0 / elv 13 ; end 0
# Unborn streams hold nothing.
rows 0 18 {k} 80 / 0 / elv 0 ; end 0
# Hostile images are named.
row 0 1 00 / 7 / fault 7 0 image 1
row 11 12 33 / 7 / fault 7 0 image 1
row 11 12 32 / 7 / fault 7 0 record 5 13
row 12 14 0011 / 7 / fault 7 0 image 2
row 14 16 0001 / 7 / fault 7 0 image 3
row 17 21 00000000 / 7 / fault 7 0 image 4
row 34 80 / 7 / fault 7 0 image 4
row 21 22 01 / 7 / fault 7 0 record 2 0
row 39 40 09 / 7 / fault 7 0 record 2 13
row 40 44 00000029 / 7 / fault 7 0 record 1 13
row 40 44 00000027 / 7 / fault 7 0 record 3 13
row 44 52 0000000000000000 / 7 / fault 7 0 record 6 13
row 52 56 00000001 / 7 / fault 7 0 record 4 13
row 58 60 0000 / 7 / fault 7 0 record 6 13
row 70 71 03 / 7 / fault 7 0 record 6 13

== one stream with this record
new
disk 0 %1
> recover 1 1
= %2
< %3
# The call `put a 1 5`, as a record of the call, is executed again.
$called 02 00000031 0000000000000001 00000000 0000 0000 03 01 0000000000000000 01 0000000000000001 01 0000000000000005
row stream 1 1 0 $catalogue/$called / 0 / elv 62 ; taken 0 13 1 ; row a 1 int 5 ; end 0
# Call 1 with the explicit component 0, which is that of no anchor.
$not_above 01 00000030 0000000000000001 00000000 0001 0000000000000000 0001 0000 0000000000000001 01 0000000000000005
row stream 1 1 0 $catalogue/$not_above / 7 / fault 7 0 record 5 13
# Call 1, which waits for stream 1: of one stream there is none.
$first_waits 01 00000030 0000000000000001 00000000 0002 000000000000003d 0001 0000 0000000000000001 01 0000000000000005
row stream 1 1 0 $catalogue/$first_waits / 7 / fault 7 0 record 5 13
# Eighteen bytes that are no header.
row bytes 000000000000000000000000000000000000 / 7 / fault 7 0 image 1

== two streams, each with its record or without one
new
disk 0 %1
disk 1 %2
> %3
= %4
< %5
# Catalogues agree: that of stream 1 is that of `table b`.
$other 04 0000000d 7461626c6520620a
row stream 1 2 0 $catalogue/$apart / stream 1 2 1 $other / recover 2 1 / 7 / fault 7 1 catalogue 0 6
# Logs of format 2; of the last two streams the first one was never born.
$wide 01 0000002a 0000000000000001 00000000 00000000 0001 0000 0000000000000001 01 0000000000000005
row stream 2 2 0 $catalogue/$wide / stream 2 2 1 $catalogue / recover 2 1 / 0 / elv 55,13 ; taken 0 13 1 ; row a 1 int 5 ; end 0
row bytes / stream 2 2 1 $catalogue/$wide / recover 2 1 / 0 / elv 0,55 ; taken 1 13 1 ; row a 1 int 5 ; end 0
# Formats agree: the lowest born stream asks. Another format comes before another number of streams, and before all records.
row stream 1 2 0 $catalogue/$first / stream 2 2 1 $catalogue / recover 2 1 / 7 / fault 7 1 format 1 2
row stream 1 2 0 $catalogue/$wide / stream 2 3 1 $catalogue / recover 2 1 / 7 / fault 7 1 format 1 2
row stream 2 2 0 $catalogue/$wide / stream 1 2 1 $catalogue / recover 2 1 / 7 / fault 7 1 format 2 1
# Call 1 puts 5 into row 1 and waits for stream 1 up to 53; after it call 3 puts 7 into row 3. Call 2 puts 6 into row 2.
$waiting 01 00000030 0000000000000001 00000000 0002 0000000000000035 0001 0000 0000000000000001 01 0000000000000005 01 00000028 0000000000000003 00000000 0000 0001 0000 0000000000000003 01 0000000000000007
$apart 01 00000028 0000000000000002 00000000 0000 0001 0000 0000000000000002 01 0000000000000006
row stream 1 2 0 $catalogue/$waiting / stream 1 2 1 $catalogue/$apart / recover 2 3 / 0 / elv 101,53 ; taken 0 13 1 ; taken 0 61 3 ; taken 1 13 2 ; row a 1 int 5 ; row a 2 int 6 ; row a 3 int 7 ; end 0
# An uncovered record before a covered one: stream 1 ends at 13; call 3, after call 1 in stream 0, waits for nothing.
row stream 1 2 0 $catalogue/$waiting / stream 1 2 1 $catalogue / recover 2 1 / 0 / elv 101,13 ; taken 0 61 3 ; row a 3 int 7 ; end 0
row stream 1 2 0 $catalogue/$waiting / stream 1 2 1 $catalogue / recover 2 3 / 0 / elv 101,13 ; taken 0 61 3 ; row a 3 int 7 ; end 0
# A dependence: call 2 puts 7 into row 1, and waits for call 1.
$second 01 00000030 0000000000000002 00000000 0001 0000000000000035 0001 0000 0000000000000001 01 0000000000000007
row stream 1 2 0 $catalogue / stream 1 2 1 $catalogue/$second / recover 2 1 / 0 / elv 13,61 ; end 0
row stream 1 2 0 $catalogue/$first / stream 1 2 1 $catalogue / recover 2 1 / 0 / elv 53,13 ; taken 0 13 1 ; row a 1 int 5 ; end 0
row stream 1 2 0 $catalogue/$first / stream 1 2 1 $catalogue/$second / recover 2 1 / 0 / elv 53,61 ; taken 0 13 1 ; taken 1 13 2 ; row a 1 int 7 ; end 0
row stream 1 2 0 $catalogue/$first / stream 1 2 1 $catalogue/$second / recover 2 2 / 0 / elv 53,61 ; taken 0 13 1 ; taken 1 13 2 ; row a 1 int 7 ; end 0
row stream 1 2 0 $catalogue/$first / stream 1 2 1 $catalogue/$second / recover 2 16 / 0 / elv 53,61 ; taken 0 13 1 ; taken 1 13 2 ; row a 1 int 7 ; end 0
row stream 1 2 0 $catalogue / stream 1 2 1 $catalogue/$apart / recover 2 2 / 0 / elv 13,53 ; taken 1 13 2 ; row a 2 int 6 ; end 0
# Each of two records waits for the other's stream.
$second_waits 01 00000030 0000000000000002 00000000 0001 000000000000003d 0001 0000 0000000000000002 01 0000000000000006
row stream 1 2 0 $catalogue/$first_waits / stream 1 2 1 $catalogue/$second_waits / recover 2 1 / 7 / fault 7 0 tangled 13
row stream 1 2 0 $catalogue/$first_waits / stream 1 2 1 $catalogue/$second_waits / recover 2 2 / 7 / fault 7 0 tangled 13
# Two streams without a byte.
row bytes / bytes / recover 2 1 / 0 / elv 0,0 ; end 0

== records wait for what an anchor names
# An anchor of three streams, and after it call 1, which names it and has no component of its own.
$anchored 03 0000001d 000000000000000d 000000000000000d 0000000000000035 01 00000028 0000000000000001 00000001 0000 0001 0000 0000000000000001 01 0000000000000005
# Call 2 of three streams, which waits for all of them.
$waits_for_all 01 00000040 0000000000000002 00000000 0007 0000000000000052 000000000000000d 0000000000000035 0001 0000 0000000000000001 01 0000000000000007
# Call 3 puts 9 into row 3.
$third 01 00000028 0000000000000003 00000000 0000 0001 0000 0000000000000003 01 0000000000000009
new
disk 0 stream 1 3 0 $catalogue / $anchored
disk 1 stream 1 3 1 $catalogue / $waits_for_all
disk 2 stream 1 3 2 $catalogue / $third
> recover 3 1
= 0
< elv 82,77,53 ; taken 0 42 1 ; taken 1 13 2 ; taken 2 13 3 ; row a 1 int 7 ; row a 3 int 9 ; end 0
disk 2 stream 1 3 2 $catalogue
> recover 3 1
= 0
< elv 82,77,13 ; end 0

== of seventeen streams the last one alone is born
new
disk 16 stream 2 17 16 $catalogue / $wide
> recover 17 3
= 0
< elv 0,0,0,0,0,0,0,0,0,0,0,0,0,0,0,0,55 ; taken 16 13 1 ; row a 1 int 5 ; end 0

== a disk that fails comes before a bad image
# The first byte of stream 0 is none of a log's.
new
disk 0 stream 1 2 0 $catalogue / $first
change 0 0 1 00
failing 1 %1
> recover 2 1
= %2
< %3
row 3 / 7 / fault 7 0 image 1
row 1 / 6 / fault 6 1
row 2 / 6 / fault 6 1

== a disk that fails
new
failing 1 1
> recover 2 2
= 6
< fault 6 1
";

#[test]
fn recoveries_of_images(rt: HostRuntime) -> Result<(), Fail> {
    play(&rt, rt.alloc(), SCENES)
}
