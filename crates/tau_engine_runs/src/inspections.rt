//! Inspections: a line for each record, of images that were worked out by hand, and of what runs have left.
use crate::scenes::play;
use std::test::*;

static SCENES: &str = "
== a dependence that is lost, one that is not, and records that wait for each other, on which recovery gets stuck
# The catalogue `table a`, of 13 bytes.
$catalogue 04 0000000d 7461626c6520610a
# Call 1 puts 5 into row 1.
$first 01 00000028 0000000000000001 00000000 0000 0001 0000 0000000000000001 01 0000000000000005
# Call 2 puts 7 into row 1, and waits for call 1.
$second 01 00000030 0000000000000002 00000000 0001 0000000000000035 0001 0000 0000000000000001 01 0000000000000007
# Call 1 puts 5 into row 1, and waits for call 2.
$first_waits 01 00000030 0000000000000001 00000000 0002 000000000000003d 0001 0000 0000000000000001 01 0000000000000005
# Call 2 puts 6 into row 2, and waits for call 1 of a stream of that length.
$second_waits 01 00000030 0000000000000002 00000000 0001 000000000000003d 0001 0000 0000000000000002 01 0000000000000006
new
disk 0 stream 1 2 0 %1
disk 1 stream 1 2 1 %2
> inspect 2
= 0
< %3
row $catalogue / $catalogue/$second / elv 13,61 ; catalogue 0 0 13 ; catalogue 1 0 13 ; data 1 13 61 2 53,0 out 0 ; end 0
row $catalogue/$first / $catalogue/$second / elv 53,61 ; catalogue 0 0 13 ; data 0 13 53 1 0,0 taken ; catalogue 1 0 13 ; data 1 13 61 2 53,0 taken ; end 0
row $catalogue/$first_waits / $catalogue/$second_waits / elv 61,61 ; catalogue 0 0 13 ; data 0 13 61 1 0,61 taken ; catalogue 1 0 13 ; data 1 13 61 2 61,0 taken ; end 0

== a record of a call
# Call 1 as `put a 1 5`.
$command 02 00000031 0000000000000001 00000000 0000 000003010000000000000000010000000000000001010000000000000005
new
disk 0 stream 1 1 0 $catalogue / $command
> inspect 1
= 0
< elv 62 ; catalogue 0 0 13 ; command 0 13 62 1 0 taken ; end 0

== a log of format 2
# Call 1 puts 5 into row 1, in format 2.
$wide 01 0000002a 0000000000000001 00000000 00000000 0001 0000 0000000000000001 01 0000000000000005
new
disk 0 stream 2 2 0 $catalogue / $wide
disk 1 stream 2 2 1 $catalogue
> inspect 2
= 0
< elv 55,13 ; catalogue 0 0 13 ; data 0 13 55 1 0,0 taken ; catalogue 1 0 13 ; end 0

== streams that hold nothing
new
> inspect 1
= 0
< elv 0 ; end 0
new
> inspect 32
= 0
< elv 0,0,0,0,0,0,0,0,0,0,0,0,0,0,0,0,0,0,0,0,0,0,0,0,0,0,0,0,0,0,0,0 ; end 0

== call 1 is raised to an anchor, and waits for nothing but what that names
new
> run 3 3
| table a ; put a 1 5 ; add a 1 2 ; put a 3 9 ; turns w2 w2 w2 w2 w2 m2 a0 w0 w0 w0 w0 w0
= 0
count 1 end 0
> inspect 3
= 0
< elv 82,77,53 ; catalogue 0 0 13 ; anchor 0 13 42 13,13,53 ; data 0 42 82 1 13,13,53 taken ; catalogue 1 0 13 ; data 1 13 77 2 82,13,53 taken ; catalogue 2 0 13 ; data 2 13 53 3 0,0,0 taken ; end 0

== the record that was left out before an epoch stays out, though its vector is covered by now
new
disk 0 stream 1 2 0 $catalogue
disk 1 stream 1 2 1 $catalogue / $second
> run 2 1
| table a ; put a 7 1
= 0
count 1 end 0
> inspect 2
= 0
< elv 94,86 ; catalogue 0 0 13 ; epoch 0 13 38 1 13,61 ; data 0 38 94 1 13,61 taken ; catalogue 1 0 13 ; data 1 13 61 2 53,0 out 0 ; epoch 1 61 86 1 13,61 ; end 0

== images that hold no log, which stay what they are
new
disk 0 bytes 000000000000000000000000000000000000
> inspect 1
= 7
< fault 7 0 image 1
> inspect 2
= 7
< fault 7 0 image 1
held 0 bytes 000000000000000000000000000000000000

== a disk that fails comes before an image that is bad
new
disk 0 bytes 000000000000000000000000000000000000
failing 1 %1
> inspect 2
= 6
< fault 6 1
had 1 %1
row 1
row 2

== the whole text goes out at once, or a first part of it if the sink fails; a disk is read, and nothing is put on it
new
disk 0 stream 1 2 0 $catalogue / $first
disk 1 stream 1 2 1 $catalogue / $second
> inspect 2
sink 1
= 5
had 0 2
had 1 2
had 2 0

== words that are none
new
> %1
= 2
< fault 2
row inspect
row inspect 0
row inspect 33
row inspect 2 2
";

#[test]
fn a_line_for_each_record(rt: HostRuntime) -> Result<(), Fail> {
    play(&rt, rt.alloc(), SCENES)
}
