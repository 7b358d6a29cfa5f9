//! Audits that are refused: by their words, their source, their disks and their sink.
use crate::scenes::play;
use std::test::*;

static SCENES: &str = "
== words that are none
new
> %1
= 2
< fault 2
row audit 2
row audit 0 1
row audit 33 1
row audit 1 0
row audit 1 33
row audit 1 1 1

== the first bad line of a workload comes before any of its report, and no disk is asked
# The catalogue `table a`, of 13 bytes.
$catalogue 04 0000000d 7461626c6520610a
# Call 1 puts 5 into row 1.
$first 01 00000028 0000000000000001 00000000 0000 0001 0000 0000000000000001 01 0000000000000005
# Call 2 puts 7 into row 1, and waits for call 1.
$second 01 00000030 0000000000000002 00000000 0001 0000000000000035 0001 0000 0000000000000001 01 0000000000000007
new
disk 0 stream 1 2 0 $catalogue / $first
disk 1 stream 1 2 1 $catalogue / $second
> audit 2 2
| table a ; put b 1 5
= 3
< fault 3 2 3
> audit 2 2
| table a ; put b 1 5 ; report
= 3
< fault 3 2 3
> audit 2 2
| table a ; put b 1 5 ; report ; unrun 1 ; end 0
= 3
< fault 3 2 3
> audit 2 2
| table a ; proc p 0 ; report ; end 0
= 3
< fault 3 2 9
> audit 2 2
| table a ; get a
|- report
= 3
< fault 3 2 8
idle

== a report begins after the first line that is exactly `report`, and its lines are counted from there; no disk is asked
new
disk 0 stream 1 2 0 $catalogue / $first
disk 1 stream 1 2 1 $catalogue / $second
> audit 2 2
= 11
< fault 11 0
> audit 2 2
| table a ; put a 1 5
= 11
< fault 11 0
> audit 2 2
| table a ; put a 1 \"report\" ; #report
= 11
< fault 11 0
> audit 2 2
|- report
= 11
< fault 11 1
> audit 2 2
| report
= 11
< fault 11 1
> audit 2 2
| table a ; report ; report ; end 0
= 11
< fault 11 1
> audit 2 2
| table a ; put a 1 5 ; report ; unrun 1
= 11
< fault 11 2
> audit 2 2
| table a ; put a 1 5 ; report ; unrun 1
|- end 0
= 11
< fault 11 2
> audit 2 2
| table a ; put a 1 5 ; report ; end 0
= 11
< fault 11 1
> audit 2 2
| table a ; put a 1 5 ; report ; unrun 1 ; end 0
|
= 11
< fault 11 3
> audit 2 2
| table a ; put a 1 5 ; report ; unrun 2 ; end 0
= 11
< fault 11 1
> audit 2 2
| table a ; put a 1 5 ; report ; ack 2 53,0 ; unrun 1 ; end 0
= 11
< fault 11 1
> audit 2 2
| table a ; put a 1 5 ; report ; ack 1 53 ; unrun 1 ; end 0
= 11
< fault 11 1
> audit 2 2
| table a ; put a 1 5 ; report ; ack 1 53,0 ; ack 1 53,0 ; unrun 1 ; end 0
= 11
< fault 11 2
> audit 2 2
| table a ; put a 1 5 ; report ; unrun 1 ; row b 1 int 5 ; end 0
= 11
< fault 11 2
> audit 2 2
| table a ; put a 1 5 ; report ; unrun 1 ; end 6 2
= 11
< fault 11 2
idle

== a source that fails
new
> audit 2 2
| report ; end 0
source 1
= 4
< fault 4
idle

== images that hold no log are refused only once the report was read, and a disk that fails comes before them
new
disk 0 bytes 000000000000000000000000000000000000
> audit 2 2
| report
= 11
< fault 11 1
had 0 0
> audit 2 2
| report ; end 0
= 7
< fault 7 0 image 1
new
disk 0 bytes 000000000000000000000000000000000000
failing 1 1
> audit 2 2
| report ; end 0
= 6
< fault 6 1

== a sink that fails, and the same with one that does not
new
> audit 2 2
| report ; end 0
sink 1
= 5
> audit 2 2
| report ; end 0
= 0
< audit yes ; end 0
";

#[test]
fn refused_audits(rt: HostRuntime) -> Result<(), Fail> {
    play(&rt, rt.alloc(), SCENES)
}
