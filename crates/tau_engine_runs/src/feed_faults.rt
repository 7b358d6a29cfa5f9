//! What is no piece, and what is no log.
use crate::scenes::play;
use std::test::*;

static SCENES: &str = "
== one byte
new
> follow 2
+ 02
= 10
< fault 10 0

== what stands after a whole piece of 18 bytes, none of it a piece
# The catalogue `table a`, of 13 bytes.
$catalogue 04 0000000d 7461626c6520610a
new
> follow 2
piece 1 $catalogue
+ %1
= 10
< fault 10 18
row 00
row 00000000
row 0000000000
row 000000000004
row 0000000001
row 000000000204
row 020000000104
row 00ffffffff04

== the pieces are looked at before any is fed: a bad record before a bad piece is not told
new
> follow 2
piece 1 09
piece 2 04
piece 3 04
+ 00
= 10
< fault 10 6

== the lines before a bad feed stay
# Of two streams, stream 0: the catalogue, and at 13 call 1, which puts 5 into row 1, with the vector (0,0).
$first 04 0000000d 7461626c6520610a 01 00000028 0000000000000001 00000000 0000 0001 0000 0000000000000001 01 0000000000000005
# Stream 1: at 13 call 2, which puts 7 into row 1, with the vector (53,0).
$second 04 0000000d 7461626c6520610a 01 00000030 0000000000000002 00000000 0001 0000000000000035 0001 0000 0000000000000001 01 0000000000000007
new
> follow 2
piece 0 $first
piece 1 09
piece 1 $second
= 7
< applied 1 ; fault 7 1 record 2 0

== a last record that is not whole
new
> follow 2
piece 1 $second:0:60
piece 0 $first
= 7
< applied 0 ; applied 1 ; fault 7 1 record 1 13

== records that wait for one another
# Of two streams, stream 0: at 13 call 1, which puts 5 into row 1, with the vector (0,61).
$first_waits 04 0000000d 7461626c6520610a 01 00000030 0000000000000001 00000000 0002 000000000000003d 0001 0000 0000000000000001 01 0000000000000005
# Stream 1: at 13 call 2, which puts 7 into row 1, with the vector (61,0).
$second_waits 04 0000000d 7461626c6520610a 01 00000030 0000000000000002 00000000 0001 000000000000003d 0001 0000 0000000000000001 01 0000000000000007
new
> follow 2
piece 0 $first_waits
piece 1 $second_waits
= 7
< applied 0 ; applied 0 ; fault 7 0 tangled 13

== streams declare one thing
# The catalogue `table b`.
$other_table 04 0000000d 7461626c6520620a
new
> follow 2
piece 1 $other_table
piece 0 $catalogue
= 7
< applied 0 ; fault 7 1 catalogue 0 6

== an epoch has one vector
# Epoch 1 with the vector (13,61).
$epoch 05 00000019 00000001 000000000000000d 000000000000003d
# Epoch 1 with the vector (53,61).
$finds_both 05 00000019 00000001 0000000000000035 000000000000003d
new
> follow 2
piece 1 $catalogue
piece 1 $epoch
piece 0 $catalogue
piece 0 $finds_both
= 7
< applied 0 ; applied 0 ; applied 0 ; fault 7 1 epoch 0 1

== a source that fails comes before what it holds
new
> follow 2
+ 02
source 1
= 4
< fault 4

== all is written at once, or nothing of it if the sink fails; a bad log stays the answer, as it is told where the sink does not fail
new
> follow 2
piece 0 $first
sink 1
= 5
> follow 2
piece 0 $first
piece 0 09
= 7
< applied 1 ; fault 7 0 record 2 53
> follow 2
piece 0 $first
piece 0 09
sink 1
= 7
same

== numbers of streams that are none
new
> %1
= 2
< fault 2
row follow 0
row follow 33
row follow 02
row follow
row follow 2 1
";

#[test]
fn feeds_that_are_refused(rt: HostRuntime) -> Result<(), Fail> {
    play(&rt, rt.alloc(), SCENES)
}
