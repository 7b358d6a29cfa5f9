//! Pieces that the program is fed.
use crate::scenes::play;
use std::test::*;

static SCENES: &str = "
== both are applied when the first comes
# The catalogue `table a`, of 13 bytes.
$catalogue 04 0000000d 7461626c6520610a
# Of two streams, stream 0: the catalogue, and at 13 call 1, which puts 5 into row 1, with the vector (0,0).
$first 04 0000000d 7461626c6520610a 01 00000028 0000000000000001 00000000 0000 0001 0000 0000000000000001 01 0000000000000005
# Stream 1: at 13 call 2, which puts 7 into row 1, with the vector (53,0).
$second 04 0000000d 7461626c6520610a 01 00000030 0000000000000002 00000000 0001 0000000000000035 0001 0000 0000000000000001 01 0000000000000007
new
> follow 2
piece 1 $second
piece 0 $first:0:13
piece 0 $first:13:53
= 0
< applied 0 ; applied 0 ; applied 2 ; elv 53,61 ; taken 0 13 1 ; taken 1 13 2 ; row a 1 int 7 ; end 0

== what waits for the missing record is left
new
> follow 2
piece 1 $second
piece 0 $catalogue
= 0
< applied 0 ; applied 0 ; elv 13,61 ; end 0

== of nothing fed nothing is applied
new
> follow 2
= 0
< elv 0,0 ; end 0

== byte by byte it gives the text of recovery
# Of three streams, stream 0: at 13 the anchor (13,13,53), and at 42 call 1, which puts 5 into row 1, with the same vector. Stream 1: at 13
# call 2, which puts 7 into row 1, with the vector (82,13,53). Stream 2: at 13 call 3, which puts 9 into row 3, with the vector (0,0,0).
# A byte of each stream in turn, as long as it has one, each behind the head of a piece of one byte.
$0 00 00000001
$1 01 00000001
$2 02 00000001
new
> follow 3
+ $0 04 $1 04 $2 04
+ $0 00 $1 00 $2 00
+ $0 00 $1 00 $2 00
+ $0 00 $1 00 $2 00
+ $0 0d $1 0d $2 0d
+ $0 74 $1 74 $2 74
+ $0 61 $1 61 $2 61
+ $0 62 $1 62 $2 62
+ $0 6c $1 6c $2 6c
+ $0 65 $1 65 $2 65
+ $0 20 $1 20 $2 20
+ $0 61 $1 61 $2 61
+ $0 0a $1 0a $2 0a
+ $0 03 $1 01 $2 01
+ $0 00 $1 00 $2 00
+ $0 00 $1 00 $2 00
+ $0 00 $1 00 $2 00
+ $0 1d $1 40 $2 28
+ $0 00 $1 00 $2 00
+ $0 00 $1 00 $2 00
+ $0 00 $1 00 $2 00
+ $0 00 $1 00 $2 00
+ $0 00 $1 00 $2 00
+ $0 00 $1 00 $2 00
+ $0 00 $1 00 $2 00
+ $0 0d $1 02 $2 03
+ $0 00 $1 00 $2 00
+ $0 00 $1 00 $2 00
+ $0 00 $1 00 $2 00
+ $0 00 $1 00 $2 00
+ $0 00 $1 00 $2 00
+ $0 00 $1 07 $2 00
+ $0 00 $1 00 $2 00
+ $0 0d $1 00 $2 01
+ $0 00 $1 00 $2 00
+ $0 00 $1 00 $2 00
+ $0 00 $1 00 $2 00
+ $0 00 $1 00 $2 00
+ $0 00 $1 00 $2 00
+ $0 00 $1 52 $2 00
+ $0 00 $1 00 $2 00
+ $0 35 $1 00 $2 00
+ $0 01 $1 00 $2 00
+ $0 00 $1 00 $2 03
+ $0 00 $1 00 $2 01
+ $0 00 $1 00 $2 00
+ $0 28 $1 00 $2 00
+ $0 00 $1 0d $2 00
+ $0 00 $1 00 $2 00
+ $0 00 $1 00 $2 00
+ $0 00 $1 00 $2 00
+ $0 00 $1 00 $2 00
+ $0 00 $1 00 $2 09
+ $0 00 $1 00
+ $0 01 $1 00
+ $0 00 $1 35
+ $0 00 $1 00
+ $0 00 $1 01
+ $0 01 $1 00
+ $0 00 $1 00
+ $0 00 $1 00
+ $0 00 $1 00
+ $0 01 $1 00
+ $0 00 $1 00
+ $0 00 $1 00
+ $0 00 $1 00
+ $0 00 $1 00
+ $0 00 $1 01
+ $0 00 $1 01
+ $0 00 $1 00
+ $0 00 $1 00
+ $0 00 $1 00
+ $0 01 $1 00
+ $0 01 $1 00
+ $0 00 $1 00
+ $0 00 $1 00
+ $0 00 $1 07
+ $0 00
+ $0 00
+ $0 00
+ $0 00
+ $0 05
= 0
# The last of 159 bytes is the end of call 3; the last of all is the end of call 1, which call 2 waits for.
< applied 0 ; applied 0 ; applied 0 ; applied 0 ; applied 0 ; applied 0 ; applied 0 ; applied 0 ; applied 0 ; applied 0
< applied 0 ; applied 0 ; applied 0 ; applied 0 ; applied 0 ; applied 0 ; applied 0 ; applied 0 ; applied 0 ; applied 0
< applied 0 ; applied 0 ; applied 0 ; applied 0 ; applied 0 ; applied 0 ; applied 0 ; applied 0 ; applied 0 ; applied 0
< applied 0 ; applied 0 ; applied 0 ; applied 0 ; applied 0 ; applied 0 ; applied 0 ; applied 0 ; applied 0 ; applied 0
< applied 0 ; applied 0 ; applied 0 ; applied 0 ; applied 0 ; applied 0 ; applied 0 ; applied 0 ; applied 0 ; applied 0
< applied 0 ; applied 0 ; applied 0 ; applied 0 ; applied 0 ; applied 0 ; applied 0 ; applied 0 ; applied 0 ; applied 0
< applied 0 ; applied 0 ; applied 0 ; applied 0 ; applied 0 ; applied 0 ; applied 0 ; applied 0 ; applied 0 ; applied 0
< applied 0 ; applied 0 ; applied 0 ; applied 0 ; applied 0 ; applied 0 ; applied 0 ; applied 0 ; applied 0 ; applied 0
< applied 0 ; applied 0 ; applied 0 ; applied 0 ; applied 0 ; applied 0 ; applied 0 ; applied 0 ; applied 0 ; applied 0
< applied 0 ; applied 0 ; applied 0 ; applied 0 ; applied 0 ; applied 0 ; applied 0 ; applied 0 ; applied 0 ; applied 0
< applied 0 ; applied 0 ; applied 0 ; applied 0 ; applied 0 ; applied 0 ; applied 0 ; applied 0 ; applied 0 ; applied 0
< applied 0 ; applied 0 ; applied 0 ; applied 0 ; applied 0 ; applied 0 ; applied 0 ; applied 0 ; applied 0 ; applied 0
< applied 0 ; applied 0 ; applied 0 ; applied 0 ; applied 0 ; applied 0 ; applied 0 ; applied 0 ; applied 0 ; applied 0
< applied 0 ; applied 0 ; applied 0 ; applied 0 ; applied 0 ; applied 0 ; applied 0 ; applied 0 ; applied 0 ; applied 0
< applied 0 ; applied 0 ; applied 0 ; applied 0 ; applied 0 ; applied 0 ; applied 0 ; applied 0 ; applied 0 ; applied 0
< applied 0 ; applied 0 ; applied 0 ; applied 0 ; applied 0 ; applied 0 ; applied 0 ; applied 0
< applied 1 ; applied 1 ; applied 1 ; applied 1 ; applied 1 ; applied 1 ; applied 1 ; applied 1 ; applied 1 ; applied 1
< applied 1 ; applied 1 ; applied 1 ; applied 1 ; applied 1 ; applied 1 ; applied 1 ; applied 1 ; applied 1 ; applied 1
< applied 1 ; applied 1 ; applied 1 ; applied 1 ; applied 1 ; applied 1 ; applied 1 ; applied 1 ; applied 1 ; applied 1
< applied 1 ; applied 1 ; applied 1 ; applied 1 ; applied 1 ; applied 1 ; applied 1 ; applied 1 ; applied 1 ; applied 1
< applied 1 ; applied 1 ; applied 1 ; applied 1 ; applied 1 ; applied 1 ; applied 1 ; applied 1 ; applied 1 ; applied 1
< applied 1 ; applied 1 ; applied 1
< applied 3 ; elv 82,77,53 ; taken 0 42 1 ; taken 1 13 2 ; taken 2 13 3 ; row a 1 int 7 ; row a 3 int 9 ; end 0

== of more than sixteen streams the contents are of format 2
# In format 2, of any number of streams: at 13 call 1, which puts 5 into row 1, with a vector of zeros.
$wide 04 0000000d 7461626c6520610a 01 0000002a 0000000000000001 00000000 00000000 0001 0000 0000000000000001 01 0000000000000005
new
> follow 17
piece 0 $wide
piece 16 $catalogue
= 0
< applied 1 ; applied 1 ; elv 55,0,0,0,0,0,0,0,0,0,0,0,0,0,0,0,13 ; taken 0 13 1 ; row a 1 int 5 ; end 0
> follow 16
piece 15 $first
= 0
< applied 1 ; elv 0,0,0,0,0,0,0,0,0,0,0,0,0,0,0,53 ; taken 15 13 1 ; row a 1 int 5 ; end 0

== stream 1 has a record that the epoch leaves out, whenever it comes: the epoch after it, and before it
# Epoch 1 with the vector (13,61).
$epoch 05 00000019 00000001 000000000000000d 000000000000003d
# Call 1 of the run of that epoch puts 1 into row 7, at 38 of stream 0 with the vector (13,61).
$later 01 00000038 0000000000000001 00000000 0003 000000000000000d 000000000000003d 0001 0000 0000000000000007 01 0000000000000001
new
> follow 2
piece 1 $second
piece 0 $catalogue
piece 0 $epoch
piece 0 $later
piece 1 $epoch
= 0
< applied 0 ; applied 0 ; applied 0 ; applied 1 ; applied 1 ; elv 94,86 ; taken 0 38 1 ; row a 7 int 1 ; end 0
> follow 2
piece 0 $catalogue
piece 0 $epoch
piece 0 $later
piece 1 $catalogue
piece 1 $second:13:61
piece 1 $epoch
= 0
< applied 0 ; applied 0 ; applied 0 ; applied 0 ; applied 1 ; applied 1 ; elv 94,86 ; taken 0 38 1 ; row a 7 int 1 ; end 0

== an epoch that covers just what is applied, and one that covers one byte less and comes too late
# Epoch 1 with the vector (53,61).
$finds_both 05 00000019 00000001 0000000000000035 000000000000003d
# Epoch 1 with the vector (52,61).
$finds_less 05 00000019 00000001 0000000000000034 000000000000003d
new
> follow 2
piece 0 $first
piece 1 $second
piece 1 $finds_both
= 0
< applied 1 ; applied 2 ; applied 2 ; elv 53,86 ; taken 0 13 1 ; taken 1 13 2 ; row a 1 int 7 ; end 0
> follow 2
piece 0 $first
piece 1 $second
piece 1 $finds_less
= 7
< applied 1 ; applied 2 ; fault 7 1 late 13

== the first stream in two pieces, wherever it is cut, and the other between them
new
> follow 2
piece 0 $first:0:%1
piece 1 $second
piece 0 $first:%1:53
= 0
< applied 0 ; applied 0 ; applied 2 ; elv 53,61 ; taken 0 13 1 ; taken 1 13 2 ; row a 1 int 7 ; end 0
rows 1 53 {k}

== the second stream in two pieces, wherever it is cut, and the other between them
new
> follow 2
piece 1 $second:0:%1
piece 0 $first
piece 1 $second:%1:61
= 0
< applied 0 ; applied 1 ; applied 2 ; elv 53,61 ; taken 0 13 1 ; taken 1 13 2 ; row a 1 int 7 ; end 0
rows 1 61 {k}

== it touches no disk
new
> follow 1
piece 0 04
= 7
< applied 0 ; fault 7 0 record 1 0
idle
";

#[test]
fn what_is_applied(rt: HostRuntime) -> Result<(), Fail> {
    play(&rt, rt.alloc(), SCENES)
}
