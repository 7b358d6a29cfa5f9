//! Refusals, and calls of source, sink and disks that fail.
use crate::scenes::play;
use std::test::*;

static SCENES: &str = "
== words of no command
new
> %1
= 2
< fault 2
row run 0 1
row run 1 0
row run 17 1
row run 1 17
row run 2
row run 02 1
row run +2 1
row run 2 1 values
row run 2 1 data data
row run 2 2 wide optimistic
row run 2 2 optimistic data
row run 2 2 optimistic optimistic
row recover 33 1
row recover 1 17
row recover 1 0
row --help
row bench 7 0 4
# Format 1 has room for 16 streams and workers, format 2 for 32.
row run 33 1 wide
row run 1 33 wide
row run 0 1 wide

== no word
new
>
= 2
< fault 2

== words of runs
new
> %1
= 0
< end 0
row run 1 1
row run 16 1
row run 1 16
row run 16 16 data
row run 3 5 command
row run 1 1 optimistic
row run 16 16 data optimistic
row run 32 32 command optimistic wide
row run 17 17 wide
row run 32 32 data wide

== the line of a text that is bad first, and its cause
new
> run 2 1
| table a
| %1
= 3
< %2
row put b 1 5 / fault 3 2 3
row put a 9223372036854775808 1 / fault 3 2 5
row proc p 0 / fault 3 2 9
row get a / fault 3 2 8
row put a 1 5 ; put b 1 5 ; put a 01 5 / fault 3 3 3
# A text has 64 bytes at most.
row put a 1 \"aaaaaaaabbbbbbbbccccccccddddddddeeeeeeeeffffffffgggggggghhhhhhhhi\" / fault 3 2 7

== a put of a text of 64 bytes: its record takes 98 bytes
new
> run 2 1
| table a ; put a 1 \"aaaaaaaabbbbbbbbccccccccddddddddeeeeeeeeffffffffgggggggghhhhhhhh\"
= 0
< ack 1 111,0 ; reply 1 none ; order 1 ; row a 1 text \"aaaaaaaabbbbbbbbccccccccddddddddeeeeeeeeffffffffgggggggghhhhhhhh\" ; end 0

== a text of 2 ^ 24 bytes is read, and its line is bad; with one byte more it is too long
part longest repeat 0 65536 xxxxxxxxxxxxxxxxxxxxxxxxxxxxxxxxxxxxxxxxxxxxxxxxxxxxxxxxxxxxxxxxxxxxxxxxxxxxxxxxxxxxxxxxxxxxxxxxxxxxxxxxxxxxxxxxxxxxxxxxxxxxxxxxxxxxxxxxxxxxxxxxxxxxxxxxxxxxxxxxxxxxxxxxxxxxxxxxxxxxxxxxxxxxxxxxxxxxxxxxxxxxxxxxxxxxxxxxxxxxxxxxxxxxxxxxxxxxxxxxxxxxxxxxxxxxxxxx
new
> run 2 1
do longest
= 3
< fault 3 1 2
idle
> run 2 1
do longest
|- x
= 9
< fault 9
idle

== a source that fails
new
> run 2 1
| table a ; get b 1
source %1
= 4
< fault 4
idle
row 1
row 2

== a sink that fails, and the run goes on: the call is durable
new
> run 2 1
| table a ; put a 1 5
sink 1
= 5
> recover 2 1
= 0
< elv 53,13 ; taken 0 13 1 ; row a 1 int 5 ; end 0
new
> run 2 1
| table a ; put a 1 5
sink 2
= 5
< ack 1 53,0
# The sink gets nothing after the call that failed.
new
> run 1 1
| table a ; put a 1 5 ; put a 2 6 ; put a 3 7 ; turns
sink 2
= 5
< ack 1 53
> recover 1 1
= 0
< elv 133 ; taken 0 13 1 ; taken 0 53 2 ; taken 0 93 3 ; row a 1 int 5 ; row a 2 int 6 ; row a 3 int 7 ; end 0

== each call that opens a stream fails in turn, and is the last one of its disk
new
failing %1
> run 2 1
| table a
= 6
< %2
had %1
rows 1 8 0 {k} / fault 6 0
rows 1 8 1 {k} / fault 6 1

== each call of a flush fails in turn
# Two workers put into two streams twice each; the turns flush stream 0, acknowledge, and flush stream 1.
new
failing %1
> run 2 2
| table a ; put a 1 5 ; put a 2 6 ; put a 3 7 ; put a 4 8 ; turns w0 w0 w0 w0 w0 w1 w1 w1 w1 w1 m0 c m1
= 6
< %2
> recover 2 2
= 0
< %3
@early_1 ack 1 53,0 ; reply 1 none ; unsure 2 none ; unrun 3 ; unrun 4 ; order 1 ; order 2 ; row a 1 int 5 ; row a 2 int 6 ; end 6 1
@late_1 ack 1 53,0 ; ack 2 0,53 ; ack 3 93,0 ; reply 1 none ; reply 2 none ; reply 3 none ; unsure 4 none ; order 1 ; order 3 ; order 2 ; order 4 ; row a 1 int 5 ; row a 2 int 6 ; row a 3 int 7 ; row a 4 int 8 ; end 6 1
@early_0 ack 2 0,53 ; unsure 1 none ; reply 2 none ; unrun 3 ; unrun 4 ; order 1 ; order 2 ; row a 1 int 5 ; row a 2 int 6 ; end 6 0
@late_0 ack 1 53,0 ; ack 2 0,53 ; ack 4 0,93 ; reply 1 none ; reply 2 none ; unsure 3 none ; reply 4 none ; order 1 ; order 3 ; order 2 ; order 4 ; row a 1 int 5 ; row a 2 int 6 ; row a 3 int 7 ; row a 4 int 8 ; end 6 0
@first elv 53,13 ; taken 0 13 1 ; row a 1 int 5 ; end 0
@second elv 13,53 ; taken 1 13 2 ; row a 2 int 6 ; end 0
@both elv 53,53 ; taken 0 13 1 ; taken 1 13 2 ; row a 1 int 5 ; row a 2 int 6 ; end 0
@three_1 elv 93,53 ; taken 0 13 1 ; taken 0 53 3 ; taken 1 13 2 ; row a 1 int 5 ; row a 2 int 6 ; row a 3 int 7 ; end 0
@three_0 elv 53,93 ; taken 0 13 1 ; taken 1 13 2 ; taken 1 53 4 ; row a 1 int 5 ; row a 2 int 6 ; row a 4 int 8 ; end 0
@all elv 93,93 ; taken 0 13 1 ; taken 0 53 3 ; taken 1 13 2 ; taken 1 53 4 ; row a 1 int 5 ; row a 2 int 6 ; row a 3 int 7 ; row a 4 int 8 ; end 0
row 1 8 / @early_1 / @first
row 1 9 / @early_1 / @first
row 1 10 / @early_1 / @first
row 1 11 / @early_1 / @both
row 1 12 / @late_1 / @three_1
row 1 13 / @late_1 / @three_1
row 1 14 / @late_1 / @three_1
row 1 15 / @late_1 / @all
row 0 8 / @early_0 / @second
row 0 9 / @early_0 / @second
row 0 10 / @early_0 / @second
row 0 11 / @early_0 / @both
row 0 12 / @late_0 / @three_0
row 0 13 / @late_0 / @three_0
row 0 14 / @late_0 / @three_0
row 0 15 / @late_0 / @all

== the second flush fails
new
failing 0 13
> run 2 1
| table a ; put a 1 5 ; put a 2 6 ; put a 3 7 ; turns
= 6
< ack 1 53,0 ; reply 1 none ; unsure 2 none ; unrun 3 ; order 1 ; order 2 ; row a 1 int 5 ; row a 2 int 6 ; end 6 0
had 0 13

== no anchor behind a failed disk
# The anchor of stream 1 holds two positions, in 5 + 16 bytes; stream 0 gets none.
new
failing 0 9
> run 2 2
| table a ; put a 1 5 ; put a 2 6 ; turns w0 w0 w0 w0 w0 m0 a0 m0 a1 m1
= 6
< unsure 1 none ; unrun 2 ; order 1 ; row a 1 int 5 ; end 6 0
had 0 9
> recover 2 1
= 0
< elv 13,34 ; end 0

== of two failed disks the lower one is named
new
failing 0 10
failing 1 8
> run 2 2
| table a ; put a 1 5 ; put a 2 6 ; put a 3 7 ; turns w0 w0 w0 w0 w0 w1 w1 w1 w1 w1 m1 m0
= 6
< unsure 1 none ; unsure 2 none ; unrun 3 ; order 1 ; order 2 ; row a 1 int 5 ; row a 2 int 6 ; end 6 0
had 0 10
had 1 8
";

#[test]
fn refusals_and_faults(rt: HostRuntime) -> Result<(), Fail> {
    play(&rt, rt.alloc(), SCENES)
}
