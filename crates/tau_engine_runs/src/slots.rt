//! Checkpoints that are made and recovered with, slots that hold other ones than the program writes, and checkpoints between runs that go
//! on from one another.
use crate::scenes::play;
use std::test::*;

static SCENES: &str = "
== the bytes of a checkpoint
# The gate, the words, two streams, slot 0, 55 bytes of body: number 1, epoch 0, (53,61), one row, a 1 int 7.
$checkpoint 01 5441555255532d434b502d31 0002 0000 0000000000000037 0000000000000001 00000000 0000000000000035 000000000000003d 0000000000000001 0000 0000000000000001 01 0000000000000007
# A run of two calls, and a checkpoint after it.
part run > run 2 2
part run | table a ; put a 1 5 ; add a 1 2 ; turns w0 w0 w0 w0 w0
part run = 0
part run < ack 1 53,0 ; ack 2 53,61 ; reply 1 none ; reply 2 int 7 ; order 1 ; order 2 ; row a 1 int 7 ; end 0
part save > checkpoint 2 1
part save = 0
part save < checkpoint 1 0 1 ; end 0
# What recovery tells that takes no checkpoint, and one that takes the first.
part on_none > restore 2 1
part on_none = 0
part on_none < base 0 ; elv 53,61 ; taken 0 13 1 ; taken 1 13 2 ; row a 1 int 7 ; end 0
part on_the_first > restore 2 1
part on_the_first = 0
part on_the_first < base 1 ; elv 53,61 ; taken 0 13 1 ; taken 1 13 2 ; row a 1 int 7 ; end 0
new
do run
do save
held 32 bytes $checkpoint

== the rows are those of the checkpoint
new
do run
do save
change 32 79 80 09
> restore 2 1
= 0
< base 1 ; elv 53,61 ; taken 0 13 1 ; taken 1 13 2 ; row a 1 int 9 ; end 0

== slots take turns: the second goes to the other slot, the third to that of the smaller number
new
do run
do save
> checkpoint 2 3
= 0
< checkpoint 2 1 1 ; end 0
> checkpoint 2 1
= 0
< checkpoint 3 0 1 ; end 0
> restore 2 2
= 0
< base 3 ; elv 53,61 ; taken 0 13 1 ; taken 1 13 2 ; row a 1 int 7 ; end 0

== a slot whose disk fails is named, whatever the command
new
do run
failing %1 1
> restore 2 1
= 6
< fault 6 %1
failing %1 1
> checkpoint 2 1
= 6
< fault 6 %1
row 32
row 33

== the disk of a stream comes before that of a slot, and both before a fault of the log
# The bytes `no image of a stream`.
new
disk 0 bytes 6e6f20696d616765206f6620612073747265616d
> checkpoint 2 1
= 7
< fault 7 0 image 1
> restore 2 1
= 7
< fault 7 0 image 1
failing 33 1
> checkpoint 2 1
= 6
< fault 6 33
failing 33 1
failing 1 1
> restore 2 1
= 6
< fault 6 1

== byte 25 is the first of the number, of which 2^62 - 1 is the last one
new
do run
do save
change 32 25 33 3fffffffffffffff
> checkpoint 2 1
= 7
< fault 7 32 last

== a vector past the log and an epoch above the known ones do not fit, but they hold a slot
new
do run
do save
change 32 44 45 36
do on_none
change 32 44 45 35
change 32 36 37 01
do on_none
> checkpoint 2 1
= 0
< checkpoint 2 1 1 ; end 0

== a gate that is neither 0 nor 1 is closed: the slot holds none, and is written first
new
do run
do save
change 32 0 1 07
do on_none
do save
do on_the_first

== a checkpoint of three streams, of which a log of two takes nothing; the next one is written to the other slot
new
do run
disk 32 bytes $checkpoint:0:53 0000000000000000 $checkpoint:53:80
change 32 14 15 03
change 32 24 25 3f
do on_none
> checkpoint 2 1
= 0
< checkpoint 2 1 1 ; end 0

== what stands after the body does not count; a body that is cut is none
# The bytes `what a longer one left`.
new
do run
disk 32 bytes $checkpoint 776861742061206c6f6e676572206f6e65206c656674
do on_the_first
disk 32 bytes $checkpoint:0:79
do on_none

== of two with one number the first is taken, and written over by the next; each slot takes its own index alone
new
do run
disk 33 bytes $checkpoint
change 33 79 80 09
do on_none
change 33 16 17 01
> restore 2 1
= 0
< base 1 ; elv 53,61 ; taken 0 13 1 ; taken 1 13 2 ; row a 1 int 9 ; end 0
disk 32 bytes $checkpoint
do on_the_first
> checkpoint 2 1
= 0
< checkpoint 2 0 1 ; end 0

== what is no image of a slot is no error
# Nothing, `x`, and `no image of a checkpoint, however long it is`.
new
do run
disk 33 bytes
do on_none
disk 33 bytes 78
do on_none
disk 33 bytes 6e6f20696d616765206f66206120636865636b706f696e742c20686f7765766572206c6f6e67206974206973
do on_none

== after each of ten runs a checkpoint is written, and after each third, from the first, two of them
# Recovery with a checkpoint tells what recovery tells, after its first line.
part alike > recover 2 1
part alike = 0
part alike keep
part alike > restore 2 1
part alike = 0
part alike kept base
# Runs that go on from what the disks hold, and checkpoints.
part more > run 2 1
part more | table a ; add a 1 1 ; add a 2 3
part more = 0
part more count 1 end 0
part command > run 2 2 command
part command | table a ; add a 1 1 ; add a 2 3
part command = 0
part command count 1 end 0
part again > checkpoint 2 1
part again = 0
part again count 1 end 0
part wider > checkpoint 2 2
part wider = 0
part wider count 1 end 0
new
do run
do more
do alike
do again
do wider
do alike
do command
do alike
do again
do alike
do more
do alike
do again
do alike
do command
do alike
do again
do wider
do alike
do more
do alike
do again
do alike
do command
do alike
do again
do alike
do more
do alike
do again
do wider
do alike
do command
do alike
do again
do alike
do more
do alike
do again
do alike
do command
do alike
do again
do wider
do alike
# Ten checkpoints, four second ones, and one more.
> checkpoint 2 1
= 0
< checkpoint 15 0 2 ; end 0

== a checkpoint of empty streams stays true for what comes after it
new
> checkpoint 2 1
= 0
< checkpoint 1 0 0 ; end 0
> restore 2 1
= 0
< base 1 ; elv 0,0 ; end 0
do more
do alike

== a run goes on after a checkpoint
new
do run
do save
> run 2 1
| table a ; add a 1 1
= 0
< ack 1 134,61 ; reply 1 int 8 ; order 1 ; row a 1 int 8 ; end 0
> restore 2 1
= 0
< base 1 ; elv 134,86 ; taken 0 13 1 ; taken 0 78 1 ; taken 1 13 2 ; row a 1 int 8 ; end 0
change 32 0 1 00
> restore 2 1
= 0
< base 0 ; elv 134,86 ; taken 0 13 1 ; taken 0 78 1 ; taken 1 13 2 ; row a 1 int 8 ; end 0
";

#[test]
fn checkpoints_and_what_slots_hold(rt: HostRuntime) -> Result<(), Fail> {
    play(&rt, rt.alloc(), SCENES)
}
