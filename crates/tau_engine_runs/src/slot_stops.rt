//! A stop at each call of a slot, and recovery after it with and without a checkpoint.
use crate::scenes::play;
use std::test::*;

static SCENES: &str = "
== a stop at each call of a slot
# Slot 0 is written first and third, so that its call k is one of both: 8 calls of the first, 4 of the second, which only
# reads it, and 12 of the third.
new
stopping 32 %1
> run 2 2
| table a ; put a 1 5 ; add a 1 2 ; turns w0 w0 w0 w0 w0
= 0
< ack 1 53,0 ; ack 2 53,61 ; reply 1 none ; reply 2 int 7 ; order 1 ; order 2 ; row a 1 int 7 ; end 0
> checkpoint 2 1
= any
> checkpoint 2 1
= any
> checkpoint 2 1
= any
tear %2
> recover 2 1
= 0
keep
> restore 2 1
= 0
kept base
rows 1 26 {k} / old
rows 1 26 {k} / new
rows 1 26 {k} / torn
";

#[test]
fn each_call_of_a_slot(rt: HostRuntime) -> Result<(), Fail> {
    play(&rt, rt.alloc(), SCENES)
}
