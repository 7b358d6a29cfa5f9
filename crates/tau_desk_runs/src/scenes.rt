//! The scenes of the desk's runs, against what was worked by hand.
use crate::play::play;
use std::test::*;

/// Two workers on their seats, turn by turn. A worker keeps its calls that have joined the committed ones.
static TURNS: &str = "
scene: a call that writes one row, step by step; its worker has no other call, the other worker has none
table a
put a 1 5

desk: 2 by 2 locking
0 began
0 locked
0 committed
0 posted
0 freed
0 ended
0 rests
1 rests
0 keeps calls 1
0 keeps call 0 1 0,0 53,0
1 keeps calls 0

scene: two calls that write apart: each record stands first in its stream, and no call depends on the other
table a
put a 1 5
put a 2 6

desk: 2 by 2 locking
0 began
1 began
0 locked
1 locked
1 committed
0 committed
0 posted
1 posted
1 freed
0 freed
0 ended
1 ended
0 keeps calls 1
0 keeps call 0 1 0,0 53,0
1 keeps calls 1
1 keeps call 0 2 0,0 0,53

scene: a second writer of a row meets Busy while the first holds it, and tries again; its vector then covers the end of the first one's record
table a
put a 1 5
put a 1 6

desk: 2 by 2 locking
0 began
1 began
0 locked
1 busy
0 committed
1 busy
0 posted
0 freed
0 ended
1 locked
1 committed
1 posted
1 freed
1 ended
0 keeps calls 1
0 keeps call 0 1 0,0 53,0
1 keeps calls 1
1 keeps call 0 2 53,0 53,61

scene: the same if the other worker is first
table a
put a 1 5
put a 1 6

desk: 2 by 2 locking
1 began
0 began
1 locked
0 busy
1 committed
1 posted
1 freed
1 ended
0 locked
0 committed
0 keeps calls 1
0 keeps call 0 1 0,53 61,53
1 keeps calls 1
1 keeps call 0 2 0,0 0,53

scene: a call that only read what another one wrote joins by its first free, with the vector of what it read
table a
put a 1 5
get a 1

desk: 2 by 2 locking
0 began
0 locked
0 committed
0 posted
0 freed
0 ended
1 began
1 locked
1 freed
1 ended
0 keeps calls 1
0 keeps call 0 1 0,0 53,0
1 keeps calls 1
1 keeps call 0 2 53,0 53,0

scene: worker 0 has peeked none when worker 1 writes the row: it is Busy by that, peeks anew, and locks what it has peeked
table a
add a 1 2
put a 1 5

desk: 2 by 2 optimistic
0 began
0 peeked none
1 began
1 locked
1 committed
1 posted
1 freed
1 ended
1 rests
0 busy
0 peeked 5
0 locked
0 locked
0 committed
0 posted
0 freed
0 ended
0 rests
0 keeps calls 1
0 keeps call 0 1 0,53 61,53
1 keeps calls 1
1 keeps call 0 2 0,0 0,53

scene: worker 1 holds the key while the row is still what worker 0 has peeked
table a
add a 1 2
put a 1 5

desk: 2 by 2 optimistic
0 began
0 peeked none
1 began
1 locked
0 busy
0 peeked none
0 busy
1 committed
1 posted
1 freed
0 peeked 5
0 locked
0 keeps calls 0
1 keeps calls 1
1 keeps call 0 2 0,0 0,53
";

#[test]
fn workers_turn_by_turn(rt: HostRuntime) -> Result<(), Fail> {
    play(&rt, rt.alloc(), TURNS)
}

/// The two calls of two workers, one after the other. Between them the first record is made durable, and what is covered is dropped from a shard.
static REMOVALS: &str = "
scene: an entry is removed while the record of its writer is durable: the floor of its shard then says what the entry said; the second call adds to the row whose entry was removed
table a
put a 1 5
add a 1 2

desk: 2 by 2 locking
worker 0
manager 0 1 53
worker 1
manager 1 1 61
clerk 0 1 53,0
clerk 1 2 53,61
closed:
calls 2
placed 0 1 0,0 13 53
placed 1 2 53,0 13 61
row 1 7

scene: the second call puts another row of the same shard
table a
put a 1 5
put a 65 7

desk: 2 by 2 locking
worker 0
manager 0 1 53
worker 1
manager 1 1 61
clerk 0 1 53,0
clerk 1 2 53,61
closed:
calls 2
placed 0 1 0,0 13 53
placed 1 2 53,0 13 61
row 1 5
row 65 7

scene: the same if nothing was dropped from that shard: the second call depends on nothing
table a
put a 1 5
put a 65 7

desk: 2 by 2 locking
worker 0
manager 0 2 53
worker 1
manager 1 2 53
clerk 0 1 53,0
clerk 1 2 0,53
closed:
calls 2
placed 0 1 0,0 13 53
placed 1 2 0,0 13 53
row 1 5
row 65 7
";

#[test]
fn entries_that_are_removed(rt: HostRuntime) -> Result<(), Fail> {
    play(&rt, rt.alloc(), REMOVALS)
}

/// Runs that are closed, in threads but for the first one, over one row and over many.
static RUNS: &str = "
scene: 32 calls that each add 1 to row 1; a desk is closed as soon as it is opened
table a
add a 1 1
add a 1 1
add a 1 1
add a 1 1
add a 1 1
add a 1 1
add a 1 1
add a 1 1
add a 1 1
add a 1 1
add a 1 1
add a 1 1
add a 1 1
add a 1 1
add a 1 1
add a 1 1
add a 1 1
add a 1 1
add a 1 1
add a 1 1
add a 1 1
add a 1 1
add a 1 1
add a 1 1
add a 1 1
add a 1 1
add a 1 1
add a 1 1
add a 1 1
add a 1 1
add a 1 1
add a 1 1

desk: 2 by 2 locking
closed:
calls 0
row 1 none

desk: 1 by 2 locking
threads
closed:
calls 32
row 1 32

desk: 3 by 16 locking
threads
closed:
calls 32
row 1 32

scene: 16 calls that each add 1 to a row of 5, and 16 that put their row, of 16 others
table a
add a 1 1
add a 2 1
add a 3 1
add a 4 1
add a 5 1
add a 1 1
add a 2 1
add a 3 1
add a 4 1
add a 5 1
add a 1 1
add a 2 1
add a 3 1
add a 4 1
add a 5 1
add a 1 1
put a 11 1
put a 12 2
put a 13 3
put a 14 4
put a 15 5
put a 16 6
put a 17 7
put a 18 8
put a 19 9
put a 20 10
put a 21 11
put a 22 12
put a 23 13
put a 24 14
put a 25 15
put a 26 16

desk: 2 by 2 locking
threads
closed:
calls 32
row 1 4
row 2 3
row 3 3
row 4 3
row 5 3
row 11 1
row 12 2
row 13 3
row 14 4
row 15 5
row 16 6
row 17 7
row 18 8
row 19 9
row 20 10
row 21 11
row 22 12
row 23 13
row 24 14
row 25 15
row 26 16

desk: 4 by 16 locking
threads
closed:
calls 32
row 1 4
row 2 3
row 3 3
row 4 3
row 5 3
row 11 1
row 12 2
row 13 3
row 14 4
row 15 5
row 16 6
row 17 7
row 18 8
row 19 9
row 20 10
row 21 11
row 22 12
row 23 13
row 24 14
row 25 15
row 26 16
";

#[test]
fn runs_that_are_closed(rt: HostRuntime) -> Result<(), Fail> {
    play(&rt, rt.alloc(), RUNS)
}
