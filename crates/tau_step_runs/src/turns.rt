//! Runs by turns on new streams and from a given opening, in both styles, and the order of their disk calls, against reports that were worked by hand.
use crate::play::play;
use std::test::*;

/// Runs on new streams, and one from an opening.
static TURNS: &str = "
scene: the second call takes what the first one wrote, which is persisted in a stream of its own
table a
put a 1 5
add a 1 2
turns w0 w0 w0 w0 w0

run: new 2, locking 2
ack 1 53,0
ack 2 53,61
reply 1 none
reply 2 int 7
order 1
order 2
row a 1 int 7
end 0

scene: a record that depends on nothing takes 40 bytes, since the run begins with a floor of zeros
table a
put a 1 5

run: new 1
ack 1 53,0
reply 1 none
order 1
row a 1 int 5
end 0

scene: worker 0 holds a row that worker 1 does not want, so worker 1 meets no Busy
table a
put a 1 5
put a 2 6
turns w0 w1 w1 w1 w1 w1 m1 c

run: new 2
ack 2 0,53
ack 1 53,0
reply 1 none
reply 2 none
order 1
order 2
row a 1 int 5
row a 2 int 6
end 0

scene: calls of one worker go in order
table a
put a 1 5
put a 1 6

run: new 1
ack 1 53,0
ack 2 101,0
reply 1 none
reply 2 none
order 1
order 2
row a 1 int 6
end 0
";

#[test]
fn turns(rt: HostRuntime) -> Result<(), Fail> {
    play(rt.alloc(), "", TURNS)
}

/// Runs from an opening in both styles.
static STYLES: &str = "
scene: worker 0 peeked no row, its comparison fails, and it starts again; if it holds the row, worker 1 meets Busy
table a
add a 1 2
put a 1 5
turns w0 w1 w1 w1 w1 w1

run: optimistic 2
ack 2 0,53
ack 1 61,53
reply 1 int 7
reply 2 none
order 2
order 1
row a 1 int 7
end 0

run: locking 2
ack 1 53,0
ack 2 53,61
reply 1 int 2
reply 2 none
order 1
order 2
row a 1 int 5
end 0

scene: a put reads no row, so there is nothing to peek: the second worker meets Busy in either style
table a
put a 1 5
put a 1 6
turns w0 w1

run: locking 2, optimistic 2
ack 1 53,0
ack 2 53,61
reply 1 none
reply 2 none
order 1
order 2
row a 1 int 6
end 0

scene: the same if worker 1 is first
table a
put a 1 5
put a 1 6
turns w1 w0

run: locking 2, optimistic 2
ack 2 0,53
ack 1 61,53
reply 1 none
reply 2 none
order 2
order 1
row a 1 int 5
end 0

scene: call 2 meets Busy 64 times, is left over, and runs alone
table a
put a 1 5
put a 1 6
turns w0 w1 w1 w1 w1 w1 w1 w1 w1 w1 w1 w1 w1 w1 w1 w1 w1 w1 w1 w1 w1 w1 w1 w1 w1 w1 w1 w1 w1 w1 w1 w1 w1 w1 w1 w1 w1 w1 w1 w1 w1 w1 w1 w1 w1 w1 w1 w1 w1 w1 w1 w1 w1 w1 w1 w1 w1 w1 w1 w1 w1 w1 w1 w1 w1

run: locking 2, optimistic 2
ack 1 53,0
ack 2 53,61
reply 1 none
reply 2 none
order 1
order 2
row a 1 int 6
end 0

scene: the first flush of disk 1 fails; call 1, of which worker 0 has only peeked then, or which has a lock, is in hand and is finished; call 3 does not begin
table a
add a 1 2
put a 2 5
put a 3 7
turns w0 w1 w1 w1 w1 w1 m1

run: locking 2 failing 8, optimistic 2 failing 8
ack 1 53,0
reply 1 int 2
unsure 2 none
unrun 3
order 1
order 2
row a 1 int 2
row a 2 int 5
end 6 1

scene: worker 0 has not begun call 1 when the disk fails
table a
add a 1 2
put a 2 5
put a 3 7
turns w1 w1 w1 w1 w1 m1 w0

run: locking 2 failing 8, optimistic 2 failing 8
unrun 1
unsure 2 none
unrun 3
order 2
row a 2 int 5
end 6 1
";

#[test]
fn styles(rt: HostRuntime) -> Result<(), Fail> {
    play(rt.alloc(), "", STYLES)
}

/// The stream of each disk call, in groups: the lengths, the makings and the flushes.
static ORDERS: &str = "
scene: the length, six calls that make the stream, and one flush
table a
put a 1 5

run: order 1 by 1
0 000000 0000

scene: nothing is flushed

run: order 2 by 1
01 000000 111111

scene: each manager flushes a record of the turns, and then one of the rounds
table a
put a 1 5
put a 2 6
put a 3 7
put a 4 8
turns w0 w0 w0 w0 w0 w1 w1 w1 w1 w1 m0 c m1

run: order 2 by 2
01 000000 111111 0000 1111 0000 1111

scene: the order of flushes is that of the turns
table a
put a 1 5
put a 2 6
turns w0 w0 w0 w0 w0 w1 w1 w1 w1 w1 m1 m0

run: order 2 by 2
01 000000 111111 1111 0000
";

#[test]
fn orders(rt: HostRuntime) -> Result<(), Fail> {
    play(rt.alloc(), "", ORDERS)
}
