//! Drills: rehearsed crashes.
use crate::scenes::play;
use std::test::*;

static SCENES: &str = "
== a drill of one put
# Its eleven calls are the length, six that make the stream, and four of a flush: write, sync, gate, sync.
new
> drill 1 1 1 %1
| table a ; put a 1 5
= 0
< %2
# A stop leaves what was synced.
row stop 4 torn / stopped 4 ; elv 0 ; end 0
row stop 9 new / stopped 9 ; elv 13 ; end 0
row stop 10 torn / stopped 10 ; elv 13 ; end 0
row stop 11 old / stopped 11 ; elv 13 ; end 0
# A gate may be written and not synced.
row stop 10 new / stopped 10 ; elv 53 ; taken 0 13 1 ; row a 1 int 5 ; end 0
row stop 11 new / stopped 11 ; elv 53 ; taken 0 13 1 ; row a 1 int 5 ; end 0
# A stop after the last call.
row stop 12 old / ack 1 53 ; stopped 11 ; elv 53 ; taken 0 13 1 ; row a 1 int 5 ; end 0
row stop 1000000 old / ack 1 53 ; stopped 11 ; elv 53 ; taken 0 13 1 ; row a 1 int 5 ; end 0
# A call of the disk fails.
row fail 0 9 / stopped 9 ; elv 13 ; end 0

== endings that are none
new
> drill 1 1 1 %1
| table a ; put a 1 5
= 2
< fault 2
row stop 0 old
row stop 1000001 old
row stop 1 none
row fail 1 1
row fail 0 0
row fail 0 1000001

== a text that is none
new
> drill 1 1 1 stop 1 old
| table a ; put b 1 5
= 3
< fault 3 2 3

== a drill of four puts
@four_puts table a ; put a 1 5 ; put a 2 6 ; put a 3 7 ; put a 4 8 ; turns w0 w0 w0 w0 w0 w1 w1 w1 w1 w1 m0 c m1
new
> drill 2 2 %1
| @four_puts
= 0
< %2
# A call of one disk fails.
row 1 fail 1 9 / ack 1 53,0 ; stopped 20 ; elv 53,13 ; taken 0 13 1 ; row a 1 int 5 ; end 0
# The run makes thirty calls: fourteen that open the streams, and four for each of four flushes.
row 2 stop 31 torn / ack 1 53,0 ; ack 2 0,53 ; ack 3 93,0 ; ack 4 0,93 ; stopped 30 ; elv 93,93 ; taken 0 13 1 ; taken 0 53 3 ; taken 1 13 2 ; taken 1 53 4 ; row a 1 int 5 ; row a 2 int 6 ; row a 3 int 7 ; row a 4 int 8 ; end 0

== a drill touches no disk of the caller
new
> drill 2 2 1 stop 15 torn
| @four_puts
sink 1
= 5
idle
tear new
held %1 bytes
rows 0 34 {k}
";

#[test]
fn drills(rt: HostRuntime) -> Result<(), Fail> {
    play(&rt, rt.alloc(), SCENES)
}

static STOPS: &str = "
== whatever call stops the disks, each call that is acknowledged is taken, with its record
@four_puts table a ; put a 1 5 ; put a 2 6 ; put a 3 7 ; put a 4 8 ; turns w0 w0 w0 w0 w0 w1 w1 w1 w1 w1 m0 c m1
new
> drill 2 2 2 stop %1
| @four_puts
= 0
where ack 1 ; taken 0 13 1
where ack 2 ; taken 1 13 2
where ack 3 ; taken 0 53 3
where ack 4 ; taken 1 53 4
rows 1 32 {k} old
rows 1 32 {k} new
rows 1 32 {k} torn
";

#[test]
fn whatever_call_stops_the_disks(rt: HostRuntime) -> Result<(), Fail> {
    play(&rt, rt.alloc(), STOPS)
}
