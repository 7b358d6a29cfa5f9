//! Audits of runs: of worked ones, of one in threads, and one that fails for each of the checks.
use crate::scenes::play;
use std::test::*;

static SCENES: &str = "
== audits of runs, which read each stream
# The catalogue `table a`, of 13 bytes.
$catalogue 04 0000000d 7461626c6520610a
# Call 1 puts 5 into row 1.
$first 01 00000028 0000000000000001 00000000 0000 0001 0000 0000000000000001 01 0000000000000005
# Call 2 puts 7 into row 1, and waits for call 1.
$second 01 00000030 0000000000000002 00000000 0001 0000000000000035 0001 0000 0000000000000001 01 0000000000000007
new
disk 0 stream 1 2 0 %1
disk 1 stream 1 2 1 %2
> audit 2 2
| %3
= 0
< audit %4 ; end 0
had 0 2
had 1 2
had 2 0
# A call that writes a row, and one of another stream that adds to it, with what their run tells: a report that is true.
@across table a ; put a 1 5 ; add a 1 2 ; turns w0 w0 w0 w0 w0 ; report ; ack 1 53,0 ; ack 2 53,61 ; reply 1 none ; reply 2 int 7 ; order 1 ; order 2 ; row a 1 int 7 ; end 0
row $catalogue/$first / $catalogue/$second / @across / yes
# The same with another reply.
@other_reply table a ; put a 1 5 ; add a 1 2 ; turns w0 w0 w0 w0 w0 ; report ; ack 1 53,0 ; ack 2 53,61 ; reply 1 none ; reply 2 int 8 ; order 1 ; order 2 ; row a 1 int 7 ; end 0
row $catalogue/$first / $catalogue/$second / @other_reply / no reply 2
# A stream that lost what was acknowledged.
row $catalogue/$first / $catalogue / @across / no ack 2
# Of a run whose disk failed, a stream that lost what was not acknowledged.
@four_puts table a ; put a 1 5 ; put a 2 6 ; put a 3 7 ; put a 4 8 ; turns w0 w0 w0 w0 w0 w1 w1 w1 w1 w1 m0 c m1 ; report ; ack 1 53,0 ; reply 1 none ; unsure 2 none ; unrun 3 ; unrun 4 ; order 1 ; order 2 ; row a 1 int 5 ; row a 2 int 6 ; end 6 1
row $catalogue/$first / $catalogue / @four_puts / cut

== for each check of an audit, a report and streams that fail it and none before it
# Call 1 puts 6 into row 1.
$first_other 01 00000028 0000000000000001 00000000 0000 0001 0000 0000000000000001 01 0000000000000006
# Call 2 puts 7 into row 1, and waits for nothing.
$second_alone 01 00000028 0000000000000002 00000000 0000 0001 0000 0000000000000001 01 0000000000000007
# Call 2 puts 6 into row 2.
$second_apart 01 00000028 0000000000000002 00000000 0000 0001 0000 0000000000000002 01 0000000000000006
# Epoch 1 with (13,61).
$epoch 05 00000019 00000001 000000000000000d 000000000000003d
# The order leaves out call 1.
@left_out table a ; put a 1 5 ; add a 1 2 ; report ; ack 1 53,0 ; ack 2 53,61 ; reply 1 none ; reply 2 int 7 ; order 2 ; row a 1 int 7 ; end 0
# Call 1 replies what a put does not.
@other_first table a ; put a 1 5 ; add a 1 2 ; report ; ack 1 53,0 ; ack 2 53,61 ; reply 1 int 5 ; reply 2 int 8 ; order 1 ; order 2 ; row a 1 int 8 ; end 0
# Row 1 holds 8.
@other_row table a ; put a 1 5 ; add a 1 2 ; report ; ack 1 53,0 ; ack 2 53,61 ; reply 1 none ; reply 2 int 7 ; order 1 ; order 2 ; row a 1 int 8 ; end 0
# What is true.
@true table a ; put a 1 5 ; add a 1 2 ; report ; ack 1 53,0 ; ack 2 53,61 ; reply 1 none ; reply 2 int 7 ; order 1 ; order 2 ; row a 1 int 7 ; end 0
# No call was acknowledged.
@unsure table a ; put a 1 5 ; add a 1 2 ; report ; unsure 1 none ; unsure 2 int 7 ; order 1 ; order 2 ; row a 1 int 7 ; end 0
# Call 2 comes first in the order.
@turned table a ; put a 1 5 ; put a 2 6 ; report ; ack 1 53,0 ; ack 2 0,53 ; reply 1 none ; reply 2 none ; order 2 ; order 1 ; row a 1 int 5 ; row a 2 int 6 ; end 0
new
disk 0 stream 1 2 0 %1
disk 1 stream 1 2 1 %2
> audit 2 2
| %3
= 0
< audit %4 ; end 0
row $catalogue/$epoch / $catalogue/$epoch / @left_out / no epoch 0
row $catalogue/$first / $catalogue/$second / @left_out / no fate 1
row $catalogue/$first / $catalogue/$second / @other_first / no reply 1
row $catalogue/$first / $catalogue/$second / @other_row / no row 0
row $catalogue/$first_other / $catalogue/$second / @true / no record 1
row $catalogue / $catalogue / @true / no ack 1
row $catalogue / $catalogue/$second_alone / @unsure / no closed 2
row $catalogue/$first / $catalogue/$second_apart / @turned / no order 2
row $catalogue/$first / $catalogue/$second / @true / yes

== runs in threads, whose reports are true
# A mix of calls of three tables, some of which wait for others.
@mix table a ; table b ; table c ; proc move 2 ; get r0 a $1 ; need r0 != none ; put b $2 r0 ; del a $1 ; end ; proc both 1 ; get r0 a $1 ; get r1 b $1 ; put c $1 \"seen\" ; end ; put a 1 5 ; put a 2 6 ; put b 1 \"one\" ; add a 1 2 ; call move 1 4 ; get b 4 ; call both 2 ; del b 1 ; put a 3 -9 ; add a 2 1 ; call move 3 5 ; call both 3 ; get a 1 ; get c 2 ; put c 9 \"\" ; call move 8 8 ; add b 7 1 ; add b 7 1 ; add b 7 1 ; get b 7 ; put a 1 1 ; call both 1
new
> %1
| @mix
= 0
count 1 end 0
> %2
| @mix
| report
told
= 0
< audit yes ; end 0
row run 2 3 / audit 2 3
row run 3 2 command / audit 3 2
row run 4 5 data wide / audit 4 5
";

#[test]
fn what_an_audit_finds(rt: HostRuntime) -> Result<(), Fail> {
    play(&rt, rt.alloc(), SCENES)
}
