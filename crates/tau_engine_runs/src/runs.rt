//! Runs by turns and runs of one call, in both styles, with what they leave on disks, and recoveries of what they left.
use crate::scenes::play;
use std::test::*;

static SCENES: &str = "
== each of these texts on new disks
new
> %1
| %2
= 0
< %3
# A transfer between two rows, and its calls.
@transfers table acct ; proc move 3 ; get r0 acct $1 ; need r0 >= $3 ; sub r0 r0 $3 ; get r1 acct $2 ; add r1 r1 $3 ; put acct $1 r0 ; put acct $2 r1 ; reply r0 ; end ; put acct 1 100 ; put acct 2 50 ; call move 1 2 30 ; call move 1 2 80 ; get acct 2 ; turns
# What is told of the put and the transfers by one worker over two streams, and over one.
@put_of_two ack 1 53,0 ; reply 1 none ; order 1 ; row a 1 int 5 ; end 0
@transfers_of_two ack 1 181,0 ; ack 2 221,0 ; ack 3 288,0 ; ack 4 288,0 ; ack 5 288,0 ; reply 1 none ; reply 2 none ; reply 3 int 70 ; reply 4 refused 2 ; reply 5 int 80 ; order 1 ; order 2 ; order 3 ; order 4 ; order 5 ; row acct 1 int 70 ; row acct 2 int 80 ; end 0
@transfers_of_one ack 1 181 ; ack 2 221 ; ack 3 288 ; ack 4 288 ; ack 5 288 ; reply 1 none ; reply 2 none ; reply 3 int 70 ; reply 4 refused 2 ; reply 5 int 80 ; order 1 ; order 2 ; order 3 ; order 4 ; order 5 ; row acct 1 int 70 ; row acct 2 int 80 ; end 0
# One worker.
row run 2 1 / table a ; put a 1 5 / @put_of_two
row run 2 1 / @transfers / @transfers_of_two
row run 2 1 data / table a ; put a 1 5 / @put_of_two
row run 2 1 data / @transfers / @transfers_of_two
row run 1 1 / @refused / ack 1 0 ; reply 1 refused 2 ; order 1 ; end 0
row run 1 1 / @transfers / @transfers_of_one
# The record is that of a call.
row run 1 1 command / table a ; put a 1 5 / ack 1 62 ; reply 1 none ; order 1 ; row a 1 int 5 ; end 0
# Two workers.
row run 2 2 / @dependent / @dependent_told
row run 2 2 / table a ; put a 1 5 ; put a 2 6 ; turns / ack 1 53,0 ; ack 2 0,53 ; reply 1 none ; reply 2 none ; order 1 ; order 2 ; row a 1 int 5 ; row a 2 int 6 ; end 0
row run 2 2 / table a ; proc dup 0 ; get r0 a 1 ; put a 2 r0 ; end ; call dup ; put a 1 9 ; turns w0 w0 w0 w0 w0 w0 w0 / ack 1 82,0 ; ack 2 82,98 ; reply 1 none ; reply 2 none ; order 1 ; order 2 ; row a 1 int 9 ; end 0
row run 2 2 / table a ; put a 1 5 ; get a 1 ; turns w0 w0 w0 w0 w0 w1 w1 w1 m1 c m0 c / ack 1 53,0 ; ack 2 53,0 ; reply 1 none ; reply 2 int 5 ; order 1 ; order 2 ; row a 1 int 5 ; end 0
# Busy calls and removed entries.
row run 2 2 / table a ; put a 1 5 ; put a 1 6 ; turns w0 w1 / ack 1 53,0 ; ack 2 53,61 ; reply 1 none ; reply 2 none ; order 1 ; order 2 ; row a 1 int 6 ; end 0
row run 2 2 / table a ; put a 1 5 ; put a 1 6 ; turns w1 w0 / ack 2 0,53 ; ack 1 61,53 ; reply 1 none ; reply 2 none ; order 2 ; order 1 ; row a 1 int 5 ; end 0
row run 2 2 / table a ; put a 1 5 ; add a 1 2 ; turns w0 w0 w0 w0 w0 m0 d / ack 1 53,0 ; ack 2 53,61 ; reply 1 none ; reply 2 int 7 ; order 1 ; order 2 ; row a 1 int 7 ; end 0
row run 2 2 / table a ; put a 1 5 ; put a 65 7 ; turns w0 w0 w0 w0 w0 m0 d / ack 1 53,0 ; ack 2 53,61 ; reply 1 none ; reply 2 none ; order 1 ; order 2 ; row a 1 int 5 ; row a 65 int 7 ; end 0
# An anchor shortens a record: of three workers the third goes first.
row run 3 3 / @anchored / @anchored_told
row run 3 3 command / @anchored / ack 1 91,13,62 ; ack 3 0,0,62 ; ack 2 91,86,62 ; reply 1 none ; reply 2 int 7 ; reply 3 none ; order 3 ; order 1 ; order 2 ; row a 1 int 7 ; row a 3 int 9 ; end 0
# Turns of actors that are not there change nothing.
row run 2 2 / table a ; put a 1 5 ; put a 2 6 ; turns w2 w15 m2 m15 a2 a15 c d w0 w2 m7 a9 / ack 1 53,0 ; ack 2 0,53 ; reply 1 none ; reply 2 none ; order 1 ; order 2 ; row a 1 int 5 ; row a 2 int 6 ; end 0
# Worker 0 has its first turn before worker 1 writes the row that its call reads, and its others after that: an optimistic worker that
# peeked before another one wrote meets a row that differs, and begins its call anew.
@overtaken table a ; add a 1 2 ; put a 1 5 ; turns w0 w1 w1 w1 w1 w1
@anew ack 2 0,53 ; ack 1 61,53 ; reply 1 int 7 ; reply 2 none ; order 2 ; order 1 ; row a 1 int 7 ; end 0
row run 2 2 data optimistic / @overtaken / @anew
row run 2 2 optimistic / @overtaken / @anew
# One that locks at once holds the row, and the other one waits.
row run 2 2 data / @overtaken / ack 1 53,0 ; ack 2 53,61 ; reply 1 int 2 ; reply 2 none ; order 1 ; order 2 ; row a 1 int 5 ; end 0
# A record of the wide format has two bytes more.
row run 2 2 optimistic wide / @overtaken / ack 2 0,55 ; ack 1 63,55 ; reply 1 int 7 ; reply 2 none ; order 2 ; order 1 ; row a 1 int 7 ; end 0

== no text
new
> %1
= 0
< end 0
row run 2 1
row run 2 1 data

== a call that is left over: worker 0 holds the lock while worker 1 tries 64 times
# It runs alone; after a stop it stays.
new
failing %1
> run 2 2
| table a ; put a 1 5 ; put a 1 6
|- turns w0
repeat 0 64  w1
= %2
< %3
row 0 / 0 / ack 1 53,0 ; ack 2 53,61 ; reply 1 none ; reply 2 none ; order 1 ; order 2 ; row a 1 int 6 ; end 0
row 0 8 / 6 / unsure 1 none ; unrun 2 ; order 1 ; row a 1 int 5 ; end 6 0

== what runs leave
# The catalogue without a declaration, and that of table a.
$no_tables 04 00000005
$catalogue 04 0000000d 7461626c6520610a
# Call 1 puts 5 into row 1.
$put 01 00000028 0000000000000001 00000000 0000 0001 0000 0000000000000001 01 0000000000000005
# Call 2 puts 6 into that row, and carries the position of the first record, 53: 48 bytes.
$put_again 01 00000030 0000000000000002 00000000 0001 0000000000000035 0001 0000 0000000000000001 01 0000000000000006
# In stream 1 call 2 makes that row hold 7, and depends on position 53 of stream 0.
$add 01 00000030 0000000000000002 00000000 0001 0000000000000035 0001 0000 0000000000000001 01 0000000000000007
# An empty run.
new
> run 2 1
= 0
< end 0
held 0 stream 1 2 0 $no_tables
held 1 stream 1 2 1 $no_tables
# One put.
new
> run 2 1
| table a ; put a 1 5
= 0
< @put_of_two
held 0 stream 1 2 0 $catalogue / $put
held 1 stream 1 2 1 $catalogue
had 0 11
had 1 7
# Recovery, and that with another count.
> recover 2 1
= 0
< elv 53,13 ; taken 0 13 1 ; row a 1 int 5 ; end 0
> recover 3 1
= 7
< fault 7 0 count 3 2
# Two puts on one key: the second record carries the position of the first one.
new
> run 2 1
| table a ; put a 1 5 ; put a 1 6
|- turns
= 0
< ack 1 53,0 ; ack 2 101,0 ; reply 1 none ; reply 2 none ; order 1 ; order 2 ; row a 1 int 6 ; end 0
held 0 stream 1 2 0 $catalogue / $put / $put_again
# A refused call leaves its catalogue alone, of 66 bytes.
@refused table a ; proc pay 1 ; get r0 a 1 ; need r0 != none ; put a 1 $1 ; end ; call pay 5
$refused 04 00000042 7461626c6520610a 70726f632070617920310a 6765742072302061 20310a 6e656564207230 20213d20 6e6f6e650a 707574206120 312024310a 656e640a
new
> run 1 1
| @refused
= 0
< ack 1 0 ; reply 1 refused 2 ; order 1 ; end 0
held 0 stream 1 1 0 $refused
# The one stream of one put, with gates at 16, 34 and 79.
new
> run 1 1
| table a ; put a 1 5
= 0
< ack 1 53 ; reply 1 none ; order 1 ; row a 1 int 5 ; end 0
held 0 stream 1 1 0 $catalogue / $put
# The second call depends on the first one: the one record of stream 1 has 48 bytes.
@dependent table a ; put a 1 5 ; add a 1 2 ; turns w0 w0 w0 w0 w0
@dependent_told ack 1 53,0 ; ack 2 53,61 ; reply 1 none ; reply 2 int 7 ; order 1 ; order 2 ; row a 1 int 7 ; end 0
@dependent_found elv 53,61 ; taken 0 13 1 ; taken 1 13 2 ; row a 1 int 7 ; end 0
new
> run 2 2
| @dependent
= 0
< @dependent_told
held 0 stream 1 2 0 $catalogue / $put
held 1 stream 1 2 1 $catalogue / $add
> recover 2 1
= 0
< @dependent_found
> recover 2 2
= 0
< @dependent_found
> recover 2 16
= 0
< @dependent_found
# The anchor takes 29 bytes of stream 0, and the call after it names it.
@anchored table a ; put a 1 5 ; add a 1 2 ; put a 3 9 ; turns w2 w2 w2 w2 w2 m2 a0 w0 w0 w0 w0 w0
@anchored_told ack 1 82,13,53 ; ack 3 0,0,53 ; ack 2 82,77,53 ; reply 1 none ; reply 2 int 7 ; reply 3 none ; order 3 ; order 1 ; order 2 ; row a 1 int 7 ; row a 3 int 9 ; end 0
new
> run 3 3
| @anchored
= 0
< @anchored_told
> recover 3 2
= 0
< elv 82,77,53 ; taken 0 42 1 ; taken 1 13 2 ; taken 2 13 3 ; row a 1 int 7 ; row a 3 int 9 ; end 0
# Records of calls.
new
> run 1 1 command
| table a ; put a 1 5
= 0
< ack 1 62 ; reply 1 none ; order 1 ; row a 1 int 5 ; end 0
> recover 1 1
= 0
< elv 62 ; taken 0 13 1 ; row a 1 int 5 ; end 0
new
> run 1 1
| @transfers
= 0
< @transfers_of_one
> recover 1 1
= 0
< elv 288 ; taken 0 141 1 ; taken 0 181 2 ; taken 0 221 3 ; row acct 1 int 70 ; row acct 2 int 80 ; end 0

== a thousand puts: row k holds twice k, and the block of each has 45 bytes
new
> run 2 1
| table a
each 0 1000 put a {k} {k*2}
| turns
= 0
count 1000 ack
count 1000 row
# The whole image has 45,035 bytes.
last 0 45035 5441555255532d4c4f472d31
held 0 stream 1 2 0 $catalogue / each 0 1000 01 00000028 {k+1} 00000000 0000 0001 0000 {k} 01 {k*2}
";

#[test]
fn runs_by_turns(rt: HostRuntime) -> Result<(), Fail> {
    play(&rt, rt.alloc(), SCENES)
}
