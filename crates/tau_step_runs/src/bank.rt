//! Calls of a bank, which read and write the accounts of two tables, in both styles. The replies and rows of each report are
//! those of its calls made one after another by hand, in the order that it tells.
use crate::play::play;
use std::test::*;

/// The bank. All that the first account of an amalgamation has goes to the second one; a check that is more than both accounts have costs one more.
static BANK: &str = "table checking
table savings
proc open 3
put checking $1 $2
put savings $1 $3
end
proc balance 1
get r0 savings $1
need r0 != none
get r1 checking $1
need r1 != none
add r0 r0 r1
reply r0
end
proc deposit 2
get r0 checking $1
need r0 != none
add r0 r0 $2
put checking $1 r0
reply r0
end
proc transact 2
get r0 savings $1
need r0 != none
add r0 r0 $2
need r0 >= 0
put savings $1 r0
reply r0
end
proc amalgamate 2
get r0 savings $1
need r0 != none
get r1 checking $1
need r1 != none
get r2 checking $2
need r2 != none
add r0 r0 r1
add r2 r2 r0
put savings $1 0
put checking $1 0
put checking $2 r2
reply r2
end
proc check 2
get r0 savings $1
need r0 != none
get r1 checking $1
need r1 != none
add r0 r0 r1
when r0 < $2
sub r1 r1 1
done
sub r1 r1 $2
put checking $1 r1
reply r1
end
proc send 3
get r0 checking $1
need r0 >= $3
get r1 checking $2
need r1 != none
sub r0 r0 $3
add r1 r1 $3
put checking $1 r0
put checking $2 r1
reply r0
end
";

/// What workers tell of calls of the bank.
static CALLS: &str = "
scene: locking at once the two workers meet Busy seven times; optimistic they meet it four times, and three times a row is no longer what they peeked
call open 1 100 50
call open 2 20 5
call deposit 1 10
call send 1 2 30
call check 2 60
call transact 1 -20
call amalgamate 2 1
call balance 1
call send 2 1 500
call check 1 300
call transact 2 -7
call balance 2
turns

run: locking 2
ack 1 1000,0
ack 2 0,1000
ack 4 1000,1075
ack 3 1056,1075
ack 6 1000,1123
ack 8 1056,1123
ack 5 1112,1075
ack 10 1056,1179
ack 12 1112,1075
ack 7 1206,1179
ack 9 1206,1179
ack 11 1206,1179
reply 1 none
reply 2 none
reply 3 int 80
reply 4 int 70
reply 5 int -11
reply 6 int 30
reply 7 int -227
reply 8 int 110
reply 9 refused 2
reply 10 int -221
reply 11 refused 4
reply 12 int -6
order 1
order 2
order 4
order 3
order 5
order 12
order 6
order 8
order 10
order 7
order 9
order 11
row checking 1 int -227
row checking 2 int 0
row savings 1 int 30
row savings 2 int 0
end 0

run: optimistic 2
ack 1 1000,0
ack 2 0,1000
ack 3 1048,0
ack 4 1048,1075
ack 6 1000,1123
ack 5 1104,1075
ack 8 1048,1123
ack 7 1198,1123
ack 9 1198,1123
ack 11 1198,1123
ack 10 1198,1179
ack 12 1198,1123
reply 1 none
reply 2 none
reply 3 int 110
reply 4 int 80
reply 5 int -11
reply 6 int 30
reply 7 int 74
reply 8 int 110
reply 9 refused 2
reply 10 int -227
reply 11 refused 4
reply 12 int 0
order 1
order 3
order 2
order 4
order 5
order 6
order 8
order 7
order 9
order 11
order 12
order 10
row checking 1 int -227
row checking 2 int 0
row savings 1 int 30
row savings 2 int 0
end 0

scene: call 3 is refused if it locks at once, since it comes before the accounts are open; an optimistic worker has peeked that there are none, and finds them as it locks
call open 1 100 50
call open 2 20 5
call amalgamate 1 2
call balance 1
call transact 2 -20
call deposit 2 50
call send 2 1 30
call check 2 30
call deposit 2 10
call send 2 1 80
turns

run: locking 3
ack 3 0,0
ack 2 0,1000
ack 1 1000,0
ack 5 0,1000
ack 6 1048,1000
ack 4 1000,0
ack 9 1104,1000
ack 7 1179,1000
ack 10 1179,1000
ack 8 1179,1056
reply 1 none
reply 2 none
reply 3 refused 2
reply 4 int 150
reply 5 refused 4
reply 6 int 70
reply 7 int 50
reply 8 int 20
reply 9 int 80
reply 10 refused 2
order 3
order 1
order 4
order 2
order 5
order 6
order 9
order 7
order 10
order 8
row checking 1 int 130
row checking 2 int 20
row savings 1 int 50
row savings 2 int 5
end 0

run: optimistic 3
ack 1 1000,0
ack 2 0,1000
ack 5 0,1000
ack 4 1000,0
ack 3 1094,1000
ack 6 1150,1000
ack 7 1225,1000
ack 9 1281,1000
ack 10 1356,1000
ack 8 1356,1056
reply 1 none
reply 2 none
reply 3 int 170
reply 4 int 150
reply 5 refused 4
reply 6 int 220
reply 7 int 190
reply 8 int 90
reply 9 int 200
reply 10 int 120
order 1
order 4
order 2
order 5
order 3
order 6
order 7
order 9
order 10
order 8
row checking 1 int 110
row checking 2 int 90
row savings 1 int 0
row savings 2 int 5
end 0
";

#[test]
fn calls_of_a_bank(rt: HostRuntime) -> Result<(), Fail> {
    play(rt.alloc(), BANK, CALLS)
}
