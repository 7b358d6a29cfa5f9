//! Mixes of calls whose sums are the same under every schedule, in both styles, in threads and by turns: rows that are added to, and the
//! calls of a bank.
use crate::scenes::play;
use std::test::*;

static ADDITIONS: &str = "
== four hundred additions to five rows: call k adds 1 + k mod 7 to row k mod 5
# Each call has one line of acknowledgement, one reply, one place in the order, and one taken record, and both tell the same rows.
new
> %1
| table a
each 1 401 add a {k:5} {k:7+1}
= 0
count 400 ack
count 400 reply
count 400 order
count 5 row
has row a 0 int 320 ; row a 1 int 322 ; row a 2 int 318 ; row a 3 int 321 ; row a 4 int 317 ; end 0
> %2
= 0
count 400 taken
count 5 row
has row a 0 int 320 ; row a 1 int 322 ; row a 2 int 318 ; row a 3 int 321 ; row a 4 int 317 ; end 0
row run 1 1 data / recover 1 1
row run 1 1 command / recover 1 1
row run 1 4 data / recover 1 4
row run 1 4 command / recover 1 4
row run 4 1 data / recover 4 1
row run 4 1 command / recover 4 1
row run 2 2 data / recover 2 2
row run 2 2 command / recover 2 2
row run 5 16 data / recover 5 16
row run 5 16 command / recover 5 16
row run 16 5 data / recover 16 5
row run 16 5 command / recover 16 5
";

#[test]
fn additions_by_any_schedule(rt: HostRuntime) -> Result<(), Fail> {
    play(&rt, rt.alloc(), ADDITIONS)
}

static HOT: &str = "
== four hundred additions to one row: call k adds 1 + k mod 7
new
> %1
| table a
each 1 401 add a 1 {k:7+1}
= 0
count 400 ack
count 400 reply
count 400 order
count 1 row
has row a 1 int 1598 ; end 0
> %2
= 0
count 400 taken
count 1 row
has row a 1 int 1598 ; end 0
row run 1 1 optimistic / recover 1 1
row run 2 2 data optimistic / recover 2 2
row run 4 16 optimistic / recover 4 1
row run 4 16 command optimistic / recover 4 4
row run 17 32 optimistic wide / recover 17 2
row run 4 16 / recover 4 1
row run 17 32 wide / recover 17 2

== the same with a thousand turns of sixteen workers
new
> %1
| table a
each 1 401 add a 1 {k:7+1}
|- turns
repeat 0 1000  w{k:16}
|
= 0
count 400 ack
count 400 reply
count 400 order
count 1 row
has row a 1 int 1598 ; end 0
> recover 2 2
= 0
count 400 taken
count 1 row
has row a 1 int 1598 ; end 0
row run 2 16 optimistic
row run 2 16
";

#[test]
fn a_hot_row(rt: HostRuntime) -> Result<(), Fail> {
    play(&rt, rt.alloc(), HOT)
}

static BANK: &str = "
== the calls of a bank: its money is kept, each call is acknowledged once, and the run's own audit finds it true
# Each procedure takes an account, another one, and an amount; a row that is not there counts as 0. A deposit and a saving bring the
# amount in; a check is paid by the branch with the other number, which then is owed it; all other calls keep the money or look at it.
# Some are refused.
# Eight accounts get 100 in each of both tables, and eight branches nothing; then come three hundred calls, fifty of each procedure: of
# call k the account is 1 + 5 k mod 8, the other one 1 + (that + k mod 7) mod 8, and the amount 1 + k mod 20.
# The money is what the accounts get, 1,600, and what the fifty deposits and fifty savings bring in: call k of the three hundred brings
# 1 + k mod 20 if k mod 6 is 1 or 2.
part calls | table checking ; table savings ; table branch
part calls | proc balance 3 ; get r0 checking $1 ; when r0 = none ; add r0 0 0 ; done ; get r1 savings $1 ; when r1 = none ; add r1 0 0 ; done ; add r0 r0 r1 ; reply r0 ; end
part calls | proc deposit 3 ; get r0 checking $1 ; when r0 = none ; add r0 0 0 ; done ; add r0 r0 $3 ; put checking $1 r0 ; reply r0 ; end
part calls | proc save 3 ; get r0 savings $1 ; when r0 = none ; add r0 0 0 ; done ; add r0 r0 $3 ; put savings $1 r0 ; reply r0 ; end
part calls | proc merge 3 ; get r0 savings $1 ; when r0 = none ; add r0 0 0 ; done ; get r1 checking $1 ; when r1 = none ; add r1 0 0 ; done ; get r2 checking $2 ; when r2 = none ; add r2 0 0 ; done ; add r0 r0 r1 ; add r2 r2 r0 ; put savings $1 0 ; put checking $1 0 ; put checking $2 r2 ; reply r0 ; end
part calls | proc check 3 ; get r0 savings $1 ; when r0 = none ; add r0 0 0 ; done ; get r1 checking $1 ; when r1 = none ; add r1 0 0 ; done ; add r0 r0 r1 ; need r0 >= $3 ; sub r1 r1 $3 ; get r2 branch $2 ; when r2 = none ; add r2 0 0 ; done ; add r2 r2 $3 ; put checking $1 r1 ; put branch $2 r2 ; reply r1 ; end
part calls | proc pay 3 ; get r0 checking $1 ; when r0 = none ; add r0 0 0 ; done ; need r0 >= $3 ; sub r0 r0 $3 ; get r1 checking $2 ; when r1 = none ; add r1 0 0 ; done ; add r1 r1 $3 ; put checking $1 r0 ; put checking $2 r1 ; reply r0 ; end
part calls each 1 9 add checking {k} 100 ; add savings {k} 100 ; add branch {k} 0
part calls each 1 301 call {k:6|balance|deposit|save|merge|check|pay} {k*5:8+1} {k:7+k+k+k+k+k+1:8+1} {k:20+1}
new
> %1
do calls
= 0
sum 2650 row
count 24 row
count 324 ack
count 324 order
# That no two lines are of one call the audit says.
> %2
do calls
| report
told
= 0
< audit yes ; end 0
> %3
= 0
sum 2650 row
count 24 row
row run 1 2 / audit 1 2 / recover 1 2
row run 1 2 optimistic / audit 1 2 / recover 1 1
row run 2 4 / audit 2 4 / recover 2 1
row run 2 4 optimistic / audit 2 4 / recover 2 2
row run 4 8 command / audit 4 8 / recover 4 2
row run 4 8 command optimistic / audit 4 8 / recover 4 4
row run 4 16 / audit 4 16 / recover 4 4
row run 4 16 optimistic / audit 4 16 / recover 4 1
row run 17 32 wide / audit 17 32 / recover 17 4
row run 17 32 optimistic wide / audit 17 32 / recover 17 1
";

#[test]
fn a_bank_in_either_style(rt: HostRuntime) -> Result<(), Fail> {
    play(&rt, rt.alloc(), BANK)
}
