//! The measured job.
use crate::scenes::play;
use std::test::*;

static SCENES: &str = "
== a bench
new
> bench %1
= 0
< %2
# Row r holds 20 * (1 + ((3 * r + 9) mod 10)); the digest is that of these thousand lines, by another program.
row 7 20000 4 8 / calls 20000 ; acked 20000 ; rows 1000 ; sum 110000 ; tables badbad6c3635ece83a526a2e6ad9420c57d6acb80240ba2e64d8142939e405cb ; recovered badbad6c3635ece83a526a2e6ad9420c57d6acb80240ba2e64d8142939e405cb ; end 0
# No call leaves no row.
row 7 0 4 8 / calls 0 ; acked 0 ; rows 0 ; sum 0 ; tables e3b0c44298fc1c149afbf4c8996fb92427ae41e4649b934ca495991b7852b855 ; recovered e3b0c44298fc1c149afbf4c8996fb92427ae41e4649b934ca495991b7852b855 ; end 0
# Streams and workers change nothing.
@hundred calls 100 ; acked 100 ; rows 100 ; sum 550 ; tables 0a4a8e7ef65c6d49699cb6255b541ae4ea3b4f56045b23fa5670aeb84ea0d51b ; recovered 0a4a8e7ef65c6d49699cb6255b541ae4ea3b4f56045b23fa5670aeb84ea0d51b ; end 0
row 7 100 1 1 / @hundred
row 7 100 1 3 / @hundred
row 7 100 3 1 / @hundred
row 7 100 2 16 / @hundred
row 7 100 16 5 / @hundred

== a bench runs calls in two streams, replays them, and touches neither its source, which would fail, nor a disk of the caller
new
> bench 7 100 2 2
| table a
source 1
= 0
< @hundred
idle
reached 100 commit
reached 1 flush-0
reached 1 flush-1
reached 100 replay

== jobs that are none
new
> bench %1
= 2
< fault 2
row 1000 1 1 1
row 0 200001 1 1
row 0 1 0 1
row 0 1 17 1
row 0 1 1 0
row 0 1 1 17
row 07 1 1 1
row 7 100 2

== the whole text of a bench goes out at once, or a first part of it if the sink fails
new
> bench 999 3 2 2
sink 1
= 5
> bench 999 3 2 2
= 0
< calls 3 ; acked 3 ; rows 3 ; sum 9 ; tables 0641f6598810c6d11305f92c4bfbef25abd0e0f55b79fdad4491fb2c406335d3 ; recovered 0641f6598810c6d11305f92c4bfbef25abd0e0f55b79fdad4491fb2c406335d3 ; end 0
";

#[test]
fn benches(rt: HostRuntime) -> Result<(), Fail> {
    play(&rt, rt.alloc(), SCENES)
}
