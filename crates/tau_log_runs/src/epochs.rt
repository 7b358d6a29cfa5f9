//! Logs of more runs than one, against values worked out by hand.
use crate::play::play;

static RUNS: &str = "
# a record that was left out stays so
scan any two-runs-0 two-runs-1 = ends 94,86; takes 0 --+; takes 1 ---; recovers - > elv 94,86/taken 0 38 1/end 0/
# each epoch has its vector
scan any three-runs-0 three-runs-1 = judges 0 13,61; judges 1 94,86; judges 2 175,111; takes 0 --+-+; takes 1 ----; recovers - > elv 175,111/taken 0 38 1/taken 0 119 1/end 0/
# the second stream holds nothing: each vector is lowered to what is there
scan any three-runs-0 nothing = judges 0 13,0; judges 1 94,0; judges 2 175,0; takes 0 -----
# one epoch has one vector
# epoch 1 has two vectors
scan any three-runs-0 other-vector-1 = bad 1 Epoch 0 1
# epoch 2 has two vectors
scan any other-vector-0 three-runs-1 = bad 1 Epoch 0 2
# catalogues come before epochs
scan any two-runs-0 other-table = bad 1 Catalogue 0 6
# numbers rise in a stream
scan any falling nothing = bad 0 BadBody 38
# the lowest stream with the epoch is named
scan any narrow-0,13=3 three-high three-other = bad 2 Epoch 1 4294967295
";

#[test]
fn logs_of_several_runs_are_read(rt: HostRuntime) {
    play(&rt, rt.alloc(), RUNS);
}
