//! Every cause at its edge, and logs of format 2 of more runs than one, against values worked out by hand.
use crate::play::play;

static EDGES: &str = "
# the header and the gates of stream 0 of two in format 1, and its records: `put a 1 5` at 13
# the first twelve bytes
scan any first,0=0 narrow-1 = bad 0 BadMagic
scan any first,11=51 narrow-1 = bad 0 BadMagic
# the number of streams
scan any first,12=1 narrow-1 = bad 0 BadCount
scan any first,13=0 narrow-1 = bad 0 BadCount
scan any first,13=17 narrow-1 = bad 0 BadCount
scan any first,13=16 narrow-1 = bad 0 Count 2 16
scan any first,13=1 narrow-1 = bad 0 Count 2 1
# the stream
scan any first,14=1 narrow-1 = bad 0 BadIndex
scan any first,15=1 narrow-1 = bad 0 BadIndex
# the gates and lengths of both blocks
scan any first,16=0 narrow-1 = log
scan any first,16=2 narrow-1 = log
scan any first,17=1 narrow-1 = bad 0 OpenGateWithoutBlock
scan any first,20=0 narrow-1 = bad 0 OpenGateWithoutBlock
scan any first,34=0 narrow-1 = log
scan any first,34=2 narrow-1 = log
scan any first,35=1 narrow-1 = bad 0 OpenGateWithoutBlock
scan any first,38=0 narrow-1 = bad 0 OpenGateWithoutBlock
scan any first,38=41 narrow-1 = bad 0 OpenGateWithoutBlock
scan any first,38=39 narrow-1 = bad 0 Short 13
scan any first,79=1 narrow-1 = bad 0 OpenGateWithoutBlock
# the catalogue
scan any first,21=1 narrow-1 = bad 0 BadKind 0
scan any first,21=5 narrow-1 = bad 0 BadKind 0
scan any first,25=14 narrow-1 = bad 0 BadBody 0
scan any first,26=120 narrow-1 = bad 0 BadBody 0
# the kind
scan any first,39=0 narrow-1 = bad 0 BadKind 13
scan any first,39=4 narrow-1 = bad 0 BadKind 13
scan any first,39=6 narrow-1 = bad 0 BadKind 13
scan any first,39=2 narrow-1 = bad 0 BadLength 13
scan any first,39=3 narrow-1 = bad 0 BadLength 13
scan any first,39=5 narrow-1 = bad 0 BadBody 13
# the length
scan any first,40=1 narrow-1 = bad 0 Short 13
scan any first,43=41 narrow-1 = bad 0 Short 13
scan any first,43=39 narrow-1 = bad 0 BadLength 13
scan any first,43=4 narrow-1 = bad 0 BadLength 13
# the call and the anchor
scan any first,51=0 narrow-1 = bad 0 BadBody 13
scan any first,51=7 narrow-1 = log
scan any first,55=1 narrow-1 = bad 0 BadAnchor 13
# the mask
scan any first,56=128 narrow-1 = bad 0 BadMask 13
scan any first,57=4 narrow-1 = bad 0 BadMask 13
# the count of writes
scan any first,59=0 narrow-1 = bad 0 BadBody 13
scan any first,59=2 narrow-1 = bad 0 BadLength 13
scan any first,59=64 narrow-1 = bad 0 BadLength 13
scan any first,59=65 narrow-1 = bad 0 BadBody 13
scan any first,58=1 narrow-1 = bad 0 BadBody 13
# the write
scan any first,61=1 narrow-1 = bad 0 BadBody 13
scan any first,69=2 narrow-1 = log
scan any first,70=0 narrow-1 = bad 0 BadLength 13
scan any first,70=2 narrow-1 = bad 0 BadLength 13
scan any first,70=3 narrow-1 = bad 0 BadBody 13
scan any first,78=9 narrow-1 = log
# the same in format 2
# the first twelve bytes
scan any wide,0=0 wide-1 = bad 0 BadMagic
scan any wide,11=51 wide-1 = bad 0 BadMagic
# the number of streams
scan any wide,12=1 wide-1 = bad 0 BadCount
scan any wide,13=0 wide-1 = bad 0 BadCount
scan any wide,13=33 wide-1 = bad 0 BadCount
scan any wide,13=32 wide-1 = bad 0 Count 2 32
scan any wide,13=1 wide-1 = bad 0 Count 2 1
# the stream
scan any wide,14=1 wide-1 = bad 0 BadIndex
scan any wide,15=1 wide-1 = bad 0 BadIndex
# the gates and lengths of both blocks
scan any wide,16=0 wide-1 = log
scan any wide,16=2 wide-1 = log
scan any wide,17=1 wide-1 = bad 0 OpenGateWithoutBlock
scan any wide,20=0 wide-1 = bad 0 OpenGateWithoutBlock
scan any wide,34=0 wide-1 = log
scan any wide,34=2 wide-1 = log
scan any wide,35=1 wide-1 = bad 0 OpenGateWithoutBlock
scan any wide,38=0 wide-1 = bad 0 OpenGateWithoutBlock
scan any wide,38=43 wide-1 = bad 0 OpenGateWithoutBlock
scan any wide,38=41 wide-1 = bad 0 Short 13
scan any wide,81=1 wide-1 = bad 0 OpenGateWithoutBlock
# the catalogue
scan any wide,21=1 wide-1 = bad 0 BadKind 0
scan any wide,21=5 wide-1 = bad 0 BadKind 0
scan any wide,25=14 wide-1 = bad 0 BadBody 0
scan any wide,26=120 wide-1 = bad 0 BadBody 0
# the kind
scan any wide,39=0 wide-1 = bad 0 BadKind 13
scan any wide,39=4 wide-1 = bad 0 BadKind 13
scan any wide,39=6 wide-1 = bad 0 BadKind 13
scan any wide,39=2 wide-1 = bad 0 BadLength 13
scan any wide,39=3 wide-1 = bad 0 BadLength 13
scan any wide,39=5 wide-1 = bad 0 BadBody 13
# the length
scan any wide,40=1 wide-1 = bad 0 Short 13
scan any wide,43=43 wide-1 = bad 0 Short 13
scan any wide,43=41 wide-1 = bad 0 BadLength 13
scan any wide,43=4 wide-1 = bad 0 BadLength 13
# the call and the anchor
scan any wide,51=0 wide-1 = bad 0 BadBody 13
scan any wide,51=7 wide-1 = log
scan any wide,55=1 wide-1 = bad 0 BadAnchor 13
# the mask
scan any wide,56=128 wide-1 = bad 0 BadMask 13
scan any wide,57=1 wide-1 = bad 0 BadMask 13
scan any wide,58=128 wide-1 = bad 0 BadMask 13
scan any wide,59=4 wide-1 = bad 0 BadMask 13
# the count of writes
scan any wide,61=0 wide-1 = bad 0 BadBody 13
scan any wide,61=2 wide-1 = bad 0 BadLength 13
scan any wide,61=64 wide-1 = bad 0 BadLength 13
scan any wide,61=65 wide-1 = bad 0 BadBody 13
scan any wide,60=1 wide-1 = bad 0 BadBody 13
# the write
scan any wide,63=1 wide-1 = bad 0 BadBody 13
scan any wide,71=2 wide-1 = log
scan any wide,72=0 wide-1 = bad 0 BadLength 13
scan any wide,72=2 wide-1 = bad 0 BadLength 13
scan any wide,72=3 wide-1 = bad 0 BadBody 13
scan any wide,80=9 wide-1 = log
# epoch 1 of stream 0: its length, number and first component. Its kind stands in byte 39 of the image
scan any wide-two-runs-0,43=24 wide-two-runs-1 = bad 0 BadLength 13
scan any wide-two-runs-0,43=26 wide-two-runs-1 = bad 0 BadLength 13
scan any wide-two-runs-0,43=8 wide-two-runs-1 = bad 0 BadLength 13
scan any wide-two-runs-0,47=0 wide-two-runs-1 = bad 0 BadBody 13
scan any wide-two-runs-0,47=1 wide-two-runs-1 = log
scan any wide-two-runs-0,47=2 wide-two-runs-1 = log
scan any wide-two-runs-0,44=255 wide-two-runs-1 = log
scan any wide-two-runs-0,48=64 wide-two-runs-1 = bad 0 BadBody 13
scan any wide-two-runs-0,56=64 wide-two-runs-1 = bad 0 BadBody 13
";

#[test]
fn each_cause_at_its_edge(rt: HostRuntime) {
    play(&rt, rt.alloc(), EDGES);
}

static RUNS: &str = "
# a log goes on once
scan any wide-two-runs-0 wide-two-runs-1 = recovers - > elv 96,88/taken 0 38 1/end 0/; judges 0 13,63; judges 1 96,88
# a log goes on twice
scan any wide-three-runs-0 wide-three-runs-1 = recovers - > elv 179,113/taken 0 38 1/taken 0 121 1/end 0/; judges 0 13,63; judges 1 96,88; judges 2 179,113
# the greatest component below 2^62 is another one than that of stream 1
scan any wide-two-runs-0,48=63 wide-two-runs-1 = bad 1 Epoch 0 1
# numbers fall in both streams
scan any wide-falling-0 wide-falling-1 = bad 0 BadBody 38
# numbers fall in the second stream
scan any wide-rising wide-falling-1 = bad 1 BadBody 38
";

#[test]
fn logs_of_format_2_go_on(rt: HostRuntime) {
    play(&rt, rt.alloc(), RUNS);
}
