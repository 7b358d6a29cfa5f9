//! The contents that a log is read from, against values worked out by hand.
use crate::play::play;

static CONTENTS: &str = "
# a log of format 2 beside the front of itself
contents any,2 wide wide,front=17 = ends 55,0; each 2:81:wide-content,-:16:nothing
# a log of format 1 beside an empty disk
contents any,1 nothing apart = ends 0,53; each -:16:nothing,1:79:apart-content
# nothing after a gate that reads 2 is content, in the first stream
contents any apart,15=0,34=2 apart = ends 13,53; each 1:34:catalogue-content,1:79:apart-content
# nothing after a gate that reads 2 is content, in both streams
contents any apart,15=0,34=2 apart,34=2 = ends 13,13; each 1:34:catalogue-content,1:34:catalogue-content
# unborn streams
contents any apart,front=17 nothing = ends 0,0; each -:16:nothing,-:16:nothing
";

#[test]
fn logs_have_their_contents(rt: HostRuntime) {
    play(&rt, rt.alloc(), CONTENTS);
}
