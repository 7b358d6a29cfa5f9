//! Logs of format 2, of up to 32 streams, and logs of a format that was not asked, against values worked out by hand.
use crate::play::play;

static LOGS: &str = "
# format 2, of two streams, and of more than format 1 has room for
# a data record of two streams
scan any,2 wide wide-1 = ends 55,13; takes 0 -+
# a command record of two streams
scan any,2 wide-command wide-1 = ends 64,13; takes 0 -+
# a record of 17 streams
scan any,2 seventeen others=17 = ends 63,13,13,13,13,13,13,13,13,13,13,13,13,13,13,13,13; takes 0 -+
# a record of 32 streams, whose vector has 13 for stream 31
scan any,2 seventeen,13=32,56=128,57=0 others=32 = ends 63,13,13,13,13,13,13,13,13,13,13,13,13,13,13,13,13,13,13,13,13,13,13,13,13,13,13,13,13,13,13,13; takes 0 -+
# format 1
# a data record of two streams
scan any,1 first narrow-1 = ends 53,13; takes 0 -+
# an unborn stream states no format: any may be asked of it
# two unborn streams
scan any,1,2 unborn unborn = ends 0,0; takes 0 --
";

#[test]
fn logs_of_each_format_are_read(rt: HostRuntime) {
    play(&rt, rt.alloc(), LOGS);
}

static CAUSES: &str = "
# a format that was not asked
# a log of format 2
scan 1 wide wide-1 = bad 0 Format 1 2
# the first stream is of format 2
scan 1 wide narrow-1 = bad 0 Format 1 2
# the second stream is of format 2, the first unborn
scan 1 unborn wide-1 = bad 1 Format 1 2
# the first stream is of format 2, the second unborn
scan 1 wide unborn = bad 0 Format 1 2
# a format comes before a count
scan 1 wide-0,13=3 wide-1 = bad 0 Format 1 2
# an image comes before its format
scan 1 wide-1 wide-1 = bad 0 BadIndex
# a log of format 1
scan 2 first narrow-1 = bad 0 Format 2 1
# a stream of format 1 among 17
scan 2 narrow-0,13=16 others=17 = bad 0 Format 2 1
# the lowest stream that is born asks for its format
# the second stream is of format 2
scan any first wide-1 = bad 1 Format 1 2
# the second stream is of format 1
scan any wide narrow-1 = bad 1 Format 2 1
# an unborn stream, and one of format 2
scan any unborn wide-1 = ends 0,13; takes 0 --
# an unborn stream, and one of format 1
scan any unborn narrow-1 = ends 0,13; takes 0 --
# a stream of format 2, and an unborn one
scan any wide unborn = ends 55,0; takes 0 -+
# a count comes before the format of the next stream, in format 2
scan any wide-0,13=3 wide-1 = bad 0 Count 2 3
# a count comes before the format of the next stream, in format 1
scan any narrow-0,13=3 wide-1 = bad 0 Count 2 3
# a record is bad
scan any first,39=9 narrow-1 = bad 0 BadKind 13
# a format comes before records
scan any first,39=9 wide-1 = bad 1 Format 1 2
# hostile images of format 2
# a record of format 1 is none of format 2
scan any first,11=50 nothing = bad 0 BadMask 13
# a record of format 2 is none of format 1
scan any wide,11=49 nothing = bad 0 BadBody 13
# format 3
scan any wide-0,11=51 nothing = bad 0 BadMagic
# no stream
scan any wide-0,13=0 nothing = bad 0 BadCount
# 33 streams of format 2
scan any wide-0,13=33 nothing = bad 0 BadCount
# 17 streams of format 1
scan any narrow-0,13=17 nothing = bad 0 BadCount
# stream 1 in the place of stream 0
scan any wide-1 nothing = bad 0 BadIndex
# the mask of a record of 17 streams has a bit for stream 17
scan any seventeen,57=2 others=17 = bad 0 BadMask 13
# a stream of format 1 counts fewer than 17
scan any narrow-0,13=16 others=17 = bad 0 Count 17 16
";

#[test]
fn causes_of_format_2_are_named(rt: HostRuntime) {
    play(&rt, rt.alloc(), CAUSES);
}
