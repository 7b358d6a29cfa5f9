//! What followers go through.
use crate::play::play;
use std::test::*;

// Worked rows.
static ROWS: &str = "\
follower 2
# Both are applied when the first comes.
feed 1 all second
applied 0
feed 0 part 0 13 first
applied 0
rows none
feed 0 part 13 53 first
applied 2
rows 1=7
sealed 53,61
applied 2
rows 1=7

follower 2
# What waits for the missing record is left.
feed 1 all second
applied 0
feed 0 part 0 13 first
applied 0
sealed 13,61
applied 0
rows none

follower 3
# A byte of each stream in turn.
turns 82 anchored after_both alone
rows 1=7 3=9
sealed 82,77,53
applied 3
rows 1=7 3=9

follower 2
# Of nothing fed nothing is applied.
feed 1 bytes
applied 0
sealed 0,0
applied 0
rows none";

#[test]
fn worked_rows(rt: HostRuntime) {
    play(&rt, rt.alloc(), ROWS);
}

// Contents that are cut anywhere.
static CUTS: &str = "\
follower 2 cuts 54
# The first stream in two pieces, and the other between them.
feed 0 part 0 cut first
feed 1 all second
feed 0 part cut 53 first
applied 2
sealed 53,61
applied 2
rows 1=7

follower 2 cuts 62
# The second stream in two pieces, and the other between them.
feed 1 part 0 cut second
feed 0 all first
feed 1 part cut 61 second
applied 2
sealed 53,61
applied 2
rows 1=7";

#[test]
fn wherever_contents_are_cut(rt: HostRuntime) {
    play(&rt, rt.alloc(), CUTS);
}

// Epochs that come late.
static EPOCHS: &str = "\
follower 2
# Stream 1 has a record that the epoch leaves out: the epoch after it. The record after the epoch is applied.
feed 1 all second
applied 0
feed 0 part 0 13 first
applied 0
feed 0 all epoch
applied 0
feed 0 all later
applied 1
feed 1 all epoch
applied 1
sealed 94,86
applied 1
rows 7=1

follower 2
# The epoch before the record that it leaves out.
feed 0 part 0 13 first
applied 0
feed 0 all epoch
applied 0
feed 0 all later
applied 0
feed 1 part 0 13 second
applied 0
feed 1 part 13 61 second
applied 1
feed 1 all epoch
applied 1
sealed 94,86
applied 1
rows 7=1

follower 2
# A catalogue alone is not read to its end: it may have been written by a run that went on, with its epoch after it.
feed 1 all after_catalogue
applied 0
feed 0 part 0 13 first
applied 0
feed 0 part 13 52 first
applied 0
feed 0 part 52 53 first
applied 2

follower 2
# A catalogue alone is all once it is sealed.
feed 1 all after_catalogue
applied 0
feed 0 part 0 13 first
applied 0
sealed 13,61
applied 1
rows 1=7

follower 2
# An epoch that covers what is applied.
feed 0 all first
applied 1
feed 1 all second
applied 2
feed 1 all finds_both
applied 2
sealed 53,86
applied 2
rows 1=7

follower 2
# An epoch that covers one byte less.
feed 0 all first
applied 1
feed 1 all second
applied 2
feed 1 all finds_less refused LogFault { stream: 1, cause: Late { at: 13 } }
rows 1=7
feed 0 bytes refused LogFault { stream: 1, cause: Late { at: 13 } }

follower 2
# Of two late records the one of the lower stream.
feed 0 all first
applied 1
feed 0 all after_second
applied 1
feed 1 all second
applied 3
feed 1 all finds_less_of_both refused LogFault { stream: 0, cause: Late { at: 53 } }";

#[test]
fn epochs_that_come_late(rt: HostRuntime) {
    play(&rt, rt.alloc(), EPOCHS);
}

// What is no log.
static FAULTS: &str = "\
follower 2
# A kind is tested with its first byte.
feed 1 bytes 01 refused LogFault { stream: 1, cause: Body(RecordFault { at: 0, cause: BadKind }) }

follower 2
feed 0 all first
feed 0 bytes 07 refused LogFault { stream: 0, cause: Body(RecordFault { at: 53, cause: BadKind }) }

follower 2
# A length below five counts as five.
feed 0 bytes 04 00 00 00
applied 0
feed 0 bytes 03 refused LogFault { stream: 0, cause: Body(RecordFault { at: 0, cause: BadLength }) }

follower 2
# A fault stays.
feed 0 all first
applied 1
feed 1 bytes 09 refused LogFault { stream: 1, cause: Body(RecordFault { at: 0, cause: BadKind }) }
feed 0 bytes refused LogFault { stream: 1, cause: Body(RecordFault { at: 0, cause: BadKind }) }
feed 1 all second refused LogFault { stream: 1, cause: Body(RecordFault { at: 0, cause: BadKind }) }
applied 1
stay LogFault { stream: 1, cause: Body(RecordFault { at: 0, cause: BadKind }) }

follower 2
# A fault stays while a record waits. A byte by which a record is not whole is refused too.
feed 1 part 0 30 second
applied 0
feed 1 part 30 31 second
applied 0
feed 0 bytes 09 refused LogFault { stream: 0, cause: Body(RecordFault { at: 0, cause: BadKind }) }
feed 1 part 31 32 second refused LogFault { stream: 0, cause: Body(RecordFault { at: 0, cause: BadKind }) }
applied 0

follower 2
# Streams declare one thing.
feed 1 all other_table
feed 0 part 0 13 first refused LogFault { stream: 1, cause: Catalogue { with: 0, at: 6 } }

follower 2
# An epoch has one vector.
feed 1 part 0 13 second
feed 1 all epoch
feed 0 part 0 13 first
feed 0 all finds_both refused LogFault { stream: 1, cause: Epoch { with: 0, number: 1 } }

follower 2
# A record that is not whole when it is sealed.
feed 1 part 0 60 second
feed 0 all first
stay LogFault { stream: 1, cause: Body(RecordFault { at: 13, cause: Short }) }
feed 1 part 60 61 second refused LogFault { stream: 1, cause: Body(RecordFault { at: 13, cause: Short }) }

follower 2
# Records that wait for one another.
feed 0 all first_waits
applied 0
feed 1 all second_waits
applied 0
stay LogFault { stream: 0, cause: Tangled { at: 13 } }";

#[test]
fn what_is_no_log(rt: HostRuntime) {
    play(&rt, rt.alloc(), FAULTS);
}

// Rows that come and go.
static CHANGES: &str = "\
follower 1
# One by one.
feed 0 all catalogue
applied 0
feed 0 calls 1,5,1
applied 1
rows 5=1
feed 0 calls 2,3,2
applied 2
rows 3=2 5=1
feed 0 calls 3,9,3
applied 3
feed 0 calls 4,4,4
applied 4
rows 3=2 4=4 5=1 9=3
feed 0 calls 5,4,none
applied 5
rows 3=2 5=1 9=3
feed 0 calls 6,7,none
applied 6
rows 3=2 5=1 9=3
feed 0 calls 7,9,6
applied 7
rows 3=2 5=1 9=6

follower 1
# Rows 127 down to 28 come in one feed; then 70 rows are written in one, of which 0 to 5 come.
feed 0 all catalogue
applied 0
feed 0 calls 128,127,0 129,126,1 130,125,2 131,124,3 132,123,4 133,122,5 134,121,6 135,120,7 136,119,8 137,118,9 \
    138,117,10 139,116,11 140,115,12 141,114,13 142,113,14 143,112,15 144,111,16 145,110,17 146,109,18 147,108,19 \
    148,107,20 149,106,21 150,105,22 151,104,23 152,103,24 153,102,25 154,101,26 155,100,27 156,99,28 157,98,29 \
    158,97,30 159,96,31 160,95,32 161,94,33 162,93,34 163,92,35 164,91,36 165,90,37 166,89,38 167,88,39 168,87,40 \
    169,86,41 170,85,42 171,84,43 172,83,44 173,82,45 174,81,46 175,80,47 176,79,48 177,78,49 178,77,50 179,76,51 \
    180,75,52 181,74,53 182,73,54 183,72,55 184,71,56 185,70,57 186,69,58 187,68,59 188,67,60 189,66,61 190,65,62 \
    191,64,63 192,63,64 193,62,65 194,61,66 195,60,67 196,59,68 197,58,69 198,57,70 199,56,71 200,55,72 201,54,73 \
    202,53,74 203,52,75 204,51,76 205,50,77 206,49,78 207,48,79 208,47,80 209,46,81 210,45,82 211,44,83 212,43,84 \
    213,42,85 214,41,86 215,40,87 216,39,88 217,38,89 218,37,90 219,36,91 220,35,92 221,34,93 222,33,94 223,32,95 \
    224,31,96 225,30,97 226,29,98 227,28,99
applied 100
rows 28=99 29=98 30=97 31=96 32=95 33=94 34=93 35=92 36=91 37=90 38=89 39=88 40=87 41=86 42=85 43=84 44=83 45=82 46=81 \
    47=80 48=79 49=78 50=77 51=76 52=75 53=74 54=73 55=72 56=71 57=70 58=69 59=68 60=67 61=66 62=65 63=64 64=63 65=62 \
    66=61 67=60 68=59 69=58 70=57 71=56 72=55 73=54 74=53 75=52 76=51 77=50 78=49 79=48 80=47 81=46 82=45 83=44 84=43 \
    85=42 86=41 87=40 88=39 89=38 90=37 91=36 92=35 93=34 94=33 95=32 96=31 97=30 98=29 99=28 100=27 101=26 102=25 \
    103=24 104=23 105=22 106=21 107=20 108=19 109=18 110=17 111=16 112=15 113=14 114=13 115=12 116=11 117=10 118=9 \
    119=8 120=7 121=6 122=5 123=4 124=3 125=2 126=1 127=0
feed 0 calls 256,64,7 257,65,7 258,66,7 259,67,7 260,68,7 261,69,7 262,70,7 263,71,7 264,72,7 265,73,7 266,74,7 \
    267,75,7 268,76,7 269,77,7 270,78,7 271,79,7 272,80,7 273,81,7 274,82,7 275,83,7 276,84,7 277,85,7 278,86,7 \
    279,87,7 280,88,7 281,89,7 282,90,7 283,91,7 284,92,7 285,93,7 286,94,7 287,95,7 288,96,7 289,97,7 290,98,7 \
    291,99,7 292,100,7 293,101,7 294,102,7 295,103,7 296,104,7 297,105,7 298,106,7 299,107,7 300,108,7 301,109,7 \
    302,110,7 303,111,7 304,112,7 305,113,7 306,114,7 307,115,7 308,116,7 309,117,7 310,118,7 311,119,7 312,120,7 \
    313,121,7 314,122,7 315,123,7 316,124,7 317,125,7 318,126,7 319,127,7 320,0,7 321,1,7 322,2,7 323,3,7 324,4,7 \
    325,5,7
applied 170
rows 0=7 1=7 2=7 3=7 4=7 5=7 28=99 29=98 30=97 31=96 32=95 33=94 34=93 35=92 36=91 37=90 38=89 39=88 40=87 41=86 42=85 \
    43=84 44=83 45=82 46=81 47=80 48=79 49=78 50=77 51=76 52=75 53=74 54=73 55=72 56=71 57=70 58=69 59=68 60=67 61=66 \
    62=65 63=64 64=7 65=7 66=7 67=7 68=7 69=7 70=7 71=7 72=7 73=7 74=7 75=7 76=7 77=7 78=7 79=7 80=7 81=7 82=7 83=7 \
    84=7 85=7 86=7 87=7 88=7 89=7 90=7 91=7 92=7 93=7 94=7 95=7 96=7 97=7 98=7 99=7 100=7 101=7 102=7 103=7 104=7 \
    105=7 106=7 107=7 108=7 109=7 110=7 111=7 112=7 113=7 114=7 115=7 116=7 117=7 118=7 119=7 120=7 121=7 122=7 123=7 \
    124=7 125=7 126=7 127=7";

#[test]
fn rows_come_and_go(rt: HostRuntime) {
    play(&rt, rt.alloc(), CHANGES);
}
