//! Runs of the core, event by event, against the worked runs.
use crate::tests::{Play, Row, Said, Start, Text, Told, goes};
use std::test::Fail;
use tau_base::LogMode;
use tau_core::{Acted, Event, Gathering, Phase};
use tau_model::Spot;
use tau_txn::ActionKind;

/// The record of call 1, which puts 5 into row 1.
const PUT: &str =
    "01 00000028 0000000000000001 00000000 0000 0001 0000 0000000000000001 01 0000000000000005";

/// The same as a command record.
const COMMAND: &str =
    "02 00000031 0000000000000001 00000000 0000 0000 03 01 0000000000000000 01 0000000000000001 01 0000000000000005";

/// Both in format 2.
const WIDE: &str =
    "01 0000002a 0000000000000001 00000000 00000000 0001 0000 0000000000000001 01 0000000000000005";

const WIDE_COMMAND: &str =
    "02 00000033 0000000000000001 00000000 00000000 0000 03 01 0000000000000000 01 0000000000000001 01 0000000000000005";

/// In format 2, the record of call 1 that waits for stream 31 up to 55.
const AFTER_31: &str =
    "01 00000032 0000000000000001 00000000 80000000 0000000000000037 0001 0000 0000000000000001 01 0000000000000005";

static RUNS: [Play; 21] = [
    // A second writer of the row waits for the first. Its record is placed and not posted, so its stream is gathered no further than it was opened.
    (
        "a second writer waits for the first",
        Text::Of("table a\nput a 1 5\nput a 1 6\n"),
        Start::New(LogMode::Values, 2, 2),
        &[Row::Does(&[
            (Event::Lock { worker: 0 }, Said::Granted(None)),
            (Event::Lock { worker: 1 }, Said::Busy(0)),
            (Event::Commit { worker: 0 }, Said::Placed(13)),
            (Event::Post { worker: 0 }, Said::Went),
            (Event::Free { worker: 0 }, Said::Went),
            (Event::Done { worker: 0 }, Said::Went),
            (Event::Lock { worker: 1 }, Said::Granted(Some(5))),
            (Event::Commit { worker: 1 }, Said::Placed(13)),
            (
                Event::Persist {
                    stream: 1,
                    upto: 61,
                },
                Said::NotNow(Phase::Short { gathered: 13 }),
            ),
            (Event::Gather { stream: 0 }, Said::Gathered(53)),
            (
                Event::Persist {
                    stream: 0,
                    upto: 53,
                },
                Said::Went,
            ),
            (Event::Ack { worker: 0 }, Said::Acked(1, [53, 0, 0])),
            (Event::Post { worker: 1 }, Said::Went),
            (Event::Free { worker: 1 }, Said::Went),
            (Event::Done { worker: 1 }, Said::Went),
            (Event::Ack { worker: 1 }, Said::NothingCovered),
            (Event::Stop { stream: 0, at: 53 }, Said::Went),
            (
                Event::Gather { stream: 0 },
                Said::NotNow(Phase::Stopped { at: 53 }),
            ),
        ])],
    ),
    // A call that adds to a row that another one wrote depends on it across the streams: its vector covers the end of that record.
    (
        "dependence crosses the streams",
        Text::Of("table a\nput a 1 5\nadd a 1 2\n"),
        Start::New(LogMode::Values, 2, 2),
        &[
            Row::Does(&[
                (Event::Lock { worker: 0 }, Said::Granted(None)),
                (Event::Commit { worker: 0 }, Said::Placed(13)),
                (Event::Post { worker: 0 }, Said::Went),
                (Event::Free { worker: 0 }, Said::Went),
                (Event::Done { worker: 0 }, Said::Went),
                (Event::Lock { worker: 1 }, Said::Granted(Some(5))),
                (Event::Lock { worker: 1 }, Said::Granted(Some(5))),
                (Event::Commit { worker: 1 }, Said::Placed(13)),
                (Event::Post { worker: 1 }, Said::Went),
                (Event::Free { worker: 1 }, Said::Went),
                (Event::Done { worker: 1 }, Said::Went),
                (Event::Gather { stream: 1 }, Said::Gathered(61)),
                (
                    Event::Persist {
                        stream: 1,
                        upto: 61,
                    },
                    Said::Went,
                ),
                (Event::Ack { worker: 1 }, Said::NothingCovered),
                (Event::Gather { stream: 0 }, Said::Gathered(53)),
                (
                    Event::Persist {
                        stream: 0,
                        upto: 53,
                    },
                    Said::Went,
                ),
                (Event::Ack { worker: 1 }, Said::Acked(2, [53, 61, 0])),
                (Event::Ack { worker: 0 }, Said::Acked(1, [53, 0, 0])),
                (Event::Lock { worker: 0 }, Said::NotNow(Phase::Resting)),
            ]),
            Row::Keeps(0, 1, [0, 0, 0], [53, 0, 0]),
            Row::Keeps(1, 2, [53, 0, 0], [53, 61, 0]),
            Row::Finds(1, Some(7)),
        ],
    ),
    // What a Gather has moved are the records' bytes, once.
    (
        "gathered bytes are handed out once",
        Text::Of("table a\nput a 1 5\n"),
        Start::New(LogMode::Values, 2, 1),
        &[
            Row::Does(&[
                (Event::Lock { worker: 0 }, Said::Granted(None)),
                (Event::Commit { worker: 0 }, Said::Placed(13)),
                (Event::Gather { stream: 0 }, Said::Gathered(13)),
                (Event::Post { worker: 0 }, Said::Went),
                (Event::Gather { stream: 0 }, Said::Gathered(53)),
                (Event::Gather { stream: 0 }, Said::Gathered(53)),
            ]),
            Row::Hands(PUT),
            Row::Hands(""),
        ],
    ),
    // They may be put in the place of other bytes, which are gone.
    (
        "gathered bytes take the place of others",
        Text::Of("table a\nput a 1 5\nput a 2 5\n"),
        Start::New(LogMode::Values, 2, 2),
        &[
            Row::Does(&[
                (Event::Lock { worker: 1 }, Said::Granted(None)),
                (Event::Commit { worker: 1 }, Said::Placed(13)),
                (Event::Post { worker: 1 }, Said::Went),
                (Event::Gather { stream: 1 }, Said::Gathered(53)),
                (Event::Lock { worker: 0 }, Said::Granted(None)),
                (Event::Commit { worker: 0 }, Said::Placed(13)),
                (Event::Post { worker: 0 }, Said::Went),
                (Event::Gather { stream: 0 }, Said::Gathered(53)),
            ]),
            Row::HandsInstead(PUT),
            Row::Hands(""),
        ],
    ),
    // A writer of a row that another call has read depends on the reader, also where the reader wrote nothing but an absent row.
    (
        "a writer depends on an earlier reader",
        Text::Of("table a\nproc dup 0\nget r0 a 1\nput a 2 r0\nend\ncall dup\nput a 1 9\n"),
        Start::New(LogMode::Values, 2, 2),
        &[
            Row::Does(&[
                (Event::Lock { worker: 0 }, Said::Granted(None)),
                (Event::Lock { worker: 0 }, Said::Granted(None)),
                (Event::Commit { worker: 0 }, Said::Placed(50)),
                (Event::Post { worker: 0 }, Said::Went),
                (Event::Free { worker: 0 }, Said::Went),
                (Event::Free { worker: 0 }, Said::Went),
                (Event::Done { worker: 0 }, Said::Went),
                (Event::Lock { worker: 1 }, Said::Granted(None)),
                (Event::Commit { worker: 1 }, Said::Placed(50)),
                (Event::Post { worker: 1 }, Said::Went),
                (Event::Free { worker: 1 }, Said::Went),
                (Event::Done { worker: 1 }, Said::Went),
                (Event::Gather { stream: 0 }, Said::Gathered(82)),
                (Event::Gather { stream: 1 }, Said::Gathered(98)),
            ]),
            Row::Keeps(1, 2, [82, 0, 0], [82, 98, 0]),
            Row::Finds(1, Some(9)),
            Row::Finds(2, None),
        ],
    ),
    // A read-only call has no record, and is acknowledged only when what it read is persisted.
    (
        "a reader waits for what it read",
        Text::Of("table a\nput a 1 5\nget a 1\n"),
        Start::New(LogMode::Values, 2, 2),
        &[
            Row::Does(&[
                (Event::Lock { worker: 0 }, Said::Granted(None)),
                (Event::Commit { worker: 0 }, Said::Placed(13)),
                (Event::Post { worker: 0 }, Said::Went),
                (Event::Free { worker: 0 }, Said::Went),
                (Event::Done { worker: 0 }, Said::Went),
                (Event::Lock { worker: 1 }, Said::Granted(Some(5))),
                (Event::Commit { worker: 1 }, Said::NotNow(Phase::Freeing)),
                (Event::Free { worker: 1 }, Said::Went),
                (Event::Done { worker: 1 }, Said::Went),
                (Event::Gather { stream: 1 }, Said::Gathered(13)),
                (Event::Ack { worker: 0 }, Said::NothingCovered),
                (Event::Ack { worker: 1 }, Said::NothingCovered),
                (Event::Gather { stream: 0 }, Said::Gathered(53)),
                (
                    Event::Persist {
                        stream: 0,
                        upto: 53,
                    },
                    Said::Went,
                ),
                (Event::Ack { worker: 0 }, Said::Acked(1, [53, 0, 0])),
                (Event::Ack { worker: 1 }, Said::Acked(2, [53, 0, 0])),
            ]),
            Row::Stands(1, None),
        ],
    ),
    // The other worker is first: the call of worker 0 meets Busy, and then depends on it.
    (
        "the other writer may be first",
        Text::Of("table a\nput a 1 5\nput a 1 6\n"),
        Start::New(LogMode::Values, 2, 2),
        &[
            Row::Does(&[
                (Event::Lock { worker: 1 }, Said::Granted(None)),
                (Event::Lock { worker: 0 }, Said::Busy(1)),
                (Event::Quit { worker: 0 }, Said::NotNow(Phase::Locking)),
                (Event::Commit { worker: 1 }, Said::Placed(13)),
                (Event::Post { worker: 1 }, Said::Went),
                (Event::Free { worker: 1 }, Said::Went),
                (Event::Done { worker: 1 }, Said::Went),
                (Event::Lock { worker: 0 }, Said::Granted(Some(6))),
                (Event::Commit { worker: 0 }, Said::Placed(13)),
                (Event::Post { worker: 0 }, Said::Went),
                (Event::Free { worker: 0 }, Said::Went),
                (Event::Done { worker: 0 }, Said::Went),
                (Event::Gather { stream: 0 }, Said::Gathered(61)),
            ]),
            Row::Keeps(0, 2, [0, 0, 0], [0, 53, 0]),
            Row::Keeps(1, 1, [0, 53, 0], [61, 53, 0]),
            Row::Finds(1, Some(5)),
        ],
    ),
    // A call that meets Busy while it holds a key gives the key back, and begins again.
    (
        "a busy call gives its keys back",
        Text::Of("table a\nproc two 0\nput a 1 1\nput a 2 2\nend\nput a 2 6\ncall two\n"),
        Start::New(LogMode::Values, 1, 2),
        &[Row::Does(&[
            (Event::Lock { worker: 0 }, Said::Granted(None)),
            (Event::Lock { worker: 1 }, Said::Granted(None)),
            (Event::Lock { worker: 1 }, Said::Busy(0)),
            (Event::Lock { worker: 1 }, Said::NotNow(Phase::Quitting)),
            (Event::Quit { worker: 1 }, Said::Went),
            (Event::Quit { worker: 1 }, Said::NotNow(Phase::Locking)),
            (Event::Lock { worker: 1 }, Said::Granted(None)),
            (Event::Post { worker: 0 }, Said::NotNow(Phase::Ready)),
        ])],
    ),
    // An entry that was removed is in its shard's floor, so a call that comes to the row later still depends on its last writer.
    (
        "a removed entry is in the floor",
        Text::Of("table a\nput a 1 5\nadd a 1 2\n"),
        Start::New(LogMode::Values, 2, 2),
        &[
            Row::Removes,
            Row::Floor(1, [53, 0, 0]),
            Row::Floor(2, [0, 0, 0]),
            Row::Does(&[
                (Event::Lock { worker: 1 }, Said::Granted(Some(5))),
                (Event::Lock { worker: 1 }, Said::Granted(Some(5))),
                (Event::Commit { worker: 1 }, Said::Placed(13)),
            ]),
            Row::Keeps(1, 2, [53, 0, 0], [53, 61, 0]),
        ],
    ),
    // So does a call on another row of that shard, which has no entry yet.
    (
        "a new entry starts at the floor",
        Text::Of("table a\nput a 1 5\nput a 65 7\n"),
        Start::New(LogMode::Values, 2, 2),
        &[
            Row::Removes,
            Row::Does(&[
                (Event::Lock { worker: 1 }, Said::Granted(None)),
                (Event::Commit { worker: 1 }, Said::Placed(13)),
            ]),
            Row::Keeps(1, 2, [53, 0, 0], [53, 61, 0]),
        ],
    ),
    // A record above an anchor is raised to it, names it and needs no component; one in a stream without an anchor has all components.
    (
        "a record is raised to its anchor",
        Text::Of("table a\nput a 1 5\nadd a 1 2\nput a 3 9\n"),
        Start::New(LogMode::Values, 3, 3),
        &[
            Row::Does(&[
                (Event::Lock { worker: 2 }, Said::Granted(None)),
                (Event::Commit { worker: 2 }, Said::Placed(13)),
                (Event::Post { worker: 2 }, Said::Went),
                (Event::Free { worker: 2 }, Said::Went),
                (Event::Done { worker: 2 }, Said::Went),
                (Event::Gather { stream: 2 }, Said::Gathered(53)),
                (
                    Event::Persist {
                        stream: 2,
                        upto: 53,
                    },
                    Said::Went,
                ),
                (Event::Anchor { stream: 0 }, Said::Placed(13)),
                (Event::Lock { worker: 0 }, Said::Granted(None)),
                (Event::Commit { worker: 0 }, Said::Placed(42)),
                (Event::Post { worker: 0 }, Said::Went),
                (Event::Free { worker: 0 }, Said::Went),
                (Event::Done { worker: 0 }, Said::Went),
            ]),
            Row::Keeps(1, 1, [13, 13, 53], [82, 13, 53]),
            Row::Stands(
                1,
                Some(Spot {
                    stream: 0,
                    start: 42,
                    past: 82,
                    anchor: 1,
                }),
            ),
            Row::Does(&[
                (Event::Lock { worker: 1 }, Said::Granted(Some(5))),
                (Event::Lock { worker: 1 }, Said::Granted(Some(5))),
                (Event::Commit { worker: 1 }, Said::Placed(13)),
                (Event::Post { worker: 1 }, Said::Went),
                (Event::Free { worker: 1 }, Said::Went),
                (Event::Done { worker: 1 }, Said::Went),
                (Event::Gather { stream: 0 }, Said::Gathered(82)),
                (
                    Event::Persist {
                        stream: 0,
                        upto: 82,
                    },
                    Said::Went,
                ),
                (Event::Ack { worker: 0 }, Said::Acked(1, [82, 13, 53])),
                (Event::Ack { worker: 1 }, Said::NothingCovered),
                (Event::Ack { worker: 2 }, Said::Acked(3, [0, 0, 53])),
            ]),
            Row::Keeps(2, 2, [82, 13, 53], [82, 77, 53]),
            Row::Stands(
                2,
                Some(Spot {
                    stream: 1,
                    start: 13,
                    past: 77,
                    anchor: 0,
                }),
            ),
            Row::Finds(1, Some(7)),
        ],
    ),
    // A run goes on from an opening: its rows are there, its floor is in every vector, positions go on from its ends; a record names no anchor until one of this run
    // was placed, whose number comes after the opening's.
    (
        "a run goes on from an opening",
        Text::Of("table a\nadd a 1 2\nput a 2 1\n"),
        Start::Opened,
        &[
            Row::Does(&[
                (
                    Event::Persist {
                        stream: 0,
                        upto: 41,
                    },
                    Said::NotNow(Phase::Short { gathered: 40 }),
                ),
                (Event::Lock { worker: 0 }, Said::Granted(Some(5))),
                (Event::Lock { worker: 0 }, Said::Granted(Some(5))),
                (Event::Commit { worker: 0 }, Said::Placed(40)),
                (Event::Post { worker: 0 }, Said::Went),
                (Event::Free { worker: 0 }, Said::Went),
                (Event::Done { worker: 0 }, Said::Went),
                (Event::Anchor { stream: 0 }, Said::Placed(96)),
                (Event::Lock { worker: 0 }, Said::Granted(None)),
                (Event::Commit { worker: 0 }, Said::Placed(117)),
            ]),
            Row::Keeps(0, 1, [20, 30, 0], [96, 30, 0]),
            Row::Stands(
                0,
                Some(Spot {
                    stream: 0,
                    start: 40,
                    past: 96,
                    anchor: 0,
                }),
            ),
            Row::Keeps(1, 2, [40, 50, 0], [157, 50, 0]),
            Row::Stands(
                1,
                Some(Spot {
                    stream: 0,
                    start: 117,
                    past: 157,
                    anchor: 3,
                }),
            ),
            Row::Ends([157, 50, 0]),
            Row::Finds(1, Some(7)),
        ],
    ),
    // A call that has met Busy 64 times is left over, and goes back to its worker when all others have finished.
    (
        "the last busy leaves a call over",
        Text::Of("table a\nput a 1 5\nput a 1 6\n"),
        Start::New(LogMode::Values, 2, 2),
        &[
            Row::Does(&[(Event::Lock { worker: 0 }, Said::Granted(None))]),
            Row::DoesAlways(64, Event::Lock { worker: 1 }, Said::Busy(0)),
            Row::Does(&[
                (Event::Lock { worker: 1 }, Said::NotNow(Phase::Resting)),
                (Event::Commit { worker: 0 }, Said::Placed(13)),
                (Event::Post { worker: 0 }, Said::Went),
                (Event::Free { worker: 0 }, Said::Went),
            ]),
            Row::Resumes(None),
            Row::Does(&[(Event::Done { worker: 0 }, Said::Went)]),
            Row::Resumes(Some(1)),
            Row::Does(&[
                (Event::Lock { worker: 1 }, Said::Granted(Some(5))),
                (Event::Commit { worker: 1 }, Said::Placed(13)),
            ]),
            Row::Resumes(None),
        ],
    ),
    // Two hundred calls that were left over of two workers go back in ascending order.
    (
        "calls left over go back in order",
        Text::Puts(300),
        Start::New(LogMode::Values, 2, 3),
        &[
            Row::Does(&[(Event::Lock { worker: 0 }, Said::Granted(None))]),
            Row::DoesAlways(6_400, Event::Lock { worker: 1 }, Said::Busy(0)),
            Row::DoesAlways(6_400, Event::Lock { worker: 2 }, Said::Busy(0)),
            Row::Finishes(0),
            Row::Runs(0, 99),
            Row::GoBack(100),
            Row::Resumes(None),
            Row::Commits(300),
            Row::Numbers(99, 298),
            Row::Numbers(100, 2),
            Row::Numbers(101, 3),
            Row::Numbers(102, 5),
            Row::Numbers(299, 300),
        ],
    ),
    // The calls of single events tell what their events return: the second writer is barred by worker 0, and its record is placed after that of its
    // stream's catalogue.
    (
        "single calls tell what events return",
        Text::Of("table a\nput a 1 5\nput a 1 6\n"),
        Start::New(LogMode::Values, 2, 2),
        &[
            Row::Tells(&[
                (
                    Event::Post { worker: 0 },
                    Told::Acted(Acted::Other {
                        kind: ActionKind::Nothing,
                    }),
                ),
                (Event::Lock { worker: 0 }, Told::Acted(Acted::Went)),
                (
                    Event::Lock { worker: 1 },
                    Told::Acted(Acted::Busy { holder: 0 }),
                ),
                (
                    Event::Quit { worker: 0 },
                    Told::Acted(Acted::Other {
                        kind: ActionKind::Commit,
                    }),
                ),
                (Event::Commit { worker: 0 }, Told::Acted(Acted::Went)),
                (
                    Event::Gather { stream: 0 },
                    Told::Gathered(Gathering::Upto { upto: 13 }),
                ),
                (Event::Post { worker: 0 }, Told::Acted(Acted::Went)),
                (Event::Free { worker: 0 }, Told::Acted(Acted::Went)),
                (Event::Done { worker: 0 }, Told::Acted(Acted::Went)),
                (Event::Ack { worker: 0 }, Told::NothingCovered),
                (
                    Event::Gather { stream: 0 },
                    Told::Gathered(Gathering::Upto { upto: 53 }),
                ),
            ]),
            Row::Tells(&[
                (
                    Event::Persist {
                        stream: 0,
                        upto: 54,
                    },
                    Told::Reached(Some(Phase::Short { gathered: 53 })),
                ),
                (
                    Event::Persist {
                        stream: 0,
                        upto: 53,
                    },
                    Told::Reached(None),
                ),
                (Event::Ack { worker: 0 }, Told::Acked(1, [53, 0, 0])),
                (Event::Lock { worker: 1 }, Told::Acted(Acted::Went)),
                (Event::Stop { stream: 0, at: 53 }, Told::Reached(None)),
                (
                    Event::Gather { stream: 0 },
                    Told::Gathered(Gathering::Stopped { at: 53 }),
                ),
            ]),
            Row::Finds(1, Some(5)),
        ],
    ),
    // A worker that rests wants the first lock of its next call. It is not taken, and the call begins again; once it has the key it
    // wants no other lock. Nothing is persisted before a flush is.
    (
        "a lock that is not taken",
        Text::Of("table a\nput a 7 5\n"),
        Start::New(LogMode::Values, 1, 1),
        &[
            Row::Asks(Some((1, 7, true))),
            Row::Retries(Said::Went),
            Row::Asks(Some((1, 7, true))),
            Row::Does(&[(Event::Lock { worker: 0 }, Said::Granted(None))]),
            Row::Asks(None),
            Row::Retries(Said::NotNow(Phase::Ready)),
            Row::Tells(&[
                (Event::Commit { worker: 0 }, Told::Acted(Acted::Went)),
                (Event::Post { worker: 0 }, Told::Acted(Acted::Went)),
                (
                    Event::Gather { stream: 0 },
                    Told::Gathered(Gathering::Upto { upto: 53 }),
                ),
            ]),
            Row::Persisted([13, 0, 0]),
            Row::Tells(&[(
                Event::Persist {
                    stream: 0,
                    upto: 53,
                },
                Told::Reached(None),
            )]),
            Row::Persisted([53, 0, 0]),
        ],
    ),
    // The mode says whether a record holds the call, and whether its mask has 16 bits or 32.
    (
        "the mode commands has its records",
        Text::Of("table a\nput a 1 5\n"),
        Start::New(LogMode::Commands, 2, 1),
        &[
            Row::Does(&[
                (Event::Lock { worker: 0 }, Said::Granted(None)),
                (Event::Commit { worker: 0 }, Said::Placed(13)),
                (Event::Post { worker: 0 }, Said::Went),
                (Event::Free { worker: 0 }, Said::Went),
                (Event::Done { worker: 0 }, Said::Went),
                (Event::Gather { stream: 0 }, Said::Gathered(62)),
            ]),
            Row::Hands(COMMAND),
            Row::Does(&[
                (
                    Event::Persist {
                        stream: 0,
                        upto: 62,
                    },
                    Said::Went,
                ),
                (Event::Ack { worker: 0 }, Said::Acked(1, [62, 0, 0])),
            ]),
        ],
    ),
    (
        "the mode of wide values has its records",
        Text::Of("table a\nput a 1 5\n"),
        Start::New(LogMode::WideValues, 2, 1),
        &[
            Row::Does(&[
                (Event::Lock { worker: 0 }, Said::Granted(None)),
                (Event::Commit { worker: 0 }, Said::Placed(13)),
                (Event::Post { worker: 0 }, Said::Went),
                (Event::Free { worker: 0 }, Said::Went),
                (Event::Done { worker: 0 }, Said::Went),
                (Event::Gather { stream: 0 }, Said::Gathered(55)),
            ]),
            Row::Hands(WIDE),
            Row::Does(&[
                (
                    Event::Persist {
                        stream: 0,
                        upto: 55,
                    },
                    Said::Went,
                ),
                (Event::Ack { worker: 0 }, Said::Acked(1, [55, 0, 0])),
            ]),
        ],
    ),
    (
        "the mode of wide commands has its records",
        Text::Of("table a\nput a 1 5\n"),
        Start::New(LogMode::WideCommands, 2, 1),
        &[
            Row::Does(&[
                (Event::Lock { worker: 0 }, Said::Granted(None)),
                (Event::Commit { worker: 0 }, Said::Placed(13)),
                (Event::Post { worker: 0 }, Said::Went),
                (Event::Free { worker: 0 }, Said::Went),
                (Event::Done { worker: 0 }, Said::Went),
                (Event::Gather { stream: 0 }, Said::Gathered(64)),
            ]),
            Row::Hands(WIDE_COMMAND),
            Row::Does(&[
                (
                    Event::Persist {
                        stream: 0,
                        upto: 64,
                    },
                    Said::Went,
                ),
                (Event::Ack { worker: 0 }, Said::Acked(1, [64, 0, 0])),
            ]),
        ],
    ),
    // Of 32 streams and 32 workers, the last call runs to its end. The first one is then raised to an anchor of all streams.
    (
        "the last of 32 workers runs",
        Text::Puts(32),
        Start::New(LogMode::WideValues, 32, 32),
        &[
            Row::Does(&[
                (Event::Lock { worker: 31 }, Said::Granted(None)),
                (Event::Lock { worker: 0 }, Said::Busy(31)),
                (Event::Commit { worker: 31 }, Said::Placed(13)),
                (Event::Post { worker: 31 }, Said::Went),
                (Event::Free { worker: 31 }, Said::Went),
                (Event::Done { worker: 31 }, Said::Went),
                (Event::Gather { stream: 31 }, Said::Gathered(55)),
                (
                    Event::Persist {
                        stream: 31,
                        upto: 55,
                    },
                    Said::Went,
                ),
                (Event::Ack { worker: 31 }, Said::Acked(32, [0, 0, 0])),
                (Event::Anchor { stream: 0 }, Said::Placed(13)),
                (Event::Lock { worker: 0 }, Said::Granted(Some(5))),
                (Event::Commit { worker: 0 }, Said::Placed(274)),
                (Event::Post { worker: 0 }, Said::Went),
                (Event::Free { worker: 0 }, Said::Went),
                (Event::Done { worker: 0 }, Said::Went),
                (Event::Gather { stream: 0 }, Said::Gathered(316)),
                (
                    Event::Persist {
                        stream: 0,
                        upto: 316,
                    },
                    Said::Went,
                ),
                (Event::Ack { worker: 0 }, Said::Acked(1, [316, 13, 13])),
            ]),
            Row::Reaches(0, 31, (0, 55)),
            Row::Reaches(1, 31, (55, 55)),
            Row::Reaches(1, 16, (13, 13)),
            Row::Reaches(1, 0, (13, 316)),
            Row::Stands(
                1,
                Some(Spot {
                    stream: 0,
                    start: 274,
                    past: 316,
                    anchor: 1,
                }),
            ),
        ],
    ),
    // Of 32 streams, the first worker depends on the last one: the mask of its record has bit 31.
    (
        "masks reach the last of 32 streams",
        Text::Puts(32),
        Start::New(LogMode::WideValues, 32, 32),
        &[
            Row::Does(&[
                (Event::Lock { worker: 31 }, Said::Granted(None)),
                (Event::Commit { worker: 31 }, Said::Placed(13)),
                (Event::Post { worker: 31 }, Said::Went),
                (Event::Free { worker: 31 }, Said::Went),
                (Event::Lock { worker: 0 }, Said::Granted(Some(5))),
                (Event::Commit { worker: 0 }, Said::Placed(13)),
                (Event::Post { worker: 0 }, Said::Went),
                (Event::Gather { stream: 0 }, Said::Gathered(63)),
            ]),
            Row::Hands(AFTER_31),
            Row::Reaches(1, 31, (55, 55)),
            Row::Reaches(1, 0, (0, 63)),
        ],
    ),
];

#[test]
fn runs_go_as_worked(rt: HostRuntime) -> Result<(), Fail> {
    for run in &RUNS {
        goes(&rt, rt.alloc(), run)?;
    }
    Ok(())
}
