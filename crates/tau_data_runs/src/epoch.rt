//! Epochs that are known, and the vectors by which records are judged.
use crate::support::vector;
use std::alloc::Global;
use std::process::Abort;
use tau_epoch::{EpochRefusal, Epochs};

/// What is done with epochs, and what is then so.
#[derive(Clone, Copy)]
enum Row<'a> {
    /// The epoch with this number and vector is made known.
    Adds(u32, &'a [u64]),
    /// An epoch with this number and vector is refused, since it is known with another vector.
    Differs(u32, &'a [u64], &'a [u64]),
    /// How many are known.
    Knows(usize),
    /// The greatest number, if one is known.
    Last(Option<u32>),
    /// The greatest number, or 0.
    Largest(u32),
    /// The vector of the least epoch above this number.
    Above(u32, &'a [u64]),
    /// No epoch is above this number.
    NoneAbove(u32),
    /// If the streams have these lengths, a record of this epoch is judged by this vector.
    Judges(&'a [u64], u32, &'a [u64]),
    /// The same: whether this vector is covered.
    Covers(&'a [u64], u32, &'a [u64], bool),
}

fn adds(
    rt: &impl Abort,
    epochs: &mut Epochs,
    number: u32,
    parts: &[u64],
    wanted: Result<(), EpochRefusal>,
) {
    assert_eq!(rt; epochs.add(number, vector(rt, parts)), wanted);
}

fn knows(rt: &impl Abort, epochs: &Epochs, count: usize) {
    assert_eq!(rt; epochs.len(), count);
    assert!(rt; epochs.is_empty() == (count == 0));
}

fn has_above(rt: &impl Abort, epochs: &Epochs, number: u32, parts: &[u64]) {
    assert_eq!(rt; epochs.above(number), Some(&vector(rt, parts)));
}

fn judges(rt: &impl Abort, epochs: &Epochs, lengths: &[u64], number: u32, parts: &[u64]) {
    assert_eq!(rt;
        epochs.judging(&vector(rt, lengths), number),
        vector(rt, parts)
    );
}

fn covers(rt: &impl Abort, epochs: &Epochs, lengths: &[u64], number: u32, parts: &[u64]) -> bool {
    epochs
        .judging(&vector(rt, lengths), number)
        .covers(&vector(rt, parts))
}

fn goes(rt: &impl Abort, epochs: &mut Epochs, row: &Row<'_>) {
    match row {
        Row::Adds(number, parts) => adds(rt, epochs, *number, parts, Ok(())),
        Row::Differs(number, parts, known) => {
            let refused = EpochRefusal::Differs(vector(rt, known));
            adds(rt, epochs, *number, parts, Err(refused));
        }
        Row::Knows(count) => knows(rt, epochs, *count),
        Row::Last(number) => assert_eq!(rt; epochs.last(), *number),
        Row::Largest(number) => assert_eq!(rt; epochs.largest(), *number),
        Row::Above(number, parts) => has_above(rt, epochs, *number, parts),
        Row::NoneAbove(number) => assert!(rt; epochs.above(*number).is_none()),
        Row::Judges(lengths, number, parts) => judges(rt, epochs, lengths, *number, parts),
        Row::Covers(lengths, number, parts, is_covered) => {
            assert!(rt; covers(rt, epochs, lengths, *number, parts) == *is_covered);
        }
    }
}

/// Does these rows one after another with epochs of which none is known.
fn go(rt: &impl Abort, alloc: Global, rows: &[Row<'_>]) {
    let mut epochs = Epochs::new(alloc);
    for row in rows {
        goes(rt, &mut epochs, row);
    }
}

/// Streams of 94 and 86 bytes, in which a second run found 13 and 61 bytes. A record of the first run that asks for 53 bytes
/// of stream 0 is left out for good; what the second run wrote is judged against the lengths.
static SECOND_RUN: [Row<'static>; 8] = [
    Row::Knows(0),
    Row::Largest(0),
    Row::Covers(&[94, 86], 0, &[53, 0], true),
    Row::Adds(1, &[13, 61]),
    Row::Knows(1),
    Row::Judges(&[94, 86], 0, &[13, 61]),
    Row::Covers(&[94, 86], 0, &[53, 0], false),
    Row::Judges(&[94, 86], 1, &[94, 86]),
];

/// Epochs 7, 2 and 4 are made known in this order, 4 twice, with the vectors (60,90), (30,0) and (30,90). The streams have
/// 50 and 80 bytes then.
static THREE: [Row<'static>; 16] = [
    Row::Last(None),
    Row::Adds(7, &[60, 90]),
    Row::Adds(2, &[30, 0]),
    Row::Adds(4, &[30, 90]),
    Row::Adds(4, &[30, 90]),
    Row::Differs(4, &[30, 0], &[30, 90]),
    Row::Knows(3),
    Row::Last(Some(7)),
    Row::Above(1, &[30, 0]),
    Row::Above(2, &[30, 90]),
    Row::Above(4, &[60, 90]),
    Row::NoneAbove(7),
    Row::Judges(&[50, 80], 0, &[30, 0]),
    Row::Judges(&[50, 80], 3, &[30, 80]),
    Row::Judges(&[50, 80], 4, &[50, 80]),
    Row::Judges(&[50, 80], 7, &[50, 80]),
];

#[test]
fn records_are_judged_by_the_least_epoch_above(rt: HostRuntime) {
    go(&rt, rt.alloc(), &SECOND_RUN);
    go(&rt, rt.alloc(), &THREE);
}
