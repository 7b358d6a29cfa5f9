//! Checkpoints that are read, chosen, redone on and written, with values worked out by hand.
use crate::play::play;
use std::test::*;

// What images of a slot hold.
static SLOTS_READ: &str = "\
# The stated bytes are read.
length SLOT = 80
read 0 SLOT = 1 0 53 61 0 1 7
# Fields are told apart: the number 2^62 - 1 and epoch 258, in slot 1; and two rows.
read 1 SLOT 16:1 25:63 26:255 27:255 28:255 29:255 30:255 31:255 32:255 35:1 36:2 = 4611686018427387903 258 53 61 0 1 7
read 0 TWO = 1 0 53 61 0 1 7 0 2 8
# Bytes after the body do not count.
read 0 SLOT 09 = 1 0 53 61 0 1 7
# A closed gate, and one that reads 7, hold none.
read 0 SLOT 0:0 = none
read 0 SLOT 0:7 = none
# Another text.
read 0 SLOT 12:50 = none
# No stream, 33 of them, and 256 more than there are.
read 0 SLOT 14:0 = none
read 0 SLOT 14:33 = none
read 0 SLOT 13:1 = none
# The other slot.
read 0 SLOT 16:1 = none
read 1 SLOT = none
# A third slot.
read 2 SLOT 16:2 = none
# A part of the image.
read 0 none = none
read 0 01 = none
read 0 01 5441555255532d434b502d31 0002 0000 00 = none
read 0 01 5441555255532d434b502d31 0002 0000 0000000000000037 0000000000000001 00000000 0000000000000035 000000000000003d 0000000000000001 0000 0000000000000001 01 00000000000000 = none
# A body that goes past the image.
read 0 SLOT 24:56 = none
read 0 SLOT 17:255 = none
# One that ends within its row.
read 0 SLOT 24:54 = none
read 0 SLOT 24:19 = none
# A byte that is left over within the body.
read 0 SLOT 24:56 00 = none
# The numbers 0 and 2^62.
read 0 SLOT 32:0 = none
read 0 SLOT 25:64 32:0 = none
# A position of 2^62.
read 0 SLOT 37:64 = none
# No row, and two.
read 0 SLOT 60:0 = none
read 0 SLOT 60:2 = none
# An unknown kind of value, and an absent row, with the length of a body that ends after it.
read 0 SLOT 71:3 = none
read 0 SLOT 24:47 71:0 = none
# Twice the same row, and rows that do not ascend.
read 0 TWO 89:1 = none
read 0 TWO 70:3 = none
# Both slots are read. What names slot 0 is none in slot 1.
slots = 2
hold SLOT / none = 1 0
hold 00 / SLOT = 0 0
hold none / SLOT 16:1 = 0 1
";

#[test]
fn images_of_slots_are_read(rt: HostRuntime) {
    play(&rt, rt.alloc(), SLOTS_READ);
}

// Which checkpoint is redone on, and where the next one is written.
static CHOICES: &str = "\
# The newest that fits is taken. The log ends at 134 and 86, and its largest epoch is 1.
chosen CONTINUED none / none = none
chosen CONTINUED 1 0 53 61 / none = 1 0
chosen CONTINUED none / 1 1 134 86 = 1 1
chosen CONTINUED 1 0 0 0 / 2 0 0 0 = 2 0
chosen CONTINUED 2 0 0 0 / 1 0 0 0 = 2 0
# Of two with one number that of slot 0.
chosen CONTINUED 3 0 0 0 / 3 1 0 0 = 3 0
chosen CONTINUED 3 1 0 0 / 3 0 0 0 = 3 1
# An epoch above the known ones, positions after an end, another number of streams.
chosen CONTINUED 1 0 0 0 / 2 2 0 0 = 1 0
chosen CONTINUED 1 0 0 0 / 2 0 135 86 = 1 0
chosen CONTINUED 2 0 134 87 / 1 0 0 0 = 1 0
chosen CONTINUED 2 0 0 0 0 / 1 0 0 0 = 1 0
chosen CONTINUED 1 2 0 0 / 2 0 0 0 0 = none
# The next goes over none or the older one.
next none / none = 0 1
next 5 0 0 0 / none = 1 6
next none / 5 0 0 0 = 0 6
next 5 0 0 0 / 6 0 0 0 = 0 7
next 6 0 0 0 / 5 0 0 0 = 1 7
next 5 0 0 0 / 5 0 0 0 = 0 6
# What fits no log counts too.
next 9 0 0 0 0 / 5 0 0 0 = 1 10
next 5 7 0 0 / 4 0 0 0 0 = 1 6
# The last number, 2^62 - 1, is written, and none after it.
next 4611686018427387902 0 0 0 / none = 1 4611686018427387903
next 4611686018427387903 0 0 0 / none = last 32
next 5 0 0 0 / 4611686018427387903 0 0 0 0 = last 33
next 4611686018427387903 0 0 0 0 / 4611686018427387903 0 0 0 0 = last 32
";

#[test]
fn checkpoints_are_chosen(rt: HostRuntime) {
    play(&rt, rt.alloc(), CHOICES);
}

// Logs of two streams that are redone on checkpoints.
static LOGS: &str = "\
# What came after a checkpoint is redone on its rows.
redo CONTINUED SLOT = 0 1 8
# Nothing came after it, and what was before is not redone: the row stays as the checkpoint has it.
redo LOG SLOT 79:9 = 0 1 9
# Records that wait for each other are tangled. A checkpoint that ends after one of them leaves the other alone.
after TANGLED 1 0 0 0 = tangled 0 13
after TANGLED 1 0 0 61 = 0 1 5
after TANGLED 1 0 61 0 = 0 2 6
# A checkpoint has the ends and the largest epoch.
mark LOG 4 = 4 0 53 61
mark CONTINUED 4 = 4 1 134 86
";

#[test]
fn logs_are_redone_on_checkpoints(rt: HostRuntime) {
    play(&rt, rt.alloc(), LOGS);
}

// Slots that are written on disks that stop.
static STOPS: &str = "\
# Calls 1 to 7 write the first one: the length is asked, and the gate, the bytes behind it and the gate again are written, each with
# a sync. In calls 8 to 15 the gate is also read. Each stop leaves none, the old one or the new one.
stop 1 = 0 0 0 0
stop 2 = 0 0 0 0
stop 3 = 0 0 0 0
stop 4 = 0 0 0 0
stop 5 = 0 0 0 0
stop 6 = 0 0 0 0
stop 7 = 0 0 1 0
stop 8 = 0 1 1 1
stop 9 = 0 1 1 1
stop 10 = 0 1 1 1
stop 11 = 0 1 0 0
stop 12 = 0 0 0 0
stop 13 = 0 0 0 0
stop 14 = 0 0 0 0
stop 15 = 0 0 2 0
stop 16 = 1 2 2 2
# The stated bytes are written: on no byte, over an open gate and what stands behind it, and over a closed gate, which is not written
# first.
write none = 7 SLOT
write SLOT = 8 SLOT
write 010203 = 8 SLOT
write 00 = 6 SLOT
write SLOT 0506 = 8 SLOT 0506
";

#[test]
fn slots_are_written(rt: HostRuntime) {
    play(&rt, rt.alloc(), STOPS);
}
