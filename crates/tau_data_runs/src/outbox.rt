//! Pieces of streams that wait to be gathered.
use std::alloc::Global;
use std::process::Abort;
use std::test::Fail;
use tau_outbox::Outbox;

/// Pieces at 13, 15 and 20.
fn posted(rt: &impl Abort, alloc: Global) -> Outbox {
    let mut outbox = Outbox::new(alloc);
    assert_eq!(rt; outbox.reserve(), Ok(()));
    outbox.post(13, vec![in alloc; 1, 2].expect(rt, "memory"));
    assert_eq!(rt; outbox.reserve(), Ok(()));
    outbox.post(15, vec![in alloc; 3].expect(rt, "memory"));
    assert_eq!(rt; outbox.reserve(), Ok(()));
    outbox.post(20, vec![in alloc; 4].expect(rt, "memory"));
    outbox
}

/// Gathering at a place ends at `past`, and the body holds these bytes then.
fn gathers(
    rt: &impl Abort,
    outbox: &mut Outbox,
    body: &mut Vec<u8>,
    next: u64,
    past: u64,
    bytes: &[u8],
) {
    assert_eq!(rt; outbox.gather_into(next, body), Ok(past));
    assert_eq!(rt; body.as_slice(), bytes);
}

// Pieces at 13, 15 and 20: nothing is gathered past the hole from 16 to 20.
#[test]
fn gathers_up_to_a_hole(rt: HostRuntime) {
    let mut outbox = posted(&rt, rt.alloc());
    let mut body = Vec::new(rt.alloc());
    gathers(&rt, &mut outbox, &mut body, 12, 12, &[]);
    gathers(&rt, &mut outbox, &mut body, 13, 16, &[1, 2, 3]);
    gathers(&rt, &mut outbox, &mut body, 20, 21, &[1, 2, 3, 4]);
    assert!(rt; !outbox.closed());
    outbox.close();
    assert!(rt; outbox.closed());
}

// The piece that waits at 13 moves into room that was made before.
#[test]
fn gathers_into_room_that_was_made(rt: HostRuntime) {
    let mut outbox = Outbox::new(rt.alloc());
    let mut body = Vec::with_capacity(rt.alloc(), 2).expect(&rt, "memory");
    assert_eq!(rt; outbox.reserve(), Ok(()));
    outbox.post(13, vec![in rt.alloc(); 1, 2].expect(&rt, "memory"));
    assert_eq!(rt; outbox.gather_reserved(13, &mut body), 15);
    assert_eq!(rt; body.as_slice(), [1, 2].as_slice());
    assert_eq!(rt; outbox.gather_reserved(15, &mut body), 15);
}

// The memory of a piece that was gathered is given out for another one.
#[test]
fn memory_of_a_gathered_piece_is_given_out(rt: HostRuntime) -> Result<(), Fail> {
    let mut outbox = Outbox::new(rt.alloc());
    outbox.reserve()?;
    outbox.post(13, vec![in rt.alloc(); 1, 2]?);
    let mut body = Vec::new(rt.alloc());
    assert_eq!(rt; outbox.gather_into(13, &mut body), Ok(15));
    let spare = outbox.spare();
    assert!(rt; spare.is_empty());
    assert!(rt; spare.capacity() >= 2);
    assert_eq!(rt; outbox.spare().capacity(), 0);
    Ok(())
}
