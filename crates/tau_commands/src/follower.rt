//! A second copy that is fed pieces of the streams.
ghost use Rattle.std.specs.Prelude.{◌≡◌, ◌≤◌, ◌<◌, ◌++◌, ◌+◌, [], ℕ, List, Ok, Err, Some, length, replicate, string_bytes, IfOk, OnOk};
ghost use Rattle.tau_base.specs.declared.format.Format.{Format as OneFormat};
ghost use Rattle.tau_base.specs.declared.limits.TheConstants.{MAX_STREAMS, MAX_WORKLOAD};
ghost use Rattle.tau_base.specs.Modes.{most_streams};
ghost use Rattle.tau_scan.specs.declared.fault.LogFault.{LogFault as OneFault};
ghost use Rattle.tau_scan.specs.declared.log.Log.{Log as OneLog};
ghost use Rattle.tau_report.specs.Recovery.{recover_text};
ghost use Rattle.tau_follow_laws.specs.Feeding.{Piece as OnePiece, with_piece, read_now, HasFed};
ghost use Rattle.tau_follow_laws.specs.Following.{Followed, begun};
ghost use Rattle.tau_follow.specs.Follower.{IsOpen, Follows, IsSealed, width_of, rows_of};
ghost use Rattle.tau_follow.specs.declared.refusal.FollowRefusal.TheVariants as refusals;
ghost use Rattle.tau_disk.specs.Disk.{Rose};
ghost use Rattle.tau_words.specs.declared.command.Command.{Command};
ghost use Rattle.tau_commands.specs.Following.{applied_line, fed_format, FedTold, IsFedBad, IsFollowed, IsBadFollowed, TellsAfter, HasFedText, HasFollowedText, EndsFollowing, OfFollow};
ghost use Rattle.tau_commands.specs.Outside.{Wrote};
ghost use Rattle.tau_commands.specs.Reads.{HasReadSource};
ghost use Rattle.tau_commands.specs.Sources.{ArePieces};

use crate::fault::{fault_line, refuse};
use crate::pieces::{HEAD, Piece, bad_piece, piece_in};
use crate::source::{SourceRefusal, read_text};
use crate::status::Status;
use std::alloc::{AllocError, Global};
use tau_base::{Format, NoMemory, most_streams};
use tau_disk::{Sink, Source, write_all};
use tau_follow::{FollowRefusal, Follower};
use tau_report::recover_text;

// The format of the contents of so many streams.
fn fed_format(n: u16) -> Format
    requires { n ≤ MAX_STREAMS }
    ensures value { result ≡ fed_format n }
    ensures fits { n ≤ most_streams result }
{
    if n as usize <= most_streams(Format::One) {
        Format::One
    } else {
        Format::Two
    }
}

// The line of so many applied records.
fn applied_line(alloc: Global, count: usize) -> Result<String, AllocError>
    ensures { IfOk result (λ text. string_bytes text ≡ applied_line count) }
{
    format!(in alloc; "applied {count}\n")
}

// The last line of applied records, and how many it tells of.
#[derive(Drop)]
struct Told {
    count: usize,
    line: String,
}

// Puts the line of so many applied records. It is made only when their number is another one than before.
fn put_applied(
    alloc: Global,
    lines: &mut Vec<u8>,
    told: &mut Told,
    count: usize,
) -> Result<(), AllocError>
    requires { string_bytes told.old.line ≡ applied_line told.old.count }
    ensures ok { OnOk result (lines.new.items ≡ lines.old.items ++ applied_line count) }
    ensures told { string_bytes told.new.line ≡ applied_line told.new.count }
{
    if told.count != count {
        match applied_line(alloc, count) {
            Ok(line) => {
                told.line = line;
                told.count = count;
            }
            Err(e) => return Err(e),
        }
    }
    lines.extend_from_slice(told.line.as_bytes())
}

// Feeds a piece, and puts how many records are applied then.
fn feed_piece(
    alloc: Global,
    follower: &mut Follower,
    piece: &Piece<'_>,
    lines: &mut Vec<u8>,
    told: &mut Told,
) -> Result<(), FollowRefusal>
    requires open { IsOpen follower.old }
    requires told { string_bytes told.old.line ≡ applied_line told.old.count }
    requires stream { piece.now.stream < width_of follower.old }
    ensures ok { (f : OneFormat) (n : ℕ) (fed : List (List ℕ)) (s : Followed) → Follows f n fed s follower.old →
        OnOk result ((t : Followed) × HasFed f (with_piece fed piece.now) s t × Follows f n (with_piece fed piece.now) t follower.new × (lines.new.items ≡ lines.old.items ++ applied_line (length t.order))) }
    ensures bad { (f : OneFormat) (n : ℕ) (fed : List (List ℕ)) (s : Followed) (fault : OneFault) → Follows f n fed s follower.old → result ≡ Err (refusals.Bad fault) →
        (read_now f (with_piece fed piece.now) s.order ≡ Err fault) × (lines.new.items ≡ lines.old.items) }
    ensures open { OnOk result (IsOpen follower.new) }
    ensures width { width_of follower.new ≡ width_of follower.old }
    ensures told { string_bytes told.new.line ≡ applied_line told.new.count }
{
    match follower.feed(piece.stream, piece.bytes) {
        Ok(()) => {}
        Err(e) => return Err(e),
    }
    match put_applied(alloc, lines, told, follower.applied()) {
        Ok(()) => Ok(()),
        Err(_) => Err(FollowRefusal::NoMemory),
    }
}

// Feeds the pieces of a text, one after another, each with its line. Of a bad feed there is no line.
fn feed_pieces(
    alloc: Global,
    follower: &mut Follower,
    streams: u8,
    text: &[u8],
    lines: &mut Vec<u8>,
) -> Result<(), FollowRefusal>
    requires within { length text.now ≤ MAX_WORKLOAD }
    requires begun { Follows (fed_format streams) streams (replicate streams []) (begun streams) follower.old }
    requires open { IsOpen follower.old }
    requires empty { lines.old.items ≡ [] }
    ensures ok { (pieces : List OnePiece) → ArePieces streams pieces text.now → OnOk result ((fed : List (List ℕ)) × (s : Followed) × FedTold streams pieces lines.new.items fed s × Follows (fed_format streams) streams fed s follower.new) }
    ensures bad { (pieces : List OnePiece) (fault : OneFault) → ArePieces streams pieces text.now → result ≡ Err (refusals.Bad fault) → IsFedBad streams pieces fault lines.new.items }
    ensures open { OnOk result (IsOpen follower.new) }
{
    let Ok(line) = applied_line(alloc, 0) else {
        return Err(FollowRefusal::NoMemory);
    };
    let mut told = Told { count: 0, line };
    let mut at = 0;
    while let Some(piece) = piece_in(&text[at..], streams) {
        match feed_piece(alloc, follower, &piece, lines, &mut told) {
            Ok(()) => {}
            Err(e) => return Err(e),
        }
        at += HEAD + piece.bytes.len();
    }
    Ok(())
}

// Puts what recovery finds in the log of a sealed follower.
fn put_recovery(alloc: Global, follower: &Follower, lines: &mut Vec<u8>) -> Result<(), NoMemory>
    ensures { (f : OneFormat) (fed : List (List ℕ)) (log : OneLog) → IsSealed f fed log follower.now → OnOk result (lines.new.items ≡ lines.old.items ++ recover_text log (rows_of follower.now)) }
{
    let Some(log) = follower.log() else {
        return Err(NoMemory);
    };
    let text = recover_text(alloc, log, follower.tables())?;
    match lines.extend_from_slice(&text) {
        Ok(()) => Ok(()),
        Err(_) => Err(NoMemory),
    }
}

// Feeds a follower the pieces of a text, seals it, and puts what it tells: its lines, and the text of recovery. If a feed
// or the end is bad, the lines before.
fn feed_and_seal(
    alloc: Global,
    follower: &mut Follower,
    streams: u8,
    text: &[u8],
    lines: &mut Vec<u8>,
) -> Result<(), FollowRefusal>
    requires within { length text.now ≤ MAX_WORKLOAD }
    requires begun { Follows (fed_format streams) streams (replicate streams []) (begun streams) follower.old }
    requires open { IsOpen follower.old }
    requires empty { lines.old.items ≡ [] }
    ensures ok { (pieces : List OnePiece) → ArePieces streams pieces text.now → OnOk result (IsFollowed streams pieces lines.new.items) }
    ensures bad { (pieces : List OnePiece) (fault : OneFault) → ArePieces streams pieces text.now → result ≡ Err (refusals.Bad fault) → IsBadFollowed streams pieces fault lines.new.items }
{
    match feed_pieces(alloc, follower, streams, text, lines) {
        Ok(()) => {}
        Err(e) => return Err(e),
    }
    match follower.seal() {
        Ok(()) => {}
        Err(e) => return Err(e),
    }
    match put_recovery(alloc, follower, lines) {
        Ok(()) => Ok(()),
        Err(_) => Err(FollowRefusal::NoMemory),
    }
}

// The same of a follower that begins with nothing.
fn follow_text(
    alloc: Global,
    streams: u8,
    text: &[u8],
    lines: &mut Vec<u8>,
) -> Result<(), FollowRefusal>
    requires low { 1 ≤ streams }
    requires high { streams ≤ MAX_STREAMS }
    requires within { length text.now ≤ MAX_WORKLOAD }
    requires empty { lines.old.items ≡ [] }
    ensures ok { (pieces : List OnePiece) → ArePieces streams pieces text.now → OnOk result (IsFollowed streams pieces lines.new.items) }
    ensures bad { (pieces : List OnePiece) (fault : OneFault) → ArePieces streams pieces text.now → result ≡ Err (refusals.Bad fault) → IsBadFollowed streams pieces fault lines.new.items }
{
    let n = streams as u16;
    let Ok(mut follower) = Follower::new(alloc, fed_format(n), n) else {
        return Err(FollowRefusal::NoMemory);
    };
    let told = feed_and_seal(alloc, &mut follower, streams, text, lines);
    drop(follower);
    told
}

// Writes these lines and then that of a refusal, and returns with its status, or for lack of memory with NoMemory and
// nothing. A sink that fails changes nothing of the answer.
fn refuse_after<K: Sink>(alloc: Global, sink: &mut K, mut lines: Vec<u8>, status: Status) -> Status
    ensures { TellsAfter lines.items (Wrote K.tells (K.held sink.old) (K.held sink.new)) (Rose (K.faults sink.old) (K.faults sink.new)) status result }
{
    let Ok(line) = fault_line(alloc, status) else {
        return Status::NoMemory;
    };
    match lines.extend_from_slice(line.as_bytes()) {
        Ok(()) => {
            let _ = write_all(sink, &lines);
            status
        }
        Err(_) => Status::NoMemory,
    }
}

// Feeds a follower the pieces of a text, and writes what it tells of them.
fn feed_text<K: Sink>(alloc: Global, streams: u8, text: &[u8], sink: &mut K) -> Status
    requires low { 1 ≤ streams }
    requires high { streams ≤ MAX_STREAMS }
    requires within { length text.now ≤ MAX_WORKLOAD }
    ensures { HasFedText streams text.now (Wrote K.tells (K.held sink.old) (K.held sink.new)) (Rose (K.faults sink.old) (K.faults sink.new)) result }
{
    let mut lines = Vec::new(alloc);
    match follow_text(alloc, streams, text, &mut lines) {
        Ok(()) => match write_all(sink, &lines) {
            Ok(()) => Status::Ok,
            Err(_) => Status::WriteFault,
        },
        Err(FollowRefusal::NoMemory) => Status::NoMemory,
        Err(FollowRefusal::Bad(fault)) => refuse_after(alloc, sink, lines, Status::BadLog(fault)),
    }
}

// The same, once each piece was looked at.
fn follow_pieces<K: Sink>(alloc: Global, streams: u8, text: &[u8], sink: &mut K) -> Status
    requires low { 1 ≤ streams }
    requires high { streams ≤ MAX_STREAMS }
    requires within { length text.now ≤ MAX_WORKLOAD }
    ensures { HasFollowedText streams text.now (Wrote K.tells (K.held sink.old) (K.held sink.new)) (Rose (K.faults sink.old) (K.faults sink.new)) result }
{
    match bad_piece(text, streams) {
        Some(at) => refuse(alloc, sink, Status::BadFeed { at: at as u64 }),
        None => feed_text(alloc, streams, text, sink),
    }
}

/// Feeds the pieces of the source to a follower of `streams` streams, and writes after each how many records it has applied,
/// and in the end what recovery finds in all.
pub fn follow<S: Source, K: Sink>(
    alloc: Global,
    streams: u8,
    source: &mut S,
    sink: &mut K,
) -> Status
    requires low { 1 ≤ streams }
    requires high { streams ≤ MAX_STREAMS }
    ensures source { HasReadSource (record { tells = S.tells; left = S.left source.old; left' = S.left source.new; rose = Rose (S.faults source.old) (S.faults source.new) }) (Some (Command.Follow streams)) result }
    ensures ends { EndsFollowing (record { hears = K.tells; held = K.held sink.old; held' = K.held sink.new; faults = K.faults sink.old; faults' = K.faults sink.new }) result }
    ensures of { OfFollow (record { tells = S.tells; left = S.left source.old; left' = S.left source.new; rose = Rose (S.faults source.old) (S.faults source.new) })
        (record { hears = K.tells; held = K.held sink.old; held' = K.held sink.new; faults = K.faults sink.old; faults' = K.faults sink.new }) result streams }
{
    match read_text(alloc, source) {
        Err(SourceRefusal::NoMemory) => Status::NoMemory,
        Err(SourceRefusal::Failed) => refuse(alloc, sink, Status::ReadFault),
        Err(SourceRefusal::TooLong) => refuse(alloc, sink, Status::TooLong),
        Ok(text) => follow_pieces(alloc, streams, &text, sink),
    }
}
