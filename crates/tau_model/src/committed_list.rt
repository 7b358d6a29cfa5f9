//! Committed calls that are kept short.
ghost use Rattle.std.specs.Prelude.{◌≡◌, ◌≤◌, ◌<◌, ◌+◌, ◌-◌, ◌++◌, ◌∷◌, [], length, map, OnErr, OnOk, slice_get, slice_index, slice_index_or, Some, vec_len, vec_capacity};
ghost use Rattle.std.specs.List.{All};
ghost use Rattle.tau_base.specs.Vectors.{covers};
ghost use Rattle.tau_model.specs.Committed.{lv_at};
ghost use Rattle.tau_model.specs.KeptCommitted.{FitsBehind, HasText, head_behind, reply_behind, reply_of, spot_of, texts_in};

use crate::committed::Spot;
use std::alloc::Global;
use std::marker::Model;
use tau_base::{Lv, LvList, NoMemory, Text64, Value};
use tau_proc::Reply;

/// For how many calls room is made at once: a worker asks for room at each call that begins.
const ROOMS: usize = 64;

/// A reply. A text stands among the texts of the list.
#[derive(Clone, Copy, Debug)]
enum KeptReply {
    Absent,
    Number(i64),
    Text(usize),
    Refused(u16),
}

/// What is kept of a call beside its vector.
#[derive(Clone, Copy, Debug)]
struct Head {
    number: u64,
    reply: KeptReply,
    start: u64,
    past: u64,
    anchor: u32,
    stream: u8,
    /// Whether it has a record. If not, its place is zeros.
    placed: bool,
}

/// Committed calls in order, each of which takes 56 bytes, 8 for each stream, and 72 if it replied a text. Contracts see it as the list of the calls, with how many more it takes without memory.
#[derive(Debug, Drop)]
pub struct CommittedList {
    heads: Vec<Head>,
    deps: LvList,
    texts: Vec<Text64>,
    room: usize,
}

impl Model for CommittedList {
    ghost use Rattle.tau_model.specs.CommittedList.{PlainCommittedList};

    ghost Value = { PlainCommittedList };

    ghost use Rattle.tau_model.specs.KeptCommitted.{IsKept, plain};

    ghost view = { plain };

    ghost invariant = { IsKept };
}

impl CommittedList {
    /// No call. It takes no memory.
    pub fn new(alloc: Global) -> CommittedList
        ensures { result ≡ record { items = []; room = 0 } }
    {
        CommittedList {
            heads: Vec::new(alloc),
            deps: LvList::new(alloc),
            texts: Vec::new(alloc),
            room: 0,
        }
    }

    /// How many calls it has.
    pub fn len(&self) -> usize
        ensures { result ≡ length self.now.items }
    {
        self.heads.len()
    }

    /// Makes room for so many more.
    pub fn reserve(&mut self, count: usize) -> Result<(), NoMemory>
        ensures items { self.new.items ≡ self.old.items }
        ensures kept { self.old.room ≤ self.new.room }
        ensures roomy { OnOk result (count ≤ self.new.room) }
        ensures err { OnErr result (self.new ≡ self.old) }
    {
        if count <= self.room {
            return Ok(());
        }
        self.make_room(at_least_rooms(count))
    }

    /// Makes room for so many more, where there is room for fewer.
    #[inline(never)]
    fn make_room(&mut self, count: usize) -> Result<(), NoMemory>
        requires { self.old.room ≤ count }
        ensures items { self.new.items ≡ self.old.items }
        ensures kept { self.old.room ≤ self.new.room }
        ensures roomy { OnOk result (self.new.room ≡ count) }
        ensures err { OnErr result (self.new ≡ self.old) }
    {
        if self.heads.try_reserve(count).is_err() {
            return Err(NoMemory);
        }
        if self.texts.try_reserve(count).is_err() {
            return Err(NoMemory);
        }
        match self.deps.reserve(count) {
            Ok(()) => {
                self.room = count;
                Ok(())
            }
            Err(error) => Err(error),
        }
    }

    /// Puts a call at the end, where there is room.
    pub fn push_reserved(&mut self, number: u64, reply: &Reply, dep: &Lv, spot: Option<Spot>)
        requires { 1 ≤ self.old.room }
        ensures items { self.new.items ≡ self.old.items ++ record { number = number; reply = reply.now; dep = dep.now; lv = lv_at dep.now spot; spot = spot } ∷ [] }
        ensures room { self.new.room ≡ self.old.room - 1 }
    {
        let reply = keep_reply(&mut self.texts, reply);
        self.heads.push_reserved(head_of(number, reply, spot));
        self.deps.push_reserved(dep);
        self.room -= 1;
    }

    /// Puts a call at the end. Out of memory no call is put.
    pub fn push(
        &mut self,
        number: u64,
        reply: &Reply,
        dep: &Lv,
        spot: Option<Spot>,
    ) -> Result<(), NoMemory>
        ensures ok { OnOk result (self.new.items ≡ self.old.items ++ record { number = number; reply = reply.now; dep = dep.now; lv = lv_at dep.now spot; spot = spot } ∷ []) }
        ensures err { OnErr result (self.new.items ≡ self.old.items) }
    {
        match self.reserve(1) {
            Ok(()) => {
                self.push_reserved(number, reply, dep, spot);
                Ok(())
            }
            Err(error) => Err(error),
        }
    }

    /// The call at this index, from 0.
    pub fn at(&self, index: usize) -> LentCall<'_>
        requires { index < length self.now.items }
        ensures at { slice_get self.now.items index ≡ Some result }
        ensures is { result ≡ slice_index_or self.now.items index result }
    {
        LentCall {
            head: &self.heads[index],
            dep: self.deps.get(index),
            texts: self.texts.as_slice(),
        }
    }

    /// Puts the calls of another list at the end, where there is room. It takes no memory.
    pub fn append(&mut self, other: CommittedList)
        requires { length other.items ≤ self.old.room }
        ensures items { self.new.items ≡ self.old.items ++ other.items }
        ensures room { self.new.room ≡ self.old.room - length other.items }
    {
        let CommittedList {
            heads,
            deps,
            mut texts,
            room: _,
        } = other;
        let more = texts.len();
        let Ok(()) = self.texts.append(&mut texts) else {
            unreachable!()
        };
        let before = self.texts.len() - more;
        self.room -= heads.len();
        put_heads(&mut self.heads, &heads, before);
        self.deps.append(deps);
    }
}

/// For how many calls room is made, where so many are asked for.
fn at_least_rooms(count: usize) -> usize
    ensures { count ≤ result }
{
    if count < ROOMS { ROOMS } else { count }
}

/// Puts calls at the end, where there is room, and so many texts stand before theirs.
fn put_heads(heads: &mut Vec<Head>, others: &Vec<Head>, before: usize)
    requires room { vec_len heads.old + length others.now.items ≤ vec_capacity heads.old }
    requires fits { All (λ h. FitsBehind before h.reply) others.now.items }
    ensures items { heads.new.items ≡ heads.old.items ++ map (head_behind before) others.now.items }
    ensures len { vec_len heads.new ≡ vec_len heads.old + length others.now.items }
    ensures capacity { vec_capacity heads.new ≡ vec_capacity heads.old }
{
    for head in others {
        heads.push_reserved(head_behind(*head, before));
    }
}

/// The same, where so many texts stand before those of its list.
fn head_behind(head: Head, before: usize) -> Head
    requires { FitsBehind before head.reply }
    ensures { result ≡ head_behind before head }
{
    Head {
        reply: reply_behind(head.reply, before),
        ..head
    }
}

fn reply_behind(reply: KeptReply, before: usize) -> KeptReply
    requires { FitsBehind before reply }
    ensures { result ≡ reply_behind before reply }
{
    match reply {
        KeptReply::Absent => KeptReply::Absent,
        KeptReply::Number(number) => KeptReply::Number(number),
        KeptReply::Text(at) => KeptReply::Text(before + at),
        KeptReply::Refused(step) => KeptReply::Refused(step),
    }
}

/// Keeps a reply, for whose text there is room.
fn keep_reply(texts: &mut Vec<Text64>, reply: &Reply) -> KeptReply
    requires { vec_len texts.old < vec_capacity texts.old }
    ensures kept { reply_of texts.new.items result ≡ reply.now }
    ensures has { HasText (length texts.new.items) result }
    ensures texts { texts.new.items ≡ texts.old.items ++ texts_in reply.now }
    ensures capacity { vec_capacity texts.new ≡ vec_capacity texts.old }
{
    match reply {
        Reply::Refused(step) => KeptReply::Refused(*step),
        Reply::Ok(value) => match value {
            Value::Absent => KeptReply::Absent,
            Value::Int(number) => KeptReply::Number(*number),
            Value::Text(text) => keep_text(texts, text),
        },
    }
}

/// Puts a text behind the others.
fn keep_text(texts: &mut Vec<Text64>, text: &Text64) -> KeptReply
    requires { vec_len texts.old < vec_capacity texts.old }
    ensures kept { result ≡ KeptReply.Text (length texts.old.items) }
    ensures texts { texts.new.items ≡ texts.old.items ++ text.now ∷ [] }
    ensures capacity { vec_capacity texts.new ≡ vec_capacity texts.old }
{
    let at = texts.len();
    texts.push_reserved(text.copied());
    KeptReply::Text(at)
}

/// What is kept of a call beside its vector.
fn head_of(number: u64, reply: KeptReply, spot: Option<Spot>) -> Head
    ensures number { result.number ≡ number }
    ensures reply { result.reply ≡ reply }
    ensures spot { spot_of result ≡ spot }
{
    match spot {
        Some(spot) => Head {
            number,
            reply,
            start: spot.start,
            past: spot.past,
            anchor: spot.anchor,
            stream: spot.stream,
            placed: true,
        },
        None => Head {
            number,
            reply,
            start: 0,
            past: 0,
            anchor: 0,
            stream: 0,
            placed: false,
        },
    }
}

/// A committed call of a list, lent. Contracts see it as the call.
#[derive(Drop)]
pub struct LentCall<'a> {
    head: &'a Head,
    dep: &'a [u64],
    texts: &'a [Text64],
}

impl<'a> Model for LentCall<'a> {
    ghost use Rattle.tau_model.specs.declared.committed.Committed.{Committed};
    ghost use Rattle.tau_model.specs.KeptCommitted.{HasText, call_of};
    ghost use Rattle.std.specs.Prelude.{length};

    ghost Value = { Committed };

    ghost view = { λ c. call_of c.texts.now c.head.now c.dep.now };

    ghost invariant = { λ c. HasText (length c.texts.now) c.head.now.reply };
}

impl<'a> LentCall<'a> {
    /// Its number, from 1 in order of the workload.
    pub fn number(&self) -> u64
        ensures { result ≡ self.now.number }
    {
        self.head.number
    }

    /// What it replied.
    pub fn reply(&self) -> Reply
        ensures { result ≡ self.now.reply }
    {
        match self.head.reply {
            KeptReply::Absent => Reply::Ok(Value::Absent),
            KeptReply::Number(number) => Reply::Ok(Value::Int(number)),
            KeptReply::Text(at) => Reply::Ok(Value::Text(self.texts[at].copied())),
            KeptReply::Refused(step) => Reply::Refused(step),
        }
    }

    /// The positions of its vector before its record had its place.
    pub fn dep(&self) -> &'a [u64]
        ensures { result.now ≡ self.now.dep }
    {
        self.dep
    }

    /// The place of its record; none for a read-only call.
    pub fn spot(&self) -> Option<Spot>
        ensures { result ≡ self.now.spot }
    {
        if !self.head.placed {
            return None;
        }
        Some(Spot {
            stream: self.head.stream,
            start: self.head.start,
            past: self.head.past,
            anchor: self.head.anchor,
        })
    }

    /// The position of its vector in stream `j`, 0 beyond the end.
    pub fn position(&self, j: usize) -> u64
        ensures { result ≡ slice_index self.now.lv j }
    {
        if j >= self.dep.len() {
            return 0;
        }
        if self.head.placed && j == usize::from(self.head.stream) {
            return self.head.past;
        }
        self.dep[j]
    }

    /// Whether these positions cover its vector.
    pub fn is_covered(&self, positions: &Lv) -> bool
        ensures { result ≡ covers positions.now self.now.lv }
    {
        for j in 0..self.dep.len() {
            if self.position(j) > positions.position(j) {
                return false;
            }
        }
        true
    }
}
