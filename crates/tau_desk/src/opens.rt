//! The desk opens.
ghost use Rattle.std.specs.Prelude.{◌≡◌, ◌≤◌, ◌<◌, ◌+◌, ◌*◌, ◌^◌, ◌++◌, [], ◌∷◌, ℕ, List, Option, IfOk, OnOk, Some, length, slice_get, slice_index, vec_len, vec_capacity};
ghost use Rattle.tau_base.specs.declared.limits.TheConstants.{MAX_BEGIN, MAX_CATALOGUE, MAX_STREAMS, MAX_WORKERS, SHARDS};
ghost use Rattle.tau_base.specs.Modes.{format_of, most_streams};
ghost use Rattle.tau_text.specs.Canonical.{declarations_text};
ghost use Rattle.tau_text.specs.Kept.{AreCalls};
ghost use Rattle.tau_core.specs.Opens.{Fits, Opened, OpenedFresh, catalogue_size, load_of};
ghost use Rattle.tau_core.specs.Plain.{PlainSeat, PlainStream};
ghost use Rattle.tau_rule.specs.First.{first_view};
ghost use Rattle.tau_rule.specs.Rule.{part_count};
ghost use Rattle.tau_rule.specs.declared.part.Part.{Part as PartOf};
ghost use Rattle.tau_desk.specs.Close.{IsShardOf, IsBoxOf};
ghost use Rattle.tau_desk.specs.Ends.{AreResting, IsFirst, IsWhole};
ghost use Rattle.tau_desk.specs.Kept.{HasRoom};
ghost use Rattle.tau_desk.specs.Shares.{PlainStock, PlainWork};
ghost use Rattle.tau_desk.specs.Laid.{AreUnbegun, AreFirstWords, AreLaid, AreWords, EachOf, HasAnchor, HasBox, HasShard, IsFirstAnchor, IsItsStock, IsItsWork, stock_at, work_of};

use crate::desk::Desk;
use crate::kept::Kept;
use crate::own_records::OwnRecords;
use crate::room::Room;
use crate::seat::{Head, Stock, Work};
use atomic_table::Table;
use std::alloc::Global;
use std::snapshot::Snapshot;
use tau_ack::Pending;
use tau_base::{LogMode, Lv, NoMemory, SHARDS};
use tau_core::{Core, Load, Opening, Parts, Stream};
use tau_model::CommittedList;
use tau_occ::Style;
use tau_outbox::Outbox;
use tau_rule::{OneCore, Origin, Part, Seat, View};
use tau_shard::Shard;
use tau_text::Workload;

impl Desk {
    /// The desk on this opening, for so many workers in this style. The head has every role.
    pub fn open(
        alloc: Global,
        load: &Workload,
        opening: Opening,
        m: u8,
        mode: LogMode,
        style: Style,
    ) -> Result<(Desk, Head), NoMemory>
        requires low { 1 ≤ m }
        requires high { m ≤ MAX_WORKERS }
        requires calls { AreCalls load.now.declarations.procs load.now.calls }
        requires streams { length opening.ends ≤ most_streams (format_of mode) }
        requires fits { Fits opening }
        requires short { (j : ℕ) → j < length opening.ends → slice_index opening.ends j ≤ MAX_BEGIN }
        ensures { IfOk result (λ d. Opened (load_of load.now.declarations.procs load.now.calls mode m opening) d.0.table.shared.key.value × IsFirst d.0.table.shared.key.value d.1.me × IsWhole d.1 × (d.1.table_id ≡ d.0.table.shared.table_id) × AreUnbegun d.1.workers × AreResting d.1 × (d.0.table.shared.key.style ≡ style)) }
    {
        let core = Core::open(alloc, load, opening, m, mode)?;
        let (desk, head) = desk_of(alloc, core, style)?;
        Ok((desk, head))
    }

    /// The desk of a run of so many workers in this style on `n` streams that hold the record of the catalogue alone. The head has every role.
    pub fn new(
        alloc: Global,
        load: &Workload,
        n: u8,
        m: u8,
        mode: LogMode,
        style: Style,
    ) -> Result<(Desk, Head), NoMemory>
        requires n_low { 1 ≤ n }
        requires n_high { n ≤ most_streams (format_of mode) }
        requires low { 1 ≤ m }
        requires high { m ≤ MAX_WORKERS }
        requires calls { AreCalls load.now.declarations.procs load.now.calls }
        requires text { length (declarations_text load.now.declarations) ≤ MAX_CATALOGUE }
        ensures { IfOk result (λ d. OpenedFresh load.now.declarations.procs load.now.calls mode m n (catalogue_size (declarations_text load.now.declarations)) d.0.table.shared.key.value × IsFirst d.0.table.shared.key.value d.1.me × IsWhole d.1 × (d.1.table_id ≡ d.0.table.shared.table_id) × AreUnbegun d.1.workers × AreResting d.1 × (d.0.table.shared.key.style ≡ style)) }
    {
        let core = Core::new(alloc, load, n, m, mode)?;
        let (desk, head) = desk_of(alloc, core, style)?;
        Ok((desk, head))
    }
}

/// The desk of a core that has just opened.
fn desk_of(alloc: Global, core: Core, style: Style) -> Result<(Desk, Head), NoMemory>
    requires opened { Opened core.load core }
    requires short { (j : ℕ) → j < core.load.streams → slice_index core.load.opening.ends j ≤ MAX_BEGIN }
    ensures { IfOk result (λ d. (d.0.table.shared.key.value ≡ core) × IsFirst core d.1.me × IsWhole d.1 × (d.1.table_id ≡ d.0.table.shared.table_id) × AreUnbegun d.1.workers × (d.0.table.shared.key.style ≡ style)) }
{
    let key = Origin {
        core: Snapshot::of(&core),
        style,
    };
    let Parts {
        alloc: _,
        load,
        shards,
        seats,
        streams,
        committed: _,
        ends,
        gathered: _,
        plv,
    } = core.into_parts();
    let laid = lay_all(alloc, shards, seats, streams, &ends)?;
    begun_on(alloc, &key, load, laid, &ends, &plv)
}

/// The desk on which the parts of this core have been laid.
fn begun_on(
    alloc: Global,
    key: &Origin,
    load: Load,
    laid: Laid,
    ends: &Lv,
    plv: &Lv,
) -> Result<(Desk, Head), NoMemory>
    requires opened { Opened key.now.value.load key.now.value }
    requires short { (j : ℕ) → j < key.now.value.load.streams → slice_index key.now.value.load.opening.ends j ≤ MAX_BEGIN }
    requires load { load ≡ key.now.value.load }
    requires ends { ends.now ≡ key.now.value.ends }
    requires plv { plv.now ≡ key.now.value.plv }
    requires laid { AreLaid key.now.value.ends key.now.value.shards key.now.value.seats key.now.value.streams laid.0.items laid.1.items laid.2.items }
    ensures { IfOk result (λ d. (d.0.table.shared.key.value ≡ key.now.value) × IsFirst key.now.value d.1.me × IsWhole d.1 × (d.1.table_id ≡ d.0.table.shared.table_id) × AreUnbegun d.1.workers × (d.0.table.shared.key.style ≡ key.now.style)) }
{
    let (slots, workers, managers) = laid;
    let parts = slots.len();
    let (table, seat) = table_of(alloc, key, slots, ends, plv)?;
    let desk = desk_with(alloc, table, load, key.style, parts)?;
    let head = Head {
        seat,
        workers,
        managers,
        clerk: true,
        seen: *ends,
    };
    Ok((desk, head))
}

/// The table of a desk, and its first seat.
type Opens = (Table<Option<Part>, View, Origin, OneCore, Global>, Seat);

/// The table that has these parts in its slots and these positions in its words.
fn table_of(
    alloc: Global,
    key: &Origin,
    slots: Vec<Option<Part>>,
    ends: &Lv,
    plv: &Lv,
) -> Result<Opens, NoMemory>
    requires opened { Opened key.now.value.load key.now.value }
    requires short { (j : ℕ) → j < key.now.value.load.streams → slice_index key.now.value.load.opening.ends j ≤ MAX_BEGIN }
    requires ends { ends.now ≡ key.now.value.ends }
    requires plv { plv.now ≡ key.now.value.plv }
    requires laid { (works : List (Option PlainWork)) × (stocks : List (Option PlainStock)) × AreLaid key.now.value.ends key.now.value.shards key.now.value.seats key.now.value.streams slots.items works stocks }
    ensures made { IfOk result (λ t. (t.0.shared.key ≡ key.now) × (t.1.me ≡ (first_view key.now.value, [])) × (t.1.table_id ≡ t.0.shared.table_id) × (t.0.shared.table_id.words ≡ 8 * (part_count key.now.value.load + (key.now.value.load.streams + key.now.value.load.streams + 1))) × (t.0.shared.table_id.slots ≡ part_count key.now.value.load)) }
    ensures count { length slots.items ≡ part_count key.now.value.load }
{
    let words = first_words(alloc, slots.len(), ends, plv)?;
    match Table::new(alloc, words.as_slice(), slots, key) {
        Ok(made) => Ok(made),
        Err(_) => Err(NoMemory),
    }
}

/// The desk with this table.
fn desk_with(
    alloc: Global,
    table: Table<Option<Part>, View, Origin, OneCore, Global>,
    load: Load,
    style: Style,
    parts: usize,
) -> Result<Desk, NoMemory>
    requires opened { Opened table.shared.key.value.load table.shared.key.value }
    requires load { load ≡ table.shared.key.value.load }
    requires style { style ≡ table.shared.key.style }
    requires count { parts ≡ part_count table.shared.key.value.load }
    requires words { table.shared.table_id.words ≡ 8 * (part_count table.shared.key.value.load + (table.shared.key.value.load.streams + table.shared.key.value.load.streams + 1)) }
    requires slots { table.shared.table_id.slots ≡ part_count table.shared.key.value.load }
    ensures { IfOk result (λ d. (d.table.shared.key ≡ table.shared.key) × (d.table.shared.table_id ≡ table.shared.table_id)) }
{
    let kept = kept_of(alloc, &load)?;
    let streams = load.streams;
    Ok(Desk {
        table,
        load,
        style,
        parts,
        streams,
        kept,
    })
}

/// What the parts of a core lie in: the slots of all, and what the workers and the managers have of their own.
type Laid = (Vec<Option<Part>>, Vec<Option<Work>>, Vec<Option<Stock>>);

/// Each part of a core in a slot, and what the workers and the managers have of their own.
fn lay_all(
    alloc: Global,
    shards: Vec<Shard>,
    seats: Vec<tau_core::Seat>,
    streams: Vec<Stream>,
    ends: &Lv,
) -> Result<Laid, NoMemory>
    requires rest { (j : ℕ) (s : PlainStream) → slice_get streams.items j ≡ Some s → s.own.pieces ≡ [] }
    ensures { IfOk result (λ laid. AreLaid ends.now shards.items seats.items streams.items laid.0.items laid.1.items laid.2.items) }
{
    let mut slots = lay_shards(alloc, shards)?;
    let workers = lay_seats(alloc, seats, &mut slots)?;
    let managers = lay_streams(alloc, streams, ends, &mut slots)?;
    Ok((slots, workers, managers))
}

/// The room for the core that the desk makes when it closes.
fn kept_of(alloc: Global, load: &Load) -> Result<Kept, NoMemory>
    ensures { IfOk result (λ kept. HasRoom load.now (vec_len kept.shards, vec_capacity kept.shards) (vec_len kept.seats, vec_capacity kept.seats) (vec_len kept.streams, vec_capacity kept.streams) (length kept.committed.items, kept.committed.room)) }
{
    let Ok(shards) = Vec::with_capacity(alloc, SHARDS) else {
        return Err(NoMemory);
    };
    let Ok(seats) = Vec::with_capacity(alloc, load.workers) else {
        return Err(NoMemory);
    };
    let Ok(streams) = Vec::with_capacity(alloc, load.streams) else {
        return Err(NoMemory);
    };
    let mut committed = CommittedList::new(alloc);
    committed.reserve(load.calls.len())?;
    Ok(Kept {
        alloc,
        shards,
        seats,
        streams,
        committed,
    })
}

/// Each shard in a slot.
fn lay_shards(alloc: Global, shards: Vec<Shard>) -> Result<Vec<Option<Part>>, NoMemory>
    ensures { IfOk result (λ slots. EachOf HasShard shards.items slots.items) }
{
    let mut slots = Vec::new(alloc);
    for shard in shards {
        let part = shard_part(alloc, shard)?;
        slots.push(Some(part))?;
    }
    Ok(slots)
}

fn shard_part(alloc: Global, shard: Shard) -> Result<Part, NoMemory>
    ensures { IfOk result (λ part. IsShardOf part shard) }
{
    Ok(Part::Shard(Box::new(alloc, shard)?))
}

/// Puts what each worker shares into a slot after these, and gives what it has of its own.
fn lay_seats(
    alloc: Global,
    seats: Vec<tau_core::Seat>,
    slots: &mut Vec<Option<Part>>,
) -> Result<Vec<Option<Work>>, NoMemory>
    ensures { IfOk result (λ works. (boxes : List (Option PartOf)) × (slots.new.items ≡ slots.old.items ++ boxes) × EachOf HasBox seats.items boxes × EachOf IsItsWork seats.items works.items) }
{
    let mut works = Vec::new(alloc);
    for seat in seats {
        let work = lay_seat(alloc, seat, slots)?;
        works.push(Some(work))?;
    }
    Ok(works)
}

fn lay_seat(
    alloc: Global,
    seat: tau_core::Seat,
    slots: &mut Vec<Option<Part>>,
) -> Result<Work, NoMemory>
    ensures { IfOk result (λ work. (p : PartOf) × (room : ℕ) × (slots.new.items ≡ slots.old.items ++ Some p ∷ []) × IsBoxOf p seat × (work ≡ work_of seat room)) }
{
    let tau_core::Seat {
        next,
        again,
        txn,
        start,
        left,
        outbox,
        pending,
    } = seat;
    put_box(alloc, outbox, pending, slots)?;
    let txn = Box::new(alloc, txn)?;
    let room = Room {
        records: 0,
        calls: 0,
    };
    Ok(Work {
        next,
        again,
        txn,
        start,
        left,
        committed: CommittedList::new(alloc),
        room,
        mark: None,
    })
}

/// Puts what a worker shares into the next slot.
fn put_box(
    alloc: Global,
    outbox: Outbox,
    pending: Pending,
    slots: &mut Vec<Option<Part>>,
) -> Result<(), NoMemory>
    ensures { OnOk result ((p : PartOf) × (slots.new.items ≡ slots.old.items ++ Some p ∷ []) × ((x : PlainSeat) → x.outbox ≡ outbox → x.pending ≡ pending → IsBoxOf p x)) }
{
    let outbox = Box::new(alloc, outbox)?;
    let pending = Box::new(alloc, pending)?;
    slots.push(Some(Part::Outbox(outbox, pending)))?;
    Ok(())
}

/// Puts the published anchor of each stream into a slot after these, and gives what its manager has of its own.
fn lay_streams(
    alloc: Global,
    streams: Vec<Stream>,
    ends: &Lv,
    slots: &mut Vec<Option<Part>>,
) -> Result<Vec<Option<Stock>>, NoMemory>
    requires rest { (j : ℕ) (s : PlainStream) → slice_get streams.items j ≡ Some s → s.own.pieces ≡ [] }
    ensures { IfOk result (λ stocks. (anchors : List (Option PartOf)) × (slots.new.items ≡ slots.old.items ++ anchors) × EachOf (HasAnchor (length ends.now)) streams.items anchors × EachOf (IsItsStock ends.now) streams.items stocks.items) }
{
    let mut stocks = Vec::new(alloc);
    for stream in streams {
        put_anchor(alloc, ends.width(), slots)?;
        let end = ends.position(stocks.len());
        stocks.push(Some(stock_of(stream, end)))?;
    }
    Ok(stocks)
}

/// Puts the anchor of a stream that has published none into the next slot.
fn put_anchor(alloc: Global, streams: usize, slots: &mut Vec<Option<Part>>) -> Result<(), NoMemory>
    requires low { 1 ≤ streams }
    requires high { streams ≤ MAX_STREAMS }
    ensures { OnOk result ((p : PartOf) × (slots.new.items ≡ slots.old.items ++ Some p ∷ []) × IsFirstAnchor streams p) }
{
    let lv = Box::new(alloc, Lv::zero(streams))?;
    slots.push(Some(Part::Anchor(0, lv)))?;
    Ok(())
}

fn stock_of(stream: Stream, gathered: u64) -> Stock
    requires { stream.own.pieces ≡ [] }
    ensures { (room : ℕ) × (result ≡ stock_at stream gathered room) }
{
    let Stream {
        own,
        anchors,
        stop: _,
        body: _,
    } = stream;
    Stock {
        anchors,
        own: OwnRecords::of(own),
        gathered,
    }
}

/// The words of a table with so many free turns.
fn first_words(alloc: Global, parts: usize, ends: &Lv, plv: &Lv) -> Result<Vec<u64>, NoMemory>
    requires few { parts < 2 ^ 16 }
    requires wide { length plv.now ≡ length ends.now }
    ensures { IfOk result (λ words. AreFirstWords parts ends.now plv.now words.items) }
{
    let streams = ends.width();
    let count = 8 * (parts + (streams + streams + 1));
    let Ok(mut words) = Vec::from_elem(alloc, 0u64, count) else {
        return Err(NoMemory);
    };
    put_words(&mut words, parts, ends);
    put_words(&mut words, parts + streams, plv);
    Ok(words)
}

/// Puts the positions of a vector into the words from this one on.
fn put_words(words: &mut Vec<u64>, from: usize, lv: &Lv)
    requires few { from < 2 ^ 17 }
    requires wide { 8 * (from + length lv.now) ≤ length words.old.items }
    ensures count { length words.new.items ≡ length words.old.items }
    ensures put { AreWords words.new.items from lv.now }
    ensures others { (k : ℕ) → ((j : ℕ) → j < length lv.now → k ≡ from + j → ⊥) → slice_index words.new.items (8 * k) ≡ slice_index words.old.items (8 * k) }
{
    for j in 0..lv.width() {
        words[8 * (from + j)] = lv.get(j);
    }
}
