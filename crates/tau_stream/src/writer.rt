// The writer of one log stream.
ghost use Rattle.std.specs.Prelude.{◌≡◌, ◌+◌, ◌*◌, ◌<◌, ◌≤◌, ◌^◌, ◌++◌, ◌∷◌, [], List, ℕ, false, length, drop, vec_len, vec_capacity, IsNone, IsSome, OnOk, OnErr, IfOk, IfErr};
ghost use Rattle.tau_base.specs.declared.format.Format.{Format};
ghost use Rattle.tau_base.specs.declared.format.Format.TheVariants.{One};
ghost use Rattle.tau_base.specs.declared.limits.TheConstants.{MAX_CATALOGUE};
ghost use Rattle.tau_base.specs.Modes.{most_streams};
ghost use Rattle.tau_block.specs.Image.{IsBody, count_in, format_in, index_in, tail_of};
ghost use Rattle.tau_disk.specs.Disk.{Passes, Rose, HasCause};
ghost use Rattle.tau_disk.specs.Left.{SameLast};
ghost use Rattle.tau_disk.specs.Plan.{HasMade, MadeAll, MadeSome};
ghost use Rattle.tau_stream.specs.Stream.{CreateStops, IsHead, IsOldOrNew, IsRead, IsSettled, IsUnborn, MakingStops, calls_to_reopen, catalogue_record};

use crate::{Flush, publish, publish_gated};
use std::alloc::Global;
use tau_base::NoMemory;
use tau_block::{Content, append_tail, header};
use tau_disk::{Disk, Failed, Gate, Quiet, write_durably};
use tau_record::encode_catalogue;

/// Writes one log stream onto a disk, block by block.
#[derive(Drop)]
pub struct Writer<D: Disk> {
    disk: D,
    alloc: Global,
    stream: u8,
    gate_at: u64,
    durable: u64,
    added: u64,
    body: Vec<u8>,
    block: Vec<u8>,
    failed: bool,
    ghost here: { D.tells → failed ≡ false → gate_at < length (D.seen disk) },
    ghost counted: { added ≤ durable + length body.items },
    ghost behind: { durable ≤ gate_at },
    ghost room: { gate_at + 2 * length body.items ≤ 2 ^ 60 + 2 * added },
    ghost limit: { added ≤ 2 ^ 60 },
}

impl<D: Disk> Writer<D> {
    ghost use Rattle.tau_stream.specs.Writer.{disk_of, durable_of, gathered_of, left_of, added_of, has_failed, Flushed, Flushes, MayReach, IsPrepared, IsReady, StaysUnflushed};

    /// Creates stream `j` of `n`, in format 1, on an empty disk: the header, and one block with the catalogue's record. It makes six
    /// calls of the disk. A refusal hands the disk back; it is never Idle.
    pub fn create(
        alloc: Global,
        disk: D,
        n: u16,
        j: u16,
        catalogue: &[u8],
    ) -> Result<Writer<D>, (D, Flush)>
        requires streams { n ≤ most_streams One }
        requires stream { j < n }
        requires text { length catalogue.now ≤ MAX_CATALOGUE }
        requires empty { D.tells → D.seen disk ≡ [] }

        ensures ready { IfOk result (λ writer. D.tells → IsReady One n j writer (catalogue_record catalogue.now)) }
        ensures durable { IfOk result (λ writer. durable_of writer ≡ length (catalogue_record catalogue.now)) }
        ensures left { IfOk result (λ writer. left_of writer ≡ []) }
        ensures added { IfOk result (λ writer. added_of writer ≡ 0) }
        ensures works { IfOk result (λ writer. has_failed writer ≡ false) }

        // At each moment every image is empty or has the catalogue's record, where each image at the entry was unborn.
        ensures moments { IfOk result (λ writer. D.tells → IsUnborn (D.may_leave disk) →
            Passes D.moment D.may_leave_since disk (disk_of writer) (IsOldOrNew One n j [] (catalogue_record catalogue.now))) }
        ensures moments_err { IfErr result (λ refusal. D.tells → IsUnborn (D.may_leave disk) →
            Passes D.moment D.may_leave_since disk refusal.0 (IsOldOrNew One n j [] (catalogue_record catalogue.now))) }

        // The calls that it made of the disk.
        ensures made { IfOk result (λ writer. D.tells → MadeAll 6 (D.number disk) (D.number (disk_of writer)) (D.fails disk) (D.short disk) (D.short (disk_of writer))) }
        ensures made_err { IfErr result (λ refusal. refusal.1 ≡ Flush.Failed → D.tells → MadeSome 6 (D.number disk) (D.number refusal.0) (D.fails disk) (D.short refusal.0)) }
        ensures plan { IfOk result (λ writer. D.tells → (k : ℕ) → D.fails (disk_of writer) k ≡ D.fails disk k) }
        ensures plan_err { IfErr result (λ refusal. D.tells → (k : ℕ) → D.fails refusal.0 k ≡ D.fails disk k) }

        // What a stop then leaves, if the disk failed.
        ensures last { IfOk result (λ writer. D.tells → SameLast (D.keeps disk) (D.keeps (disk_of writer))) }
        ensures last_err { IfErr result (λ refusal. D.tells → SameLast (D.keeps disk) (D.keeps refusal.0)) }
        ensures left_err { IfErr result (λ refusal. refusal.1 ≡ Flush.Failed → D.tells → CreateStops ⟦<D as Disk>⟧ n j catalogue.now disk refusal.0) }

        ensures failed { IfErr result (λ refusal. refusal.1 ≡ Flush.Failed → Rose (D.faults disk) (D.faults refusal.0)) }
        ensures memory { IfErr result (λ refusal. refusal.1 ≡ Flush.NoMemory → refusal.0 ≡ disk) }
        ensures idle { IfErr result (λ refusal. refusal.1 ≡ Flush.Idle → ⊥) }
        ensures faults { IfOk result (λ writer. D.faults disk ≤ D.faults (disk_of writer)) }
        ensures faults_err { IfErr result (λ refusal. D.faults disk ≤ D.faults refusal.0) }
    {
        let mut disk = disk;
        let Ok((block, size)) = first_block(alloc, catalogue) else {
            return Err((disk, Flush::NoMemory));
        };
        let Ok(()) = begin(&mut disk, &header(n, j), &block) else {
            return Err((disk, Flush::Failed));
        };
        Ok(Writer {
            disk,
            alloc,
            stream: j as u8,
            gate_at: 16 + block.len() as u64,
            durable: size as u64,
            added: 0,
            body: Vec::new(alloc),
            block,
            failed: false,
        })
    }

    /// Goes on with the stream that `head`, its header and a closed gate, is of, and whose content was read from the disk: `body`, 1 to
    /// 1,048,576 bytes of whole records, is put after the content as one block. On an unborn image the head is written first.
    /// It makes four calls of the disk, or six on an unborn image. A refusal hands the disk back; it is never Idle.
    pub fn reopen(
        alloc: Global,
        disk: D,
        head: [u8; 17],
        content: Content,
        body: &[u8],
    ) -> Result<Writer<D>, (D, Flush)>
        requires head { IsHead head }
        requires read { D.tells → IsRead head content (D.seen disk) (D.may_leave disk) }
        requires small { (content.gate_at ≤ 2 ^ 60) × (length content.bytes ≤ content.gate_at) }
        requires unborn { IsNone content.count → (content.bytes ≡ []) × (content.gate_at ≡ 16) }
        requires body { IsBody body.now × (5 ≤ length body.now) }

        ensures ready { IfOk result (λ writer. D.tells → IsReady (format_in head) (count_in head) (index_in head) writer (content.bytes ++ body.now)) }
        ensures durable { IfOk result (λ writer. durable_of writer ≡ length content.bytes + length body.now) }
        ensures left { IfOk result (λ writer. left_of writer ≡ []) }
        ensures added { IfOk result (λ writer. added_of writer ≡ length body.now) }
        ensures works { IfOk result (λ writer. has_failed writer ≡ false) }

        // At each moment every image has the content, or that with the body after it. Of an unborn image this is said where each
        // image at the entry was unborn.
        ensures moments { IfOk result (λ writer. D.tells → (IsNone content.count → IsUnborn (D.may_leave disk)) →
            Passes D.moment D.may_leave_since disk (disk_of writer) (IsOldOrNew (format_in head) (count_in head) (index_in head) content.bytes body.now)) }
        ensures moments_err { IfErr result (λ refusal. D.tells → (IsNone content.count → IsUnborn (D.may_leave disk)) →
            Passes D.moment D.may_leave_since disk refusal.0 (IsOldOrNew (format_in head) (count_in head) (index_in head) content.bytes body.now)) }

        // The calls that it made of the disk.
        ensures made { IfOk result (λ writer. D.tells → MadeAll (calls_to_reopen content.count) (D.number disk) (D.number (disk_of writer)) (D.fails disk) (D.short disk) (D.short (disk_of writer))) }
        ensures made_err { IfErr result (λ refusal. refusal.1 ≡ Flush.Failed → D.tells → MadeSome (calls_to_reopen content.count) (D.number disk) (D.number refusal.0) (D.fails disk) (D.short refusal.0)) }
        ensures plan { IfOk result (λ writer. D.tells → (k : ℕ) → D.fails (disk_of writer) k ≡ D.fails disk k) }
        ensures plan_err { IfErr result (λ refusal. D.tells → (k : ℕ) → D.fails refusal.0 k ≡ D.fails disk k) }

        ensures failed { IfErr result (λ refusal. refusal.1 ≡ Flush.Failed → Rose (D.faults disk) (D.faults refusal.0)) }
        ensures memory { IfErr result (λ refusal. refusal.1 ≡ Flush.NoMemory → refusal.0 ≡ disk) }
        ensures idle { IfErr result (λ refusal. refusal.1 ≡ Flush.Idle → ⊥) }
        ensures faults { IfOk result (λ writer. D.faults disk ≤ D.faults (disk_of writer)) }
        ensures faults_err { IfErr result (λ refusal. D.faults disk ≤ D.faults refusal.0) }
    {
        let mut disk = disk;
        let mut block = Vec::new(alloc);
        let Ok(()) = append_tail(&mut block, body) else {
            return Err((disk, Flush::NoMemory));
        };
        let Ok(()) = go_on(&mut disk, &head, &content, &block) else {
            return Err((disk, Flush::Failed));
        };
        Ok(Writer {
            disk,
            alloc,
            stream: head[15],
            gate_at: content.gate_at + block.len() as u64,
            durable: content.bytes.len() as u64 + body.len() as u64,
            added: body.len() as u64,
            body: Vec::new(alloc),
            block,
            failed: false,
        })
    }

    /// So many bytes of the content stand in every image.
    pub fn durable(&self) -> u64
        ensures { result ≡ durable_of self.now }
    {
        self.durable
    }

    /// The length of the content with all that was added.
    pub fn gathered(&self) -> u64
        ensures { result ≡ gathered_of self.now }
    {
        self.durable + self.body.len() as u64
    }

    /// Whether its disk failed.
    pub fn failed(&self) -> bool
        ensures { result ≡ has_failed self.now }
    {
        self.failed
    }

    /// Hands the disk out.
    pub fn into_disk(self) -> D
        ensures { result ≡ disk_of self }
    {
        let Writer {
            disk,
            alloc: _,
            stream: _,
            gate_at: _,
            durable: _,
            added: _,
            body: _,
            block: _,
            failed: _,
        } = self;
        disk
    }

    /// Adds whole records that continue the stream, at most 2^60 bytes in all. A block that was prepared stays.
    pub fn add(&mut self, body: &[u8]) -> Result<(), NoMemory>
        requires { added_of self.old + length body.now ≤ 2 ^ 60 }
        ensures left { OnOk result (left_of self.new ≡ left_of self.old ++ body.now) }
        ensures added { OnOk result (added_of self.new ≡ added_of self.old + length body.now) }
        ensures disk { disk_of self.new ≡ disk_of self.old }
        ensures durable { durable_of self.new ≡ durable_of self.old }
        ensures works { has_failed self.new ≡ has_failed self.old }
        ensures ready { (f : Format) (n j : ℕ) (content : List ℕ) → IsReady f n j self.old content → IsReady f n j self.new content }
        ensures prepared { (k : ℕ) → IsPrepared self.old k → IsPrepared self.new k }
        ensures err { OnErr result (left_of self.new ≡ left_of self.old) }
        ensures err_added { OnErr result (added_of self.new ≡ added_of self.old) }
    {
        self.body.extend_from_slice(body)?;
        self.added += body.len() as u64;
        Ok(())
    }

    /// Makes the block of the content up to there.
    pub fn prepare(&mut self, upto: u64) -> Result<(), NoMemory>
        requires { MayReach self.old upto }
        ensures ok { OnOk result (IsPrepared self.new upto) }
        ensures disk { disk_of self.new ≡ disk_of self.old }
        ensures durable { durable_of self.new ≡ durable_of self.old }
        ensures left { left_of self.new ≡ left_of self.old }
        ensures added { added_of self.new ≡ added_of self.old }
        ensures works { has_failed self.new ≡ has_failed self.old }
        ensures ready { (f : Format) (n j : ℕ) (content : List ℕ) → IsReady f n j self.old content → IsReady f n j self.new content }
        ensures err { OnErr result ((k : ℕ) → IsPrepared self.old k → IsPrepared self.new k) }
    {
        let count = (upto - self.durable) as usize;
        if count == 0 {
            return Ok(());
        }
        make_room(self.alloc, &mut self.block, count + 5)?;
        self.block.clear();
        match append_tail(&mut self.block, &self.body[..count]) {
            Ok(()) => Ok(()),
            Err(_) => unreachable!(),
        }
    }

    /// Makes the content up to there durable: the block that was prepared, a sync, its gate, a sync.
    pub fn flush(&mut self, upto: u64) -> Result<(), Flush>
        requires prepared { IsPrepared self.old upto }
        requires works { has_failed self.old ≡ false }

        ensures flushed { OnOk result (Flushed upto self.old self.new) }
        ensures stays { OnErr result (StaysUnflushed self.old self.new) }
        ensures flushes { Flushes upto self.old self.new result }
    {
        self.flush_gated(upto, &Quiet)
    }

    /// The same with a gate place between the first sync and the opening of the gate byte.
    pub fn flush_gated<G: Gate>(&mut self, upto: u64, gate: &G) -> Result<(), Flush>
        requires prepared { IsPrepared self.old upto }
        requires works { has_failed self.old ≡ false }

        ensures flushed { OnOk result (Flushed upto self.old self.new) }
        ensures stays { OnErr result (StaysUnflushed self.old self.new) }
        ensures flushes { Flushes upto self.old self.new result }
    {
        if upto == self.durable {
            return Err(Flush::Idle);
        }
        match publish_gated(&mut self.disk, self.gate_at, &self.block, gate, self.stream) {
            Ok(()) => {
                self.gate_at += self.block.len() as u64;
                let count = upto - self.durable;
                self.durable = upto;
                drop_front(&mut self.body, count as usize);
                Ok(())
            }
            Err(_) => {
                self.failed = true;
                Err(Flush::Failed)
            }
        }
    }
}

// The block with the catalogue's record, and that record's length.
fn first_block(alloc: Global, catalogue: &[u8]) -> Result<(Vec<u8>, usize), NoMemory>
    requires { length catalogue.now ≤ MAX_CATALOGUE }
    ensures block { IfOk result (λ first. first.0.items ≡ tail_of (catalogue_record catalogue.now)) }
    ensures size { IfOk result (λ first. first.1 ≡ length (catalogue_record catalogue.now)) }
{
    let record = encode_catalogue(alloc, catalogue)?;
    let mut block = Vec::new(alloc);
    append_tail(&mut block, &record)?;
    Ok((block, record.len()))
}

// Writes a header with a closed gate onto a disk whose image has none, and the first block after it.
fn begin<D: Disk>(disk: &mut D, head: &[u8], block: &[u8]) -> Result<(), Failed>
    requires head { IsHead head.now }
    requires short { D.tells → length (D.seen disk.old) ≤ 17 }
    requires size { length block.now < 2 ^ 32 }
    ensures done { OnOk result (D.tells → (first : List ℕ) → IsBody first → block.now ≡ tail_of first →
        IsSettled (format_in head.now) (count_in head.now) (index_in head.now) (D.seen disk.new) (D.may_leave disk.new) (16 + length block.now) first) }
    ensures here { OnOk result (D.tells → 16 + length block.now < length (D.seen disk.new)) }
    ensures moments { D.tells → (first : List ℕ) → IsBody first → block.now ≡ tail_of first → IsUnborn (D.may_leave disk.old) →
        Passes D.moment D.may_leave_since disk.old disk.new (IsOldOrNew (format_in head.now) (count_in head.now) (index_in head.now) [] first) }
    ensures left { OnErr result (D.tells → MakingStops ⟦<D as Disk>⟧ head.now block.now disk.old disk.new) }
    ensures last { D.tells → SameLast (D.keeps disk.old) (D.keeps disk.new) }
    ensures plan { D.tells → HasMade 6 (D.number disk.old) (D.number disk.new) (D.fails disk.old) (D.fails disk.new) (D.short disk.old) (D.short disk.new) result }
    ensures cause { HasCause (D.faults disk.old) (D.faults disk.new) result }
{
    write_durably(disk, 0, head)?;
    publish(disk, 16, block)?;
    Ok(())
}

// Puts a block after the content that was read. On an unborn image the head goes first.
fn go_on<D: Disk>(disk: &mut D, head: &[u8], content: &Content, block: &[u8]) -> Result<(), Failed>
    requires head { IsHead head.now }
    requires read { D.tells → IsRead head.now content.now (D.seen disk.old) (D.may_leave disk.old) }
    requires small { content.now.gate_at ≤ 2 ^ 60 }
    requires unborn { IsNone content.now.count → (content.now.bytes ≡ []) × (content.now.gate_at ≡ 16) }
    requires size { length block.now < 2 ^ 32 }
    ensures done { OnOk result (D.tells → (first : List ℕ) → IsBody first → block.now ≡ tail_of first →
        IsSettled (format_in head.now) (count_in head.now) (index_in head.now) (D.seen disk.new) (D.may_leave disk.new) (content.now.gate_at + length block.now) (content.now.bytes ++ first)) }
    ensures here { OnOk result (D.tells → content.now.gate_at + length block.now < length (D.seen disk.new)) }
    ensures moments { D.tells → (first : List ℕ) → IsBody first → block.now ≡ tail_of first → (IsNone content.now.count → IsUnborn (D.may_leave disk.old)) →
        Passes D.moment D.may_leave_since disk.old disk.new (IsOldOrNew (format_in head.now) (count_in head.now) (index_in head.now) content.now.bytes first) }
    ensures plan { D.tells → HasMade (calls_to_reopen content.now.count) (D.number disk.old) (D.number disk.new) (D.fails disk.old) (D.fails disk.new) (D.short disk.old) (D.short disk.new) result }
    ensures cause { HasCause (D.faults disk.old) (D.faults disk.new) result }
{
    match content.count {
        Some(_) => publish(disk, content.gate_at, block),
        None => begin(disk, head, block),
    }
}

// Room for so many bytes. What is there already is kept only where the room was there.
fn make_room(alloc: Global, block: &mut Vec<u8>, size: usize) -> Result<(), NoMemory>
    ensures ok { OnOk result (size ≤ vec_capacity block.new) }
    ensures err { OnErr result (block.new ≡ block.old) }
{
    if size <= block.capacity() {
        return Ok(());
    }
    *block = Vec::with_capacity(alloc, size)?;
    Ok(())
}

// Removes the first bytes. As a rule that is all there are, and then none is moved.
fn drop_front(bytes: &mut Vec<u8>, count: usize)
    requires { count ≤ vec_len bytes.old }
    ensures { bytes.new.items ≡ drop count bytes.old.items }
{
    if count == bytes.len() {
        bytes.clear();
        return;
    }
    bytes.drain(..count);
}
