//! What the clerk has told: the lines of a pass go to the sink in one write.
ghost use Rattle.std.specs.Prelude.{◌≡◌, ◌≤◌, ◌⊎◌, ◌++◌, ◌∷◌, [], false, true, List, ℕ, Some, None, OnOk, OnErr};
ghost use Rattle.tau_disk.specs.Disk.{Rose};
ghost use Rattle.tau_report.specs.Lines.{ack_line as ack_text};
ghost use Rattle.tau_crew.specs.Clerking.{IsToldSoFar};

use std::alloc::Global;
use tau_base::{Lv, NoMemory};
use tau_disk::{Sink, write_all};
use tau_report::{Acks, ack_line};

/// What the clerk has told, and what it is to tell.
#[derive(Drop)]
pub struct Told {
    /// The acknowledged calls with their vectors, in the order in which they were taken.
    pub acks: Acks,
    /// A call that was acknowledged and is not told, since memory ran out.
    pub missing: Option<(u64, Lv)>,
    /// The last line.
    pub line: Vec<u8>,
    /// The lines of this pass, which are not written yet.
    pub lines: Vec<u8>,
    /// Whether the sink failed. Then nothing more is written to it.
    pub sink_failed: bool,
}

impl Told {
    /// Nothing is told.
    pub fn new(alloc: Global) -> Told
        ensures acks { (result.acks ≡ []) × (result.missing ≡ None) }
        ensures lines { result.lines.items ≡ [] }
        ensures works { result.sink_failed ≡ false }
    {
        Told {
            acks: Acks::new(alloc),
            missing: None,
            line: Vec::new(alloc),
            lines: Vec::new(alloc),
            sink_failed: false,
        }
    }

    /// The line of a call comes after the others of the pass. Out of memory the call is kept as missing.
    pub(crate) fn put(&mut self, number: u64, lv: &Lv) -> Result<(), NoMemory>
        ensures acks { OnOk result ((self.new.acks ≡ self.old.acks ++ (number, lv.now) ∷ []) × (self.new.missing ≡ self.old.missing)) }
        ensures lines { OnOk result (self.new.lines.items ≡ self.old.lines.items ++ ack_text (number, lv.now)) }
        ensures missing { OnErr result ((self.new.acks ≡ self.old.acks) × (self.new.missing ≡ Some (number, lv.now))) }
        ensures same { OnErr result (self.new.lines.items ≡ self.old.lines.items) }
        ensures sink { self.new.sink_failed ≡ self.old.sink_failed }
    {
        match self.add(number, lv) {
            Ok(()) => Ok(()),
            Err(error) => {
                self.missing = Some((number, *lv));
                Err(error)
            }
        }
    }

    // The call, and its line after the others of the pass.
    fn add(&mut self, number: u64, lv: &Lv) -> Result<(), NoMemory>
        ensures acks { OnOk result (self.new.acks ≡ self.old.acks ++ (number, lv.now) ∷ []) }
        ensures lines { OnOk result (self.new.lines.items ≡ self.old.lines.items ++ ack_text (number, lv.now)) }
        ensures none { OnErr result ((self.new.acks ≡ self.old.acks) × (self.new.lines.items ≡ self.old.lines.items)) }
        ensures rest { (self.new.missing ≡ self.old.missing) × (self.new.sink_failed ≡ self.old.sink_failed) }
    {
        self.line_of(number, lv)?;
        let before = self.lines.len();
        self.lines.extend_from_slice(&self.line)?;
        match self.acks.push(number, lv) {
            Ok(()) => Ok(()),
            Err(error) => {
                self.lines.truncate(before);
                Err(error)
            }
        }
    }

    // Makes the line of a call.
    fn line_of(&mut self, number: u64, lv: &Lv) -> Result<(), NoMemory>
        ensures line { OnOk result (self.new.line.items ≡ ack_text (number, lv.now)) }
        ensures rest { (self.new.acks ≡ self.old.acks) × (self.new.missing ≡ self.old.missing) × (self.new.lines ≡ self.old.lines) × (self.new.sink_failed ≡ self.old.sink_failed) }
    {
        ack_line(&mut self.line, number, lv)
    }

    /// Writes the lines of the pass, in one write.
    pub(crate) fn write<K: Sink>(&mut self, sink: &mut K)
        ensures heard { K.tells → (base : List ℕ) → IsToldSoFar base self.old (K.held sink.old) → IsToldSoFar base self.new (K.held sink.new) }
        ensures none { self.new.lines.items ≡ [] }
        ensures acks { (self.new.acks ≡ self.old.acks) × (self.new.missing ≡ self.old.missing) }
        ensures cause { self.new.sink_failed ≡ true → (self.old.sink_failed ≡ true) ⊎ Rose (K.faults sink.old) (K.faults sink.new) }
        ensures faults { K.faults sink.old ≤ K.faults sink.new }
    {
        if self.sink_failed {
            self.lines.clear();
            return;
        }
        match write_all(sink, &self.lines) {
            Ok(()) => {
                self.lines.clear();
            }
            Err(_) => {
                self.lines.clear();
                self.sink_failed = true;
            }
        }
    }
}
