//! What a slot holds.
use tau_base::Lv;
use tau_model::Tables;

/// The greatest number of a checkpoint.
pub const MAX_NUMBER: u64 = 4_611_686_018_427_387_903;

/// The tables of a log up to a vector of its positions.
#[derive(Debug, Drop)]
pub struct Checkpoint {
    /// Its number, from 1 to `MAX_NUMBER`. Of two checkpoints the later one has the greater.
    pub number: u64,
    /// The largest known epoch number, 0 if none was known.
    pub epoch: u32,
    /// The positions up to which the log was redone.
    pub lv: Lv,
    /// The present rows.
    pub rows: Tables,
}
