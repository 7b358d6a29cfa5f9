//! What a run tells.
use crate::acks::Acks;
use crate::fate::KeptFate;
use tau_base::Listed;
use tau_model::Tables;
use tau_proc::Reply;

/// What became of a call.
#[derive(Clone, Debug, Drop, PartialEq, Eq)]
pub enum Fate {
    /// It is acknowledged, with this reply.
    Acked(Reply),
    /// It committed with this reply, and nobody was told.
    Unsure(Reply),
    /// It did not commit.
    Unrun,
}

/// What a run tells of its calls, which are numbered from 1.
#[derive(Debug, Drop)]
pub struct RunReport {
    /// The acknowledged calls with their vectors, in the order of acknowledgement.
    pub acks: Acks,
    /// What became of each call of the workload, in its order.
    pub fates: Listed<KeptFate>,
    /// The committed calls in the order of the history.
    pub order: Listed<u64>,
    /// The rows at the end.
    pub tables: Tables,
}

/// How a run ended.
#[derive(Debug, Drop)]
pub struct RunEnd {
    /// What it tells.
    pub report: RunReport,
    /// The lowest stream whose disk failed, 0 to 15.
    pub disk: Option<u8>,
    /// Whether the sink failed, to which the acknowledgements went.
    pub sink_failed: bool,
}
