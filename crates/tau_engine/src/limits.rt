//! How much a drill or the measured job may be asked for.

/// Workers or streams of a drill or of the measured job.
pub(crate) const MAX_COUNT: usize = 16;
