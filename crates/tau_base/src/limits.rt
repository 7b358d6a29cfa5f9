//! The limits of the engine. Contracts name these constants.

/// Streams of a log, at most.
pub const MAX_STREAMS: usize = 32;

/// Workers of a run, at most.
pub const MAX_WORKERS: usize = 32;

/// Workers, and streams, that turn words name: those below this, whatever the other limits are.
pub const TURN_ACTORS: usize = 16;

/// Workers that an entry of the lock table tells apart: its mask has a bit for each.
pub const MAX_HOLDERS: usize = 32;

/// Workers of a recovery, at most.
pub const MAX_RECOVERY_WORKERS: usize = 16;

/// Shards of the lock table.
pub const SHARDS: usize = 64;

/// Tables that a workload declares, at most.
pub const MAX_TABLES: usize = 64;

/// Procedures that a workload declares, at most.
pub const MAX_PROCS: usize = 256;

/// Steps of a procedure, at most.
pub const MAX_STEPS: usize = 64;

/// Arguments of a call, at most.
pub const MAX_ARGS: usize = 8;

/// Registers of a call.
pub const REGISTERS: usize = 16;

/// Bytes of a name, at most.
pub const MAX_NAME: usize = 16;

/// Bytes of a text value, at most.
pub const MAX_TEXT: usize = 64;

/// Writes of a call, at most.
pub const MAX_WRITES: usize = 64;

/// Calls of a workload, at most.
pub const MAX_CALLS: usize = 200_000;

/// Turn words of a workload, at most.
pub const MAX_TURNS: usize = 1_000_000;

/// Bytes of a workload text, at most.
pub const MAX_WORKLOAD: usize = 16_777_216;

/// Bytes of a catalogue text, at most.
pub const MAX_CATALOGUE: usize = 32_768;

/// Bytes of a block's body, at most.
pub const MAX_BODY: usize = 1_048_576;

/// Tries of a call, before it is left over.
pub const MAX_TRIES: usize = 64;

/// Bytes of a record, at most: 64 texts and 32 components.
pub const MAX_RECORD: usize = 5_207;

/// A position in a stream is below this.
pub const MAX_LSN: u64 = 4_611_686_018_427_387_904;

/// Bytes of an image that a run goes on from, at most.
pub const MAX_IMAGE: u64 = 1_152_921_504_606_846_976;

/// A run in threads begins where each stream ends at most here.
pub const MAX_BEGIN: u64 = 2_305_843_009_213_693_952;

/// Anchors of a stream, at most.
pub const MAX_ANCHORS: u64 = 4_294_967_295;

/// After this epoch there is no other.
pub const LAST_EPOCH: u32 = 4_294_967_295;

/// Bytes of a stream from one anchor of a run in threads to the next, at least.
pub const ANCHOR_BYTES: u64 = 65_536;
