//! Laws of own calls, as functions that do nothing: what was taken agrees with what the seat knows of its calls.
ghost use Rattle.tau_desk.specs.Owns.{OwnCalls, OwnCommitted, OwnKeys, OwnPieces, OwnRows, OwnVectors};

/// The committed calls of the seat's worker are those of the state, in its order.
pub fn own_committed()
    ensures { OwnCommitted }
{}

/// The keys that the call in hand holds, and no others of that shard, are held there by its worker.
pub fn own_keys()
    ensures { OwnKeys }
{}

/// The write vector of a key that a committed call wrote and freed covers that call's vector.
pub fn own_vectors()
    ensures { OwnVectors }
{}

/// Where that vector is at most the call's, the row is what the call wrote.
pub fn own_rows()
    ensures { OwnRows }
{}

/// The record of a committed call is in flight, stands in its worker's outbox, or is gathered.
pub fn own_pieces()
    ensures { OwnPieces }
{}

/// The calls of the seat's worker that have ended are pending or acknowledged, each once.
pub fn own_calls()
    ensures { OwnCalls }
{}
