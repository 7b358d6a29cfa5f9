//! What holds of every call, as functions that do nothing.
ghost use Rattle.tau_proc.specs.Theorems.{ReadsDetermine, WritesAscend, RefusedWritesNothing, WantsAreMeaning};

/// What a call does depends on the rows that it reads, and on nothing else.
pub fn reads_determine()
    ensures { ReadsDetermine }
{}

/// The writes of a call are in the order of their keys, each key once.
pub fn writes_ascend()
    ensures { WritesAscend }
{}

/// A call that is refused writes nothing.
pub fn refused_writes_nothing()
    ensures { RefusedWritesNothing }
{}

/// Over one call the wants are the reads in order, then the written keys in ascending order, then the reply.
pub fn wants_are_meaning()
    ensures { WantsAreMeaning }
{}
