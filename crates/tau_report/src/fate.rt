//! What became of a call, kept short.
ghost use Rattle.std.specs.Prelude.{◌≡◌, IfOk};
ghost use Rattle.tau_report.specs.declared.report.Fate.TheVariants.{Unrun};
ghost use Rattle.tau_report.specs.KeptFate.{fate_by};

use crate::report::Fate;
use std::alloc::Global;
use std::marker::Model;
use tau_base::{NoMemory, Value};
use tau_proc::Reply;

#[derive(Debug, Drop)]
pub(crate) enum Kept {
    Unrun,
    /// It committed with a whole number as its reply.
    Int {
        acknowledged: bool,
        number: i64,
    },
    /// It committed with another reply.
    Other {
        acknowledged: bool,
        reply: Box<Reply>,
    },
}

/// What became of a call: it takes 16 bytes if the reply is a whole number, and otherwise a box. Contracts see it as the fate.
#[derive(Debug, Drop)]
pub struct KeptFate {
    pub(crate) kept: Kept,
}

impl Model for KeptFate {
    ghost use Rattle.tau_report.specs.declared.report.Fate.{Fate};
    ghost use Rattle.tau_report.specs.KeptFate.{kept_fate};

    ghost Value = { Fate };

    ghost view = { λ f. kept_fate f.kept };
}

impl KeptFate {
    /// The call did not commit. It takes no memory.
    pub fn unrun() -> KeptFate
        ensures { result ≡ Unrun }
    {
        KeptFate { kept: Kept::Unrun }
    }

    /// The call committed with this reply, and is acknowledged or not.
    pub fn of(alloc: Global, acknowledged: bool, reply: &Reply) -> Result<KeptFate, NoMemory>
        ensures { IfOk result (λ kept. kept ≡ fate_by acknowledged reply.now) }
    {
        match reply {
            Reply::Ok(Value::Int(number)) => Ok(KeptFate {
                kept: Kept::Int {
                    acknowledged,
                    number: *number,
                },
            }),
            _ => Ok(KeptFate {
                kept: Kept::Other {
                    acknowledged,
                    reply: Box::new(alloc, reply.copied())?,
                },
            }),
        }
    }

    /// The fate as a value of its own. It takes no memory.
    pub fn fate(&self) -> Fate
        ensures { result ≡ self.now }
    {
        match &self.kept {
            Kept::Unrun => Fate::Unrun,
            Kept::Int {
                acknowledged,
                number,
            } => fate_of(*acknowledged, Reply::Ok(Value::Int(*number))),
            Kept::Other {
                acknowledged,
                reply,
            } => fate_of(*acknowledged, reply.as_ref().copied()),
        }
    }
}

/// The fate of a call that committed with this reply.
fn fate_of(acknowledged: bool, reply: Reply) -> Fate
    ensures { result ≡ fate_by acknowledged reply }
{
    if acknowledged {
        Fate::Acked(reply)
    } else {
        Fate::Unsure(reply)
    }
}
