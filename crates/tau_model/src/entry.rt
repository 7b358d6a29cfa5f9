//! What the listing keeps of a call.
ghost use Rattle.std.specs.Prelude.{◌≡◌};

use crate::committed_list::LentCall;
use std::marker::Model;

/// A call with the start of its record.
#[derive(Drop)]
pub(crate) struct Entry<'a> {
    /// Where its record starts; 0 for a read-only call.
    start: u64,
    number: u64,
    dep: &'a [u64],
}

impl<'a> Model for Entry<'a> {
    ghost use Rattle.tau_model.specs.Listing.{Entry as Listed};

    ghost Value = { Listed };

    ghost view = { λ e. record { start = e.start; number = e.number; dep = e.dep.now } };
}

impl<'a> Entry<'a> {
    /// A call whose record starts here.
    pub(crate) fn of(call: &LentCall<'a>, start: u64) -> Entry<'a>
        ensures { result ≡ record { start = start; number = call.now.number; dep = call.now.dep } }
    {
        Entry {
            start,
            number: call.number(),
            dep: call.dep(),
        }
    }

    /// Where its record starts.
    pub(crate) fn start(&self) -> u64
        ensures { result ≡ self.now.start }
    {
        self.start
    }

    /// The call's number.
    pub(crate) fn number(&self) -> u64
        ensures { result ≡ self.now.number }
    {
        self.number
    }

    /// The positions of the call's vector.
    pub(crate) fn dep(&self) -> &[u64]
        ensures { result.now ≡ self.now.dep }
    {
        self.dep
    }
}
