//! What a call answers, and what it wants on the way.
ghost use Rattle.std.specs.Prelude.{◌≡◌};

use tau_base::{Key, Text64, Value};

/// What a call returns in the end.
#[derive(Clone, Debug, Drop, PartialEq, Eq)]
pub enum Reply {
    /// The value that it replies.
    Ok(Value),
    /// The step that refused, from 1.
    Refused(u16),
}

impl Reply {
    /// The same reply again. It takes no memory.
    pub fn copied(&self) -> Reply
        ensures { result ≡ self.now }
    {
        match self {
            Reply::Ok(value) => Reply::Ok(value.copied()),
            Reply::Refused(step) => Reply::Refused(*step),
        }
    }
}

/// What a call that runs wants next.
#[derive(Clone, Debug, Drop, PartialEq, Eq)]
pub enum Want {
    /// The value that the database has at this key.
    Read(Key),
    /// To write this key.
    Write(Key),
    /// Nothing more: it has finished.
    Finished(Reply),
}

/// Puts a reply in its place: that of a whole number without the bytes of a text.
pub(crate) fn put_finished(place: &mut Want, reply: &Reply)
    ensures { place.new ≡ Want.Finished reply.now }
{
    match reply {
        Reply::Ok(value) => put_value(place, value),
        Reply::Refused(step) => *place = Want::Finished(Reply::Refused(*step)),
    }
}

fn put_value(place: &mut Want, value: &Value)
    ensures { place.new ≡ Want.Finished (Reply.Ok value.now) }
{
    match value {
        Value::Absent => *place = Want::Finished(Reply::Ok(Value::Absent)),
        Value::Int(number) => *place = Want::Finished(Reply::Ok(Value::Int(*number))),
        Value::Text(text) => put_text(place, text),
    }
}

#[inline(never)]
fn put_text(place: &mut Want, text: &Text64)
    ensures { place.new ≡ Want.Finished (Reply.Ok (Value.Text text.now)) }
{
    *place = Want::Finished(Reply::Ok(Value::Text(text.copied())));
}
