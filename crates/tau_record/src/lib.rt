//! The records of a log stream: their one spelling, and the reading of contents.
#![tactic(auto)]

mod content;
mod dep;
mod encode;
mod entry;
mod fault;
mod field;
mod item;
mod kind;
mod laws;
mod record;
mod rows;
mod single;
mod vector;
mod writes;

pub use content::{decode, decode_as};
pub use dep::KeptLv;
pub use encode::{
    encode_anchor, encode_catalogue, encode_command, encode_command_into, encode_command_wide,
    encode_command_wide_into, encode_epoch, encode_written, encode_written_into,
    encode_written_wide, encode_written_wide_into,
};
pub use entry::{Entry, Placed};
pub use fault::{RecordCause, RecordFault, RecordRefusal};
pub use laws::{
    anchor_vectors, anchors_appended, appended_content, appended_record, decoded_vector,
    empty_content, epochs_appended, epochs_rise, first_epoch, first_record, named_anchors,
    one_reading, one_reading_of_rows, one_spelling, read_again, record_in_place, rows_read_again,
};
pub use rows::{put_writes, read_writes};
pub use single::decode_one;
pub use tau_base::Format;
pub use vector::{compress, compress_wide, raise};
pub use writes::{KeptWrites, LentWrites};
