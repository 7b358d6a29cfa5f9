//! The formats of a log, and what a mode asks for.
ghost use Rattle.std.specs.Prelude.{◌≡◌};
ghost use Rattle.tau_base.specs.Modes.{format_number, format_of, is_command, most_streams, same_format};

use crate::value::LogMode;

/// In which format a log is written. In each of them a record has one spelling; they differ in the width of a mask.
#[derive(Clone, Copy, Debug, PartialEq, Eq)]
pub enum Format {
    /// Masks of 16 bits, for 1 to 16 streams.
    One,
    /// Masks of 32 bits, for 1 to 32 streams.
    Two,
}

/// In which format a run of this mode writes its log.
pub fn format_of(mode: LogMode) -> Format
    ensures { result ≡ format_of mode }
{
    match mode {
        LogMode::Values | LogMode::Commands => Format::One,
        LogMode::WideValues | LogMode::WideCommands => Format::Two,
    }
}

/// Whether the records of a run of this mode hold calls in place of written values.
pub fn is_command(mode: LogMode) -> bool
    ensures { result ≡ is_command mode }
{
    match mode {
        LogMode::Values | LogMode::WideValues => false,
        LogMode::Commands | LogMode::WideCommands => true,
    }
}

/// The most streams of a log in this format.
pub fn most_streams(format: Format) -> usize
    ensures { result ≡ most_streams format }
{
    match format {
        Format::One => 16,
        Format::Two => 32,
    }
}

/// Whether two formats are the same.
pub fn same_format(a: Format, b: Format) -> bool
    ensures { result ≡ same_format a b }
{
    match (a, b) {
        (Format::One, Format::One) => true,
        (Format::One, Format::Two) => false,
        (Format::Two, Format::One) => false,
        (Format::Two, Format::Two) => true,
    }
}

/// The number of a format in reports.
pub fn format_number(format: Format) -> u8
    ensures { result ≡ format_number format }
{
    match format {
        Format::One => 1,
        Format::Two => 2,
    }
}
