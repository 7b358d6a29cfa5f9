// The text with which a log begins.
ghost use Rattle.std.specs.Prelude.{◌≡◌};
ghost use Rattle.tau_block.specs.Image.{format_digit, magic};

use tau_base::Format;

// The digit that stands for a format.
pub(crate) fn digit_of(format: Format) -> u8
    ensures { result ≡ format_digit format }
{
    match format {
        Format::One => b'1',
        Format::Two => b'2',
    }
}

// The text with which a log in this format begins.
pub(crate) fn magic_of(format: Format) -> [u8; 12]
    ensures { result ≡ magic format }
{
    [
        b'T',
        b'A',
        b'U',
        b'R',
        b'U',
        b'S',
        b'-',
        b'L',
        b'O',
        b'G',
        b'-',
        digit_of(format),
    ]
}
