//! Classes of bytes.
ghost use Rattle.std.specs.Prelude.{◌≡◌};
ghost use Rattle.byte_text.specs.Classes.{is_white};

/// Whether a byte is white space: a space, a tab, a carriage return or a line feed.
pub fn is_white(byte: u8) -> bool
    ensures { result ≡ is_white byte }
{
    byte == b' ' || byte == b'\t' || byte == b'\r' || byte == b'\n'
}

/// A class of bytes.
#[derive(Clone, Copy, Debug, PartialEq, Eq)]
pub enum Class {
    /// White space.
    White,
    /// Decimal digits.
    Digit,
    /// ASCII letters and digits.
    Alphanumeric,
    /// One byte alone.
    Byte(u8),
}

impl Class {
    ghost use Rattle.byte_text.specs.InClass.{in_class};

    /// Whether a byte is of the class.
    pub fn has(self, byte: u8) -> bool
        ensures { result ≡ in_class self byte }
    {
        match self {
            Class::White => is_white(byte),
            Class::Digit => byte.is_ascii_digit(),
            Class::Alphanumeric => byte.is_ascii_alphanumeric(),
            Class::Byte(own) => byte == own,
        }
    }
}
