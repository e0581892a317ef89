ghost use Rattle.std.specs.Prelude.{◌≡◌};

/// What a byte of a text is good for.
#[derive(Clone, Copy)]
pub enum Class {
    LeftBracket,
    RightBracket,
    CommaSign,
    SemicolonSign,
    Point,
    Digit(u8),
    Hash,
    Blank,
    LineFeed,
    Other,
}

impl Class {
    ghost use Rattle.gap_text.specs.Tokens.{class_of};

    pub fn of(byte: u8) -> Class
        ensures { result ≡ class_of byte }
    {
        match byte {
            b'[' => Class::LeftBracket,
            b']' => Class::RightBracket,
            b',' => Class::CommaSign,
            b';' => Class::SemicolonSign,
            b'.' => Class::Point,
            b'0'..=b'9' => Class::Digit(byte - b'0'),
            b'#' => Class::Hash,
            b' ' | b'\t' | b'\r' => Class::Blank,
            b'\n' => Class::LineFeed,
            _ => Class::Other,
        }
    }
}
