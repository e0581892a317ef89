ghost use Rattle.std.specs.Prelude.{◌≡◌, ◌==◌, ◌≤◌, ◌∷◌, length, option_map, position};
ghost use Rattle.std.specs.List.{slice_split};
ghost use Rattle.certificates.specs.Tokens.{words_of};
ghost use Rattle.cert_lines.specs.Pieces.{pieces_left, words_left, room};

/// Where the first such byte stands, counted from 0.
pub fn place(wanted: u8, text: &[u8]) -> Option<usize>
    ensures { result ≡ position (λ b. b == wanted) text.now }
{
    text.iter().position(|byte| *byte == wanted)
}

/// The first word of a line, and what stands behind the space after it.
pub fn cut_word(text: &[u8]) -> (&[u8], Option<&[u8]>)
    ensures words { words_of text.now ≡ result.0.now ∷ words_left (option_map (λ s. s.now) result.1) }
    ensures less { room (option_map (λ s. s.now) result.1) ≤ length text.now }
{
    cut(b' ', text)
}

/// The text up to the first separator, and what stands behind that.
pub fn cut(separator: u8, text: &[u8]) -> (&[u8], Option<&[u8]>)
    ensures pieces { slice_split (λ b. b == separator) text.now
        ≡ result.0.now ∷ pieces_left separator (option_map (λ s. s.now) result.1) }
    ensures less { room (option_map (λ s. s.now) result.1) ≤ length text.now }
{
    match place(separator, text) {
        None => (text, None),
        Some(at) => (&text[..at], Some(&text[at + 1..])),
    }
}
