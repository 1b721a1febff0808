//! The lines of a text.
ghost use Rattle.std.specs.Prelude.{◌≡◌, ◌≢◌, ◌∷◌, ◌<◌, ◌≤◌, ℕ, length, slice_index};
ghost use Rattle.guard_notes.specs.Lines.{lines_of};

/// The octets before the first line feed, and those after it.
pub fn first_line(text: &[u8]) -> (&[u8], &[u8])
    requires { 0 < length text.now }
    ensures shorter { length result.1.now < length text.now }
    ensures lines { lines_of text.now ≡ result.0.now ∷ lines_of result.1.now }
{
    let end = line_end(text);
    if end < text.len() {
        (&text[..end], &text[end + 1..])
    } else {
        (text, &[])
    }
}

/// Where the first line feed is, or where the text ends.
pub fn line_end(text: &[u8]) -> usize
    ensures within { result ≤ length text.now }
    ensures before { (k : ℕ) → k < result → slice_index text.now k ≢ 10 }
    ensures there { result < length text.now → slice_index text.now result ≡ 10 }
{
    for (place, octet) in text.iter().enumerate() {
        if *octet == b'\n' {
            return place;
        }
    }
    text.len()
}
