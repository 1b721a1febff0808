//! The first word of a text.
ghost use Rattle.std.specs.Prelude.{◌≡◌, ◌≢◌, ◌<◌, ◌≤◌, ℕ, length, slice_index};
ghost use Rattle.guard_files.specs.Word.{first_word};

/// The octets before the first space.
pub fn first_word(text: &[u8]) -> &[u8]
    ensures { result.now ≡ first_word text.now }
{
    &text[..word_end(text)]
}

/// Where the first space is, or where the text ends.
fn word_end(text: &[u8]) -> usize
    ensures within { result ≤ length text.now }
    ensures before { (k : ℕ) → k < result → slice_index text.now k ≢ 32 }
    ensures there { result < length text.now → slice_index text.now result ≡ 32 }
{
    for (place, octet) in text.iter().enumerate() {
        if *octet == b' ' {
            return place;
        }
    }
    text.len()
}
