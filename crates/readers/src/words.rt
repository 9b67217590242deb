// Telling words apart.
ghost use Rattle.std.specs.Prelude.{◌≡◌};
ghost use Rattle.readers.specs.Words.{same_word};

// Whether two words have the same letters. A `match` on the letters themselves left a goal open for each byte at which a word may differ.
pub fn is_word(word: &[u8], other: &[u8]) -> bool
    ensures { result ≡ same_word word.now other.now }
{
    word == other
}
