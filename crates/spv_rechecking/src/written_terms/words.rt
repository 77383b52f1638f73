// Tables of words.

ghost use Rattle.std.specs.Prelude.{◌≡◌, ◌&&◌, map};
ghost use Rattle.std.specs.List.{list_all};
ghost use Rattle.std.specs.Char.{is_ascii_lowercase};
ghost use Rattle.std.specs.Map.{lookup};
ghost use Rattle.std.specs.Prelude.{not};
ghost use Rattle.std.specs.Str.{bytes_eq};

// What the first entry with this word has.
pub(crate) fn find<T: Copy>(entries: &[(&'static [u8], T)], word: &[u8]) -> Option<T>
    ensures { result ≡ lookup (bytes_eq word.now) (map (λ e. (e.0.now, e.1)) entries.now) }
{
    for (text, value) in entries {
        if word == *text {
            return Some(*value);
        }
    }
    None
}

// Whether two words are the same.
pub(crate) fn is_same(word: &[u8], other: &[u8]) -> bool
    ensures { result ≡ bytes_eq word.now other.now }
{
    word == other
}

// Whether no byte of a word is a small letter.
pub(crate) fn is_folded(word: &[u8]) -> bool
    ensures { result ≡ list_all (λ b. not (is_ascii_lowercase b)) word.now }
{
    for byte in word {
        if byte.is_ascii_lowercase() {
            return false;
        }
    }
    true
}
