// Tables of words.

ghost use Rattle.std.specs.Prelude.{◌≡◌, map};
ghost use Rattle.std.specs.List.{list_any};
ghost use Rattle.std.specs.Map.{lookup};
ghost use Rattle.std.specs.Str.{bytes_eq};

// What the first entry with this word has.
pub(crate) fn find<T: Copy>(entries: &[(&'static [u8], T)], word: &[u8]) -> Option<T>
    ensures { result ≡ lookup (bytes_eq word.now) (map (λ e. (e.0.now, e.1)) entries.now) }
{
    for (text, value) in entries {
        if word == *text {
            return Some(*value);
        }
    }
    None
}

// Whether a word is one of these.
pub(crate) fn is_among(words: &[&'static [u8]], word: &[u8]) -> bool
    ensures { result ≡ list_any (bytes_eq word.now) (map (λ w. w.now) words.now) }
{
    for known in words {
        if word == *known {
            return true;
        }
    }
    false
}
