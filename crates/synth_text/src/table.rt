//! Tables of names, which are found without regard to the case of letters.
ghost use Rattle.std.specs.Prelude.{◌≡◌, map};
ghost use Rattle.std.specs.Str.{str_eq_ignore_ascii_case};
ghost use Rattle.synth_text.specs.Tables.{entry_of, rows};

/// What stands beside a word in a table; `None` where the table hasn't the word.
pub fn entry_named<X: Copy>(table: &[(&[u8], X)], word: &[u8]) -> Option<X>
    ensures { result ≡ entry_of (rows table.now) word.now }
{
    for (name, entry) in table {
        if is_same_word(word, name) {
            return Some(*entry);
        }
    }
    None
}

/// Whether two words are the same but for the case of ASCII letters.
pub fn is_same_word(word: &[u8], other: &[u8]) -> bool
    ensures { result ≡ str_eq_ignore_ascii_case word.now other.now }
{
    word.eq_ignore_ascii_case(other)
}
