//! The words of a text.
ghost use Rattle.std.specs.Prelude.{◌≡◌, [], ◌∷◌, MatchOption};
ghost use Rattle.byte_text.specs.Words.{words, words_left};

use crate::cuts::cut_at;

/// The words of a text that are still to be given. A word is a longest run of bytes other than a space.
#[derive(Clone, Copy, Debug)]
pub struct Words<'a> {
    text: &'a [u8],
}

impl<'a> Words<'a> {
    /// All words of a text.
    pub fn new(text: &'a [u8]) -> Words<'a>
        ensures { words_left result ≡ words text.now }
    {
        Words { text }
    }

    /// The next word, in the order of the text; `None` where all were given.
    pub fn next(&mut self) -> Option<&'a [u8]>
        ensures { MatchOption result
            ((words_left self.old ≡ []) × (words_left self.new ≡ []))
            (λ word. words_left self.old ≡ word.now ∷ words_left self.new) }
    {
        while let Some((word, behind)) = cut_at(self.text, b' ') {
            self.text = behind;
            if !word.is_empty() {
                return Some(word);
            }
        }
        let word = self.text;
        self.text = &[];
        if word.is_empty() { None } else { Some(word) }
    }
}
