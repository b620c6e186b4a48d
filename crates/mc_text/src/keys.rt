//! The keys of a retrieval line.
ghost use Rattle.std.specs.Prelude.{◌≡◌, [], ◌∷◌, MatchOption};
ghost use Rattle.byte_text.specs.Words.{words_left};
ghost use Rattle.mc_text.specs.Keys.{keys_left};

use byte_text::Words;

/// The keys of a command that are still to be given, in the order of its line.
#[derive(Clone, Copy, Debug)]
pub struct Keys<'a> {
    words: Words<'a>,
}

impl<'a> Keys<'a> {
    /// The words of a line that are its keys.
    pub(crate) fn new(words: Words<'a>) -> Keys<'a>
        ensures { keys_left result ≡ words_left words.entry }
    {
        Keys { words }
    }

    /// The next key, in the order of the line; `None` where all keys were given.
    pub fn next(&mut self) -> Option<&'a [u8]>
        ensures { MatchOption result
            ((keys_left self.old ≡ []) × (keys_left self.new ≡ []))
            (λ key. keys_left self.old ≡ key.now ∷ keys_left self.new) }
    {
        self.words.next()
    }
}
