//! The set of numbers: 128 words of 32 bits, which are the words of its hexadecimal text.

ghost use Rattle.std.specs.Prelude.{
  ◌≡◌,
  ℕ,
  ◌+◌,
  ◌*◌,
  ◌/◌,
  ◌%◌,
  ◌<◌,
  ◌≤◌,
  ◌↔◌,
  ◌||◌,
  ◌&&◌,
  ◌==◌,
  nat_le,
  [],
  ◌∷◌,
  length,
  All,
  Contains,
  IsTrue,
  IsNone,
  IfNone,
  IfSome,
  slice_get,
};
ghost use Rattle.std.specs.Int.{bit_at};
ghost use Rattle.cpu_set.specs.Sets.{IsSet, has, numbers_where, union, minus, meet, xor};
ghost use Rattle.cpu_set.specs.Tests.{meets, is_inside};
ghost use Rattle.cpu_set.specs.Bits.{word_of};
ghost use Rattle.cpu_set.specs.Texts.{highest, numbers_from};

use std::marker::Model;

// How many words a set has.
pub(crate) const WORDS: usize = 128;

// How many numbers a word has.
pub(crate) const WIDTH: u32 = u32::BITS;

/// The numbers of a set are below this.
pub const LIMIT: u32 = 4096;

/// A set of numbers below 4,096, which contracts see as the ascending list of its numbers.
#[derive(Clone, Copy)]
pub struct CpuSet {
    words: [u32; WORDS],
}

impl Model for CpuSet {
    ghost use Rattle.std.specs.Prelude.{ℕ, List};
    ghost use Rattle.std.proofs.Common.{ap};
    ghost use Rattle.cpu_set.specs.Bits.{AreWords, set_of_words, words_of_set};
    ghost use Rattle.cpu_set.specs.WordLaws.{words_of_set_of_words};

    ghost Value = { List ℕ };

    ghost view = { λ set. set_of_words set.words };

    ghost invariant = { λ set. AreWords set.words };

    ghost inverse = { λ set. record { words = words_of_set set } };

    ghost inverse_ok = { λ set words. ap (λ ws. record { words = ws }) (words_of_set_of_words set.words words) };
}

impl CpuSet {
    /// The set of no number.
    pub fn empty() -> CpuSet
        ensures { result ≡ [] }
    {
        CpuSet { words: [0; WORDS] }
    }

    /// Adds a number below 4,096.
    pub fn with(&mut self, number: u32)
        requires { number < LIMIT }
        ensures { self.new ≡ union self.old (number ∷ []) }
    {
        self.add_word((number / WIDTH) as usize, 1 << (number % WIDTH));
    }

    /// Whether the set has the number.
    pub fn has(&self, number: u32) -> bool
        ensures found { IsTrue result ↔ Contains self.now number }
        ensures set { IsSet self.now }
    {
        let words = &self.words;
        number < LIMIT && (words[(number / WIDTH) as usize] >> (number % WIDTH)) & 1 == 1
    }

    /// The lowest number, or `None` exactly for the empty set.
    pub fn first(&self) -> Option<u32>
        ensures lowest { result ≡ slice_get self.now 0 }
        ensures none { IsNone result ↔ (self.now ≡ []) }
        ensures set { IsSet self.now }
    {
        self.next(0)
    }

    /// The lowest number from `from` on, or `None` exactly where there is none.
    pub fn next(&self, from: u32) -> Option<u32>
        ensures none { IfNone result (numbers_from from self.now ≡ []) }
        ensures found { IfSome result (λ number. numbers_from from self.now
            ≡ number ∷ numbers_from (number + 1) self.now) }
        ensures from { IfSome result (λ number. from ≤ number) }
        ensures limit { IfSome result (λ number. number < LIMIT) }
        ensures set { IsSet self.now }
    {
        let words = &self.words;
        if from >= LIMIT {
            return None;
        }
        let start = (from / WIDTH) as usize;
        let word = words[start] & (u32::MAX << (from % WIDTH));
        if word != 0 {
            return Some(WIDTH * start as u32 + word.trailing_zeros());
        }
        'words: for place in start + 1..WORDS {
            let word = words[place];
            if word != 0 {
                return Some(WIDTH * place as u32 + word.trailing_zeros());
            }
        }
        None
    }

    /// How many numbers the set has.
    pub fn weight(&self) -> u32
        ensures count { result ≡ length self.now }
        ensures set { IsSet self.now }
    {
        let mut count = 0;
        for word in &self.words {
            count += word.count_ones();
        }
        count
    }

    /// The numbers that are in this set or in the other.
    pub fn union(&self, other: &CpuSet) -> CpuSet
        ensures { result ≡ union self.now other.now }
    {
        let mut words = self.words;
        'words: for place in 0..WORDS {
            words[place] |= other.words[place];
        }
        CpuSet { words }
    }

    /// The numbers that are in this set and not in the other.
    pub fn minus(&self, other: &CpuSet) -> CpuSet
        ensures { result ≡ minus self.now other.now }
    {
        let mut words = self.words;
        'words: for place in 0..WORDS {
            words[place] &= !other.words[place];
        }
        CpuSet { words }
    }

    /// The numbers that are in both sets.
    pub fn meet(&self, other: &CpuSet) -> CpuSet
        ensures { result ≡ meet self.now other.now }
    {
        let mut words = self.words;
        'words: for place in 0..WORDS {
            words[place] &= other.words[place];
        }
        CpuSet { words }
    }

    /// The numbers that are in just one of the two sets.
    pub fn xor(&self, other: &CpuSet) -> CpuSet
        ensures { result ≡ xor self.now other.now }
    {
        let mut words = self.words;
        'words: for place in 0..WORDS {
            words[place] ^= other.words[place];
        }
        CpuSet { words }
    }

    /// Whether some number of this set is in the other.
    pub fn meets(&self, other: &CpuSet) -> bool
        ensures { result ≡ meets self.now other.now }
    {
        'words: for place in 0..WORDS {
            if self.words[place] & other.words[place] != 0 {
                return true;
            }
        }
        false
    }

    /// Whether every number of this set is in the other.
    pub fn inside(&self, other: &CpuSet) -> bool
        ensures all { IsTrue result ↔ All (Contains other.now) self.now }
        ensures test { result ≡ is_inside self.now other.now }
    {
        'words: for place in 0..WORDS {
            if self.words[place] & !other.words[place] != 0 {
                return false;
            }
        }
        true
    }

    // The word at a place.
    pub(crate) fn word(&self, place: usize) -> u32
        requires { place < WORDS }
        ensures { result ≡ word_of self.now place }
    {
        self.words[place]
    }

    // The highest number, or 0 of the empty set.
    pub(crate) fn highest(&self) -> u32
        ensures number { result ≡ highest self.now }
        ensures limit { result < LIMIT }
        ensures set { IsSet self.now }
    {
        for place in (0..WORDS).rev() {
            let word = self.words[place];
            if word != 0 {
                return WIDTH * place as u32 + (WIDTH - 1 - word.leading_zeros());
            }
        }
        0
    }

    // Adds the numbers whose bits are set in the word at a place.
    pub(crate) fn add_word(&mut self, place: usize, word: u32)
        requires { place < WORDS }
        ensures { self.new ≡ numbers_where (λ number.
            has self.old number || (number / WIDTH == place && bit_at word (number % WIDTH) == 1)) }
    {
        self.words[place] |= word;
    }

    // Adds the numbers from `low` to `high`, both among them.
    pub(crate) fn add_range(&mut self, low: u32, high: u32)
        requires ends { low ≤ high }
        requires limit { high < LIMIT }
        ensures { self.new ≡ numbers_where (λ number.
            has self.old number || (nat_le low number && nat_le number high)) }
    {
        'words: for place in low / WIDTH..high / WIDTH + 1 {
            let first = if place == low / WIDTH { low % WIDTH } else { 0 };
            let last = if place == high / WIDTH {
                high % WIDTH
            } else {
                WIDTH - 1
            };
            self.add_word(place as usize, ones_between(first, last));
        }
    }
}

// The word whose bits from `first` to `last` are set, and no others.
fn ones_between(first: u32, last: u32) -> u32
    requires ends { first ≤ last }
    requires within { last < WIDTH }
    ensures { (bit : ℕ) → bit < WIDTH
        → (bit_at result bit == 1) ≡ (nat_le first bit && nat_le bit last) }
{
    (u32::MAX >> (WIDTH - 1 - last)) & (u32::MAX << first)
}
