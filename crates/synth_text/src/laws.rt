//! Laws of descriptions and their texts: each is the contract of a function that does nothing.
ghost use Rattle.synth_text.specs.Laws.{
  CanonicalDescribes,
  DescribedIsSound,
  EachTextComesToSomething,
  NoTextComesToTwo,
};

/// Each text comes to a description or one of the nine rules, and no text comes to two: exactly one applies.
pub fn exactly_one_applies()
    ensures some { EachTextComesToSomething }
    ensures only { NoTextComesToTwo }
{}

/// What a text describes is sound.
pub fn described_is_sound()
    ensures { DescribedIsSound }
{}

/// What is sound is described by its canonical text. So `read` gives back each description that it gave, from the text
/// that `write` makes of it.
pub fn canonical_text_describes()
    ensures { CanonicalDescribes }
{}
