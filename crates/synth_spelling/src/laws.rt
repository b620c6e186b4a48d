//! Laws of spellings: each is the contract of a function that does nothing.
ghost use Rattle.synth_spelling.specs.Spelling.{SizesAreSpelled, IndexesAreSpelled, AttributesAreSpelled};
ghost use Rattle.synth_spelling.specs.Spelling.{LevelItemsAreSpelled, MemoryItemsAreSpelled, DescriptionsAreSpelled};
ghost use Rattle.synth_spelling.specs.Refused.{RefusalsAreSpelled};

/// A value says exactly what it is spelled as: a size is digits and a unit, indexes are numbers or loops with a byte between each
/// two. Words say of each attribute what the one word of its key spells.
pub fn values_are_spelled()
    ensures size { SizesAreSpelled }
    ensures indexes { IndexesAreSpelled }
    ensures attributes { AttributesAreSpelled }
{}

/// An item says exactly what it is spelled as: a level item is a name, `:` and a numeral, or a numeral alone, and a memory
/// item a name of NUMANode in brackets; both may have attributes in parentheses, words `key=value` with gaps between them.
pub fn items_are_spelled()
    ensures level { LevelItemsAreSpelled }
    ensures memory { MemoryItemsAreSpelled }
{}

/// A text describes something exactly where it is a list of items that are spelled so, which break no rule.
pub fn descriptions_are_spelled()
    ensures { DescriptionsAreSpelled }
{}

/// A text is refused exactly for the first rule that it breaks: that of its leftmost wrong item, or, where no item alone is wrong,
/// the first on all items together. In an item the name goes before the arity, and that before the attributes, of which the
/// leftmost wrong one decides.
pub fn refusals_are_spelled()
    ensures { RefusalsAreSpelled }
{}
