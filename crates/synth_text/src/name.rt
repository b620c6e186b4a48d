//! Names of kinds, as descriptions, queries and plans write them.
ghost use Rattle.std.specs.Prelude.{◌≡◌, ◌<◌, drop};
ghost use Rattle.synth_text.specs.Names.{name_of, kind_named, group_numbered};

use crate::kind::Kind;
use crate::table::{entry_named, is_same_word};
use byte_text::number_capped;

/// What a word names.
#[derive(Clone, Copy, Debug, PartialEq, Eq)]
pub enum Name {
    /// A kind of objects.
    Kind(Kind),
    /// The Group level with a number, from `group` and digits. A number over 4,294,967,295 is given as that.
    Group(u32),
}

// The names, in lower case, with their kinds.
const NAMES: [(&[u8], Kind); 25] = [
    (b"machine", Kind::Machine),
    (b"package", Kind::Package),
    (b"pack", Kind::Package),
    (b"socket", Kind::Package),
    (b"die", Kind::Die),
    (b"group", Kind::Group),
    (b"l5", Kind::L5),
    (b"l5cache", Kind::L5),
    (b"l4", Kind::L4),
    (b"l4cache", Kind::L4),
    (b"l3", Kind::L3),
    (b"l3cache", Kind::L3),
    (b"l2", Kind::L2),
    (b"l2cache", Kind::L2),
    (b"l1", Kind::L1d),
    (b"l1cache", Kind::L1d),
    (b"l1d", Kind::L1d),
    (b"l1dcache", Kind::L1d),
    (b"l1i", Kind::L1i),
    (b"l1icache", Kind::L1i),
    (b"core", Kind::Core),
    (b"pu", Kind::Pu),
    (b"numanode", Kind::NumaNode),
    (b"numa", Kind::NumaNode),
    (b"node", Kind::NumaNode),
];

/// What a word names, without regard to the case of its letters; `None` where it is no name.
pub fn read_name(word: &[u8]) -> Option<Name>
    ensures { result ≡ name_of word.now }
{
    match named_kind(word) {
        Some(kind) => Some(Name::Kind(kind)),
        None => numbered_group(word),
    }
}

// The kind that a word names, without a number.
fn named_kind(word: &[u8]) -> Option<Kind>
    ensures { result ≡ kind_named word.now }
{
    entry_named(&NAMES, word)
}

// The Group level that `group` and digits name.
#[tactic(auto, unfolding(crate::specs::Names::group_numbered))]
fn numbered_group(word: &[u8]) -> Option<Name>
    ensures { result ≡ group_numbered word.now }
{
    if word.len() < 5 {
        return None;
    }
    let (front, digits) = word.split_at(5);
    if !is_same_word(front, b"group") {
        return None;
    }
    let number = number_capped(digits)?;
    Some(Name::Group(number))
}
