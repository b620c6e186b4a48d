//! Laws of the definitions that the contracts of this crate cite. Each function does nothing: its contract is the law.

ghost use Rattle.std.specs.Prelude.{ℕ, Bool, List};
ghost use Rattle.cpu_set.specs.Sets.{IsSet};
ghost use Rattle.cpu_set.specs.Texts.{hex_text, list_text, runs_of};
ghost use Rattle.cpu_set.specs.Readings.{ReadsHex, HexRefused, ReadsList, ListRefused};
ghost use Rattle.cpu_set.specs.Laws.{AreMaximalRuns, HasJust, SameByMembers, CombinesSets, ExactlyOne, ReadsSets};

/// The numbers that pass a test are a set, and are its only numbers.
pub fn sets_have_what_passes()
    ensures { (test : ℕ → Bool) → HasJust test }
{}

/// Two sets with the same numbers are equal.
pub fn sets_are_fixed_by_members()
    ensures { (one other : List ℕ) → SameByMembers one other }
{}

/// Union, difference, intersection and symmetric difference, by membership.
pub fn sets_combine_by_membership()
    ensures { (one other : List ℕ) → IsSet one → IsSet other → CombinesSets one other }
{}

/// A text in hexadecimal is read as exactly one set or has exactly one fault.
pub fn hex_is_read_or_refused()
    ensures one { (text : List ℕ) → ExactlyOne (ReadsHex text) (HexRefused text) }
    ensures set { (text : List ℕ) → ReadsSets (ReadsHex text) }
{}

/// A list is read as exactly one set or has exactly one fault.
pub fn list_is_read_or_refused()
    ensures one { (text : List ℕ) → ExactlyOne (ReadsList text) (ListRefused text) }
    ensures set { (text : List ℕ) → ReadsSets (ReadsList text) }
{}

/// The hexadecimal text of a set is read as that set.
pub fn hex_is_read_back()
    ensures { (set : List ℕ) → IsSet set → ReadsHex (hex_text set) set }
{}

/// The list text of a set is read as that set.
pub fn list_is_read_back()
    ensures { (set : List ℕ) → IsSet set → ReadsList (list_text set) set }
{}

/// The runs of a set, which its list text prints, are its maximal runs of consecutive numbers.
pub fn runs_are_maximal()
    ensures { (set : List ℕ) → IsSet set → AreMaximalRuns set (runs_of set) }
{}
