//! The list text, read.

ghost use Rattle.std.specs.Prelude.{
  ◌≡◌,
  ℕ,
  ◌+◌,
  ◌^◌,
  ◌<◌,
  ◌≤◌,
  ◌≢◌,
  ◌↔◌,
  length,
  slice_index,
  IfOk,
  IfErr,
  OnOk,
  Some,
  None,
  IsTrue,
  if◌then◌else◌,
};
ghost use Rattle.std.specs.Str.Parse.{AllDigits, digits_value};
ghost use Rattle.byte_text.specs.Numerals.{is_numeral};
ghost use Rattle.cpu_set.specs.Readings.{ReadsList, ListRefused, list_rule, range_fault, low_value, high_value};

use crate::fault::SetFault;
use crate::run::Run;
use crate::set::{CpuSet, LIMIT};
use byte_text::{Numeral, cut_at, first_part, read_numeral};

// The highest number that a set may have.
const HIGHEST: u64 = LIMIT as u64 - 1;

impl CpuSet {
    /// Reads items between commas in any order: a number, or two with a dash between, the first not above the second
    /// (hwloc's list text). The empty text is the empty set.
    ///
    /// The leftmost broken rule is refused: `Form` for an item of another form, `Infinite` for a number with a dash
    /// behind it, both with the offset of the item, and `TooLarge` with that of the first number of the item from 4,096
    /// on.
    #[tactic(auto, using(crate::proofs::PartLemmas::first_of_parts))]
    pub fn read_list(text: &[u8]) -> Result<CpuSet, SetFault>
        ensures set { IfOk result (ReadsList text.now) }
        ensures fault { IfErr result (ListRefused text.now) }
    {
        let mut set = CpuSet::empty();
        let mut at = 0;
        let mut rest = if text.is_empty() { None } else { Some(text) };
        while let Some(items) = rest {
            let (item, behind) = first_part(items, b',');
            let run = read_item(at, item)?;
            set.add_range(run.first, run.last);
            at += item.len() + 1;
            rest = behind;
        }
        Ok(set)
    }
}

// The run that an item stands for, or its fault.
fn read_item(at: usize, item: &[u8]) -> Result<Run, SetFault>
    requires { at + length item.now + 1 < 2 ^ 64 }
    ensures first { IfOk result (λ run. run.first ≡ low_value item.now) }
    ensures last { IfOk result (λ run. run.last ≡ high_value item.now) }
    ensures ends { IfOk result (λ run. run.first ≤ run.last) }
    ensures limit { IfOk result (λ run. run.last < LIMIT) }
    ensures good { OnOk result (list_rule at 0 item.now ≡ None) }
    ensures fault { IfErr result (λ fault. list_rule at 0 item.now ≡ Some fault) }
{
    match cut_at(item, b'-') {
        None => read_range(at, item, item),
        Some((low, high)) => {
            if high.is_empty() {
                Err(open_fault(at, low))
            } else {
                read_range(at, low, high)
            }
        }
    }
}

// The fault of an item that ends with its first dash.
fn open_fault(at: usize, low: &[u8]) -> SetFault
    ensures { result ≡ (if is_numeral 10 low.now then SetFault.Infinite at else SetFault.Form at) }
{
    match read_numeral(10, low, HIGHEST) {
        Numeral::Number(_) | Numeral::TooLarge => SetFault::Infinite { at },
        Numeral::NotNumeral => SetFault::Form { at },
    }
}

// The run from one end to the other, or the fault of an item with these ends.
fn read_range(at: usize, low: &[u8], high: &[u8]) -> Result<Run, SetFault>
    requires { at + length low.now + 1 < 2 ^ 64 }
    ensures first { IfOk result (λ run. run.first ≡ digits_value 10 low.now) }
    ensures last { IfOk result (λ run. run.last ≡ digits_value 10 high.now) }
    ensures ends { IfOk result (λ run. run.first ≤ run.last) }
    ensures limit { IfOk result (λ run. run.last < LIMIT) }
    ensures good { OnOk result (range_fault at low.now high.now ≡ None) }
    ensures fault { IfErr result (λ fault. range_fault at low.now high.now ≡ Some fault) }
{
    use Numeral::{NotNumeral, Number, TooLarge};
    let form = SetFault::Form { at };
    match (
        read_numeral(10, low, HIGHEST),
        read_numeral(10, high, HIGHEST),
    ) {
        (NotNumeral, _) | (_, NotNumeral) | (TooLarge, Number(_)) => Err(form),
        (Number(first), Number(last)) if first > last => Err(form),
        (TooLarge, TooLarge) if is_above(low, high) => Err(form),
        (TooLarge, TooLarge) => Err(SetFault::TooLarge { at }),
        (Number(_), TooLarge) => Err(SetFault::TooLarge {
            at: at + low.len() + 1,
        }),
        (Number(first), Number(last)) => Ok(Run {
            first: first as u32,
            last: last as u32,
        }),
    }
}

// Whether the one number is above the other, however long the two are.
fn is_above(one: &[u8], other: &[u8]) -> bool
    requires digits { AllDigits 10 one.now }
    requires other_digits { AllDigits 10 other.now }
    ensures { IsTrue result ↔ (digits_value 10 other.now < digits_value 10 one.now) }
{
    let one = without_zeros(one);
    let other = without_zeros(other);
    if one.len() == other.len() {
        is_above_at_length(one, other)
    } else {
        one.len() > other.len()
    }
}

// Whether the one number is above the other, which has as many digits.
fn is_above_at_length(one: &[u8], other: &[u8]) -> bool
    requires digits { AllDigits 10 one.now }
    requires other_digits { AllDigits 10 other.now }
    requires length { length one.now ≡ length other.now }
    ensures { IsTrue result ↔ (digits_value 10 other.now < digits_value 10 one.now) }
{
    for place in 0..one.len() {
        if one[place] != other[place] {
            return one[place] > other[place];
        }
    }
    false
}

// The digits without the zeros before the others.
fn without_zeros(digits: &[u8]) -> &[u8]
    requires { AllDigits 10 digits.now }
    ensures digits { AllDigits 10 result.now }
    ensures same { digits_value 10 result.now ≡ digits_value 10 digits.now }
    ensures first { 0 < length result.now → slice_index result.now 0 ≢ 48 }
{
    let mut rest = digits;
    while let [b'0', behind @ ..] = rest {
        rest = behind;
    }
    rest
}
