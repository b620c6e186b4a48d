//! Indexes of parts, read.
ghost use Rattle.std.specs.Prelude.{◌≡◌, option_map};
ghost use Rattle.std.specs.Option.{option_and_then};
ghost use Rattle.calc_query.specs.Readings.{index_number, span_from, wrap_from, pick_of};

use crate::query::Pick;
use byte_text::{Class, cut, number32};

/// What an index says; `None` where it has none of the forms.
#[tactic(auto, unfolding(crate::specs::Readings::pick_of))]
pub fn read_pick(text: &[u8]) -> Option<Pick>
    ensures { result ≡ pick_of text.now }
{
    if text == b"all".as_slice() {
        return Some(Pick::Every);
    }
    if text == b"odd".as_slice() {
        return Some(Pick::Odd);
    }
    if text == b"even".as_slice() {
        return Some(Pick::Even);
    }
    if let Some((first, count)) = cut(text, Class::Byte(b':')) {
        return read_wrap(first, count);
    }
    match cut(text, Class::Byte(b'-')) {
        Some((first, last)) => read_span(first, last),
        None => Some(Pick::One(number32(text)?)),
    }
}

// `a:n`, from its two ends.
fn read_wrap(first: &[u8], count: &[u8]) -> Option<Pick>
    ensures { result ≡ option_and_then (wrap_from count.now) (index_number first.now) }
{
    let first = number32(first)?;
    let count = number32(count)?;
    Some(Pick::Wrap { first, count })
}

// `a-b` or `a-`, from its two ends.
fn read_span(first: &[u8], last: &[u8]) -> Option<Pick>
    ensures { result ≡ option_and_then (span_from last.now) (index_number first.now) }
{
    let first = number32(first)?;
    if last.is_empty() {
        return Some(Pick::From(first));
    }
    let last = number32(last)?;
    Some(Pick::Span { first, last })
}
