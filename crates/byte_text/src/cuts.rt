//! Cuts of a text.
ghost use Rattle.std.specs.Prelude.{◌≡◌, Contains, MatchOption};
ghost use Rattle.std.specs.List.{take_while, prefix_len, list_all};
ghost use Rattle.byte_text.specs.Cuts.{IsCutAt, IsFirstPart, cut, first_piece, without_front};
ghost use Rattle.byte_text.specs.InClass.{in_class};
ghost use Rattle.byte_text.specs.Views.{texts, piece_texts};

use crate::classes::Class;

/// What stands before the first `byte` of a text, and what stands behind it; `None` where the text has no such byte.
pub fn cut_at(text: &[u8], byte: u8) -> Option<(&[u8], &[u8])>
    ensures { MatchOption result (¬ Contains text.now byte) (λ parts. IsCutAt byte text.now parts.0.now parts.1.now) }
{
    cut(text, Class::Byte(byte))
}

/// What stands before the first `byte` of a text, or the whole text; and what stands behind that byte, if there is one.
pub fn first_part(text: &[u8], byte: u8) -> (&[u8], Option<&[u8]>)
    ensures { IsFirstPart byte text.now result.0.now result.1 }
{
    match cut_at(text, byte) {
        Some((part, behind)) => (part, Some(behind)),
        None => (text, None),
    }
}

/// What stands before the first byte of a class, and what stands behind it; `None` where the text has no such byte.
pub fn cut(text: &[u8], class: Class) -> Option<(&[u8], &[u8])>
    ensures { texts result ≡ cut (in_class class) text.now }
{
    for (place, byte) in text.iter().enumerate() {
        if class.has(*byte) {
            return Some((&text[..place], &text[place + 1..]));
        }
    }
    None
}

/// What stands before the first byte of a class, or the whole text; and what stands behind that byte, if there is one.
#[tactic(auto, unfolding(crate::specs::Cuts::first_piece))]
pub fn first_piece(text: &[u8], class: Class) -> (&[u8], Option<&[u8]>)
    ensures { piece_texts result ≡ first_piece (in_class class) text.now }
{
    match cut(text, class) {
        Some((front, behind)) => (front, Some(behind)),
        None => (text, None),
    }
}

/// The bytes of a class in front of a text, and what stands behind them.
pub fn split_front(text: &[u8], class: Class) -> (&[u8], &[u8])
    ensures front { result.0.now ≡ take_while (in_class class) text.now }
    ensures behind { result.1.now ≡ without_front (in_class class) text.now }
{
    text.split_at(front_len(text, class))
}

// How many bytes of a class stand in front of a text.
fn front_len(text: &[u8], class: Class) -> usize
    ensures { result ≡ prefix_len (in_class class) text.now }
{
    for (place, byte) in text.iter().enumerate() {
        if !class.has(*byte) {
            return place;
        }
    }
    text.len()
}

/// Whether each byte of a text is of a class.
pub fn are_all(text: &[u8], class: Class) -> bool
    ensures { result ≡ list_all (in_class class) text.now }
{
    text.iter().all(|byte| class.has(*byte))
}
