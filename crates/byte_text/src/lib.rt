//! What several crates need of texts of bytes: numerals and their limits, cuts at a byte, words, written numbers.
#![tactic(auto)]

mod classes;
mod cuts;
mod decimals;
mod numerals;
mod words;
mod written;

pub use classes::{Class, is_white};
pub use cuts::{are_all, cut, cut_at, first_part, first_piece, split_front};
pub use decimals::{number_capped, number_in, number_up_to, number32};
pub use numerals::{Numeral, read_numeral};
pub use words::Words;
pub use written::{hex_digit, push_decimal};
