//! How the items of a synthetic description are spelled, in other words than those of their reading: of which bytes an item
//! is made that says this or that. The laws say that the two agree, so a text is described as it is spelled.
#![tactic(auto)]

mod laws;

pub use laws::{
    descriptions_are_spelled, items_are_spelled, refusals_are_spelled, values_are_spelled,
};
