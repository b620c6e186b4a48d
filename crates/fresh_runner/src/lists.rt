//! What the callers of a run bring.
use crate::account::Marks;
use fresh_root::Seen;
use keep_local::Share;

/// The passes, the shares, the tokens and the marks of callers, each in order.
#[derive(Drop)]
pub struct Lists<Q> {
    pub passes: Vec<Q>,
    pub shares: Vec<Share>,
    pub seens: Vec<Seen>,
    pub marks: Vec<Marks>,
}
