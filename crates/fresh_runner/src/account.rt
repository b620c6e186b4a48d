//! What a caller keeps of its turns.
use fresh_root::Seen;
use keep_local::Share;

/// The numbers of a caller's turns, in order.
#[derive(Drop)]
pub struct Marks {
    pub turns: Vec<u32>,
}

/// What a caller keeps of its turns: its share of the trail, which counts them, its token, which is shown all calls at each hold, and the
/// marks that it got.
#[derive(Drop)]
pub struct Account {
    pub share: Share,
    pub seen: Seen,
    pub marks: Marks,
}
