//! What the seats of the table know that the receipts of a trail come from.

use crate::turn::Turn;

/// What a seat of the receipts' table knows. It exists in proofs alone, and no value of it is made.
///
/// The `home` seat is the trail's: it knows all closed turns, in order. A receipt's seat knows the turns that were closed when it was
/// given. Either may have been shown those that another seat knows.
pub struct ReceiptView {
    pub home: bool,
    // A clause reads an array as a list, of any length.
    pub turns: [Turn; 0],
    pub shown: [Turn; 0],
}
