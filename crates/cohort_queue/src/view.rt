//! What the seats at a queue know.

use lock_rules::Tagged;

/// What a seat at the queue knows. It exists in proofs alone, and no value of it is made.
pub struct View {
    /// The tag of all jobs. It is open before the first push.
    pub tag: Option<Tagged>,
    /// The numbers of the jobs that it took and did not put back. A clause reads an array as a list, of any length.
    pub outs: [u32; 0],
    /// The numbers of the jobs that the queue was made with, as many as were put so far.
    pub given: [u32; 0],
    /// Its own number among the seats, and those that it took over by joining. The first seat's is 0.
    pub numbers: [u32; 0],
    /// Of the first seat: how many seats there are, itself counted.
    pub split: u32,
}
