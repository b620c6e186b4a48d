//! What the seats at the table of a counted history know.

/// What a seat knows. It exists in proofs alone, and no value of it is made.
///
/// The `home` seat is that of the `Fresh`: its list is the history. The list of any other is what it last saw of the history. `older` are
/// the lists that it had before, or that it was shown. A view that was joined into another is `spent`.
pub struct View {
    pub home: bool,
    pub spent: bool,
    // A clause reads an array as a list, of any length.
    pub list: [u32; 0],
    pub older: [[u32; 0]; 0],
}
