//! What is to be done with the file `.released`.

/// Records that are added to the file.
#[derive(Drop)]
pub struct Records {
    /// The length to which it is cut before, in bytes.
    pub place: u64,
    pub bytes: Vec<u8>,
}

/// What is to be done with the file.
#[derive(Drop)]
pub enum Change {
    /// Nothing.
    Stays,
    /// Records are added.
    Adds(Records),
    /// It is written anew, and holds this.
    Anew(Vec<u8>),
}
