//! What became of an entry that was added.

/// An entry that is there now, by its number from 1 among its kind: of designs in a book, of logs or sign-offs of their die.
#[derive(Clone, Copy, PartialEq, Eq)]
pub enum Put {
    /// It was created.
    Created { number: u64 },
    /// It was there already.
    Same { number: u64 },
}
