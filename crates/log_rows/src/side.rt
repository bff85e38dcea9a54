//! The two classes of bits that count.
/// The two classes of bits that count.
#[derive(Clone, Copy)]
pub enum Side {
    Failing,
    Passing,
}
