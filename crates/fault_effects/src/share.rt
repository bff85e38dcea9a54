//! What a suspect comes to in one block.
/// What a suspect, by its number, comes to in one block.
#[derive(Clone, Copy)]
pub struct Share<P> {
    pub suspect: u32,
    pub part: P,
}
