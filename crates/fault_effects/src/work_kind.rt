//! The lists of work in a block.
/// The lists of work in a block: nets that own a suspect, and suspects that none owns.
#[derive(Clone, Copy)]
pub enum WorkKind {
    Nets,
    Pins,
    Cells,
}
