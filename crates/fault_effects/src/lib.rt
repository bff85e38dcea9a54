//! What faults do in a block of 512 patterns, as far as flips of nets tell it: one flip serves all faults of a net, of a
//! region of nets the root alone is flipped, two flips serve the faults of a pair, and a chain is walked cell by cell.
#![tactic(auto)]

mod block_work;
mod cached_flip;
mod cell_shares;
mod flip_order;
mod kept_flips;
mod loaded_chain;
mod net_piece;
mod notes;
mod observer;
mod owners;
mod piece;
mod pin_piece;
mod readers;
mod region;
mod rooted;
mod share;
mod suspect;
mod walk;
mod work_kind;

pub use block_work::BlockWork;
pub use cell_shares::cell_piece;
pub use flip_order::owned_nets;
pub use observer::{ChainObserver, Observer};
pub use owners::{owners_of, suspects_at};
pub use piece::{logic_parts, logic_piece, piece_shares};
pub use readers::{Reads, reads_of};
pub use share::Share;
pub use suspect::Suspect;
pub use work_kind::WorkKind;
