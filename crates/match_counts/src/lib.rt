//! How the predictions of faults match the logs of a die, counted bit by bit.
#![tactic(auto)]

mod block_count;
mod block_piece;
mod block_totals;
mod chain_counts;
mod counting;
mod flip_rows;
mod gather;
mod lane_tally;
mod listing;
mod piece;
mod pieces;
mod pin_counts;
mod place_counts;
mod plain;
mod point_counts;
mod point_observer;
mod share_lists;
mod suspect_counts;
mod tally;
mod totals;

pub use block_count::BlockCount;
pub use block_totals::BlockTotals;
pub use chain_counts::count_row;
pub use flip_rows::FlipRows;
pub use listing::list_candidates;
pub use place_counts::PlaceCounts;
pub use plain::plain_counts;
pub use point_counts::PointCounts;
pub use suspect_counts::counts;
pub use totals::Total;
