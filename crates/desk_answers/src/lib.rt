//! Which response a request gets over a seat of a desk: the routes, what their targets name, and what is answered there.
#![tactic(auto)]

mod answers;
mod desk_seat;
mod routes;
mod seat;

pub use answers::signoff::{BodyFault, sign_body};
pub use answers::{Request, answer};
pub use routes::Routes;
pub use routes::resource::Resource;
pub use seat::SeatAt;
