//! Sessions: the requests of a connection, answered over a seat.

pub(crate) mod desk_session;
pub(crate) mod marks;
pub(crate) mod requests;
pub(crate) mod serve;
