//! Connections, doors, streets and cabinets in memory.

mod cabinet;
mod door;
mod link;
mod street;
mod unread;

pub use self::cabinet::MemCabinet;
pub use self::door::MemDoor;
pub use self::link::{MemLink, SureLink};
pub use self::street::MemStreet;
