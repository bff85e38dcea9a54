//! What the desk asks of the world outside: a shelf of files, a sink for bytes, a keeper of deeds
//! and a link to a client; a door that hands out links, a street that hands out doors and a cabinet
//! that hands out keepers; a gate that a session passes. Each of them stands here in memory too.
#![tactic(auto)]

mod cabinet;
mod calls;
mod deed;
mod door;
mod gate;
mod keeper;
mod link;
mod memory;
mod shelf;
mod sink;
mod street;

pub use cabinet::{Cabinet, HandedKeeper, KeeperHome};
pub use calls::Failed;
pub use deed::{Deed, DeedKind};
pub use door::{Door, LinkHome};
pub use gate::{Gate, OpenGate};
pub use keeper::{KeepFault, Keeper, MemKeeper, SureKeeper};
pub use link::{Link, LinkRead, send_all};
pub use memory::{MemCabinet, MemDoor, MemLink, MemStreet, SureLink};
pub use shelf::{File, MemShelf, Shelf, ShelfAnswer, SureShelf, are_distinct};
pub use sink::{MemSink, Sink, SureSink, write_all};
pub use street::{DoorHome, Street};
