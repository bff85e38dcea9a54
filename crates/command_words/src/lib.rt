//! The commands: the table of the words of each, which words are right by it, and what right words ask for.
#![tactic(auto)]

mod argument;
mod clap_command;
mod command;
mod invocation;
mod right_words;
mod table;

pub use command::{Command, Demo, DesignFiles, Order, Service};
pub use invocation::{command_of, service_of};
pub use right_words::{form_named, is_serve};
pub use table::{Form, Product, Task};
