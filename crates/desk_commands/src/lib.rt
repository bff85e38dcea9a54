//! The commands of the desk that come to a page, over what words ask for and a shelf of files.
#![tactic(auto)]

mod commands;
mod design;
mod die;
mod files;
mod launches;
mod logs;
mod page;
mod views;

pub use commands::page_of_command;
pub use page::Page;
