//! What right words ask for.
use crate::table::Product;
use scan_model::Profile;

/// The files of a design, by their names, and the profile in which they are read.
#[derive(Clone, Copy)]
pub struct DesignFiles<'a> {
    pub profile: Profile,
    pub netlist: &'a str,
    pub scan: &'a str,
    pub patterns: &'a str,
    pub neighbours: &'a str,
}

/// What is to be made of which files. A name is empty, and there are no logs, where the command takes none.
#[derive(Drop)]
pub struct Order<'a> {
    pub design: &'a str,
    pub die: &'a str,
    pub files: DesignFiles<'a>,
    /// The channels of a compactor.
    pub channels: &'a str,
    pub logs: Vec<&'a str>,
}

/// A design that is made.
#[derive(Clone, Copy)]
pub struct Demo {
    pub seed: u32,
    /// From 1 to 200.
    pub blocks: u32,
}

/// The connections of a port over a store.
#[derive(Clone, Copy)]
pub struct Service<'a> {
    pub port: u16,
    /// From 1 to 64.
    pub workers: u32,
    /// How many connections each worker serves.
    pub sessions: u32,
    /// The name of the store.
    pub store: &'a str,
}

/// What the program is asked for, where that comes to a page.
#[derive(Drop)]
pub enum Command<'a> {
    Make { product: Product, order: Order<'a> },
    Demo(Demo),
}
