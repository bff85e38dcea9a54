//! Runs of commands and of `serve` whose shelves, sinks, streets and cabinets fail or don't.
mod byte_sink;
mod failing;
mod files;
mod lacking;
mod runs;
mod serving;
mod sure;
