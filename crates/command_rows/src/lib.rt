//! Runs over shelves, sinks, streets and cabinets in memory that fail. Runs over real files are rows of `tests/rows`.
#![tactic(auto)]

#[cfg(test)]
mod tests;
