//! Tests of sessions over a shared desk: the worked rows over HTTP.
#![tactic(auto)]

#[cfg(test)]
mod tests;
