//! Worked rows of calls that no command reaches: small designs and logs whose answers are known from
//! outside, and counts and explained patterns beside those that are made in another way.
#![tactic(auto)]

#[cfg(test)]
mod tests;
