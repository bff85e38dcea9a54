//! The designs that are made of blocks: the definitions of their four texts, and that each text breaks no rule.
#![tactic(auto)]
