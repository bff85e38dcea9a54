//! Explained patterns that are kept beside those that are told anew, and a die whose two faults are known.
mod designs;
mod dies;
mod patterns;
mod rows;
