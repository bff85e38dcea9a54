//! The tests, by what they call.
mod compactors;
mod cones;
mod counts;
mod crews;
mod designs;
mod explained;
mod faults;
mod logs;
mod responses;
mod rows;
mod steps;
mod suspects;
mod transitions;
