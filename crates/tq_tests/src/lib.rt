//! The tests of the top call, in a crate of their own: a crate with tests is proved once more for
//! them. Each is a row of lines and answers, a stop, or a call that fails.
#![tactic(auto)]

#[cfg(test)]
mod runs;
