//! Tests of what no row of the top call reaches: values, hosts, moves of a space, the
//! grammar, texts and the slow machine, each by the public calls of its crate.
#![tactic(auto)]

#[cfg(test)]
mod devices;
#[cfg(test)]
mod fields;
#[cfg(test)]
mod files;
#[cfg(test)]
mod grammar;
#[cfg(test)]
mod hosts;
#[cfg(test)]
mod machine;
#[cfg(test)]
mod spaces;
#[cfg(test)]
mod texts;
#[cfg(test)]
mod values;
