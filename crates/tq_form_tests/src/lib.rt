//! Tests of the forms on a device: clusters, logs, journals, records and chains of pages, each by the
//! public calls of its crate.
#![tactic(auto)]

#[cfg(test)]
mod chains;
#[cfg(test)]
mod extents;
#[cfg(test)]
mod journals;
#[cfg(test)]
mod logs;
#[cfg(test)]
mod records;
#[cfg(test)]
mod spaces;
