//! The parts of the outside.
/// The part of the outside that a call belongs to; of the devices the number of the one.
#[derive(Clone, Copy, Debug, PartialEq, Eq, Drop)]
pub enum Part {
    Device(u8),
    Input,
    Output,
}
