use crate::CallKind;

/// A call as `MemHost` records it, with its bytes.
#[derive(Drop)]
pub enum Call {
    /// The device's content was set.
    Load(u8, Vec<u8>),
    Write(u8, u64, Vec<u8>),
    /// A write that failed.
    LostWrite(u8, u64, Vec<u8>),
    Resize(u8, u64),
    /// A change of the length that failed.
    LostResize(u8, u64),
    Sync(u8),
    /// A device and the bytes of the path that it was attached by.
    Attach(u8, Vec<u8>),
    /// The number of bytes taken.
    Take(usize),
    /// The bytes given, and the clock and the device count of that moment.
    Give(Vec<u8>, u64, u64),
    /// A call that changed nothing: it only reads, or it failed.
    Pass(CallKind),
}
