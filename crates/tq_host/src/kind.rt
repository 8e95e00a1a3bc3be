ghost use Rattle.std.specs.Prelude.{◌≡◌, ◌<◌};

/// The calls of a `Host`, by their kinds.
#[derive(Clone, Copy, Debug, PartialEq, Eq, Drop)]
pub enum CallKind {
    Attach,
    Length,
    SetLength,
    Read,
    Write,
    Sync,
    Take,
    Give,
}
