// Consecutive levels or layers of a texture.
ghost use Rattle.std.specs.Prelude.{◌<◌, ◌≤◌};

// From the first to before the end, of a total: never none, and never more than there are.
#[derive(Clone, Copy, Debug, PartialEq, Eq)]
pub struct Range {
    pub first: u32,
    pub end: u32,
    pub total: u32,
    ghost forward: { first < end },
    ghost inside: { end ≤ total },
}
