// The numbers by which files and refusals name formats, dimensions and aspects.

// A number that names none.
#[derive(Clone, Copy, Debug, PartialEq, Eq)]
pub struct UnknownCode(pub u32);
