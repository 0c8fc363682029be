// A size as an operator reads it.
use std::fmt;
use types::extent::Extent3d;

#[derive(Clone, Copy)]
pub struct ExtentText(pub Extent3d);

impl fmt::Display for ExtentText {
    fn fmt<W: fmt::Write>(&self, f: &mut fmt::Formatter<W>) -> fmt::Result {
        let size = self.0;
        write!(
            f,
            "{}x{}x{}",
            size.width, size.height, size.depth_or_array_layers
        )
    }
}
