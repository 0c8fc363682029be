// An accepted view as an operator reads it.
use crate::extent_text::ExtentText;
use std::fmt;
use types::range::Range;
use types::view::{TextureView, TextureViewNotRenderableReason as Reason};

/// The view, what the host is told of it, and the size at which it is rendered to.
#[derive(Clone, Copy)]
pub struct ViewText<'a> {
    pub view: &'a TextureView,
}

impl fmt::Display for ViewText<'_> {
    fn fmt<W: fmt::Write>(&self, f: &mut fmt::Formatter<W>) -> fmt::Result {
        let view = self.view;
        write!(f, "{} {}", view.dimension, view.format)?;
        write!(f, ", aspect {} (set {})", view.aspect, view.aspects.0)?;
        write!(f, ", levels {}", RangeText(view.mips))?;
        write!(f, ", layers {}", RangeText(view.layers))?;
        writeln!(f, ", samples {}, usage {}", view.samples, view.usage.0)?;
        write!(
            f,
            "      host: {}, usage {}; ",
            view.hal_format, view.hal_usage.0
        )?;
        match view.render_extent {
            Ok(extent) => write!(f, "rendered at {}", ExtentText(extent)),
            Err(reason) => write!(f, "not rendered: {}", ReasonText(reason)),
        }
    }
}

#[derive(Clone, Copy)]
struct RangeText(Range);

impl fmt::Display for RangeText {
    fn fmt<W: fmt::Write>(&self, f: &mut fmt::Formatter<W>) -> fmt::Result {
        let range = self.0;
        write!(
            f,
            "{} to before {} of {}",
            range.first, range.end, range.total
        )
    }
}

#[derive(Clone, Copy)]
struct ReasonText(Reason);

impl fmt::Display for ReasonText {
    fn fmt<W: fmt::Write>(&self, f: &mut fmt::Formatter<W>) -> fmt::Result {
        match self.0 {
            Reason::Usage(usage) => write!(f, "usage {}", usage.0),
            Reason::Dimension(dimension) => write!(f, "{dimension}"),
            Reason::MipLevelCount(count) => write!(f, "levels {count}"),
            Reason::ArrayLayerCount(count) => write!(f, "layers {count}"),
            Reason::Aspects(aspects) => write!(f, "aspect set {}", aspects.0),
        }
    }
}
