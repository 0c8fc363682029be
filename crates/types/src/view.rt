// What is kept of a view once its request was accepted.
use crate::aspect::{FormatAspects, TextureAspect};
use crate::dimension::TextureViewDimension;
use crate::extent::Extent3d;
use crate::format::TextureFormat;
use crate::range::Range;
use crate::usages::TextureUsages;
use crate::uses::TextureUses;

#[derive(Clone, Copy, Debug, PartialEq, Eq)]
pub struct TextureView {
    pub format: TextureFormat,
    pub dimension: TextureViewDimension,
    pub usage: TextureUsages,
    pub mips: Range,
    pub layers: Range,
    pub aspect: TextureAspect,
    // the aspects that it selects
    pub aspects: FormatAspects,
    pub samples: u32,
    // the format and the usages that the host is told
    pub hal_format: TextureFormat,
    pub hal_usage: TextureUses,
    // how large it is when it is rendered to, or why it cannot be
    pub render_extent: Result<Extent3d, TextureViewNotRenderableReason>,
}

#[derive(Clone, Copy, Debug, PartialEq, Eq)]
pub enum TextureViewNotRenderableReason {
    Usage(TextureUsages),
    Dimension(TextureViewDimension),
    MipLevelCount(u32),
    ArrayLayerCount(u32),
    Aspects(FormatAspects),
}
