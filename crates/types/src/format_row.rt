use crate::aspect::FormatAspects;
use crate::features::Features;
use crate::format::TextureFormat;
use crate::format_features::TextureFormatFeatures;

// One row of the table of formats.
#[derive(Clone, Copy, Debug, PartialEq, Eq)]
pub struct FormatRow {
    pub aspects: FormatAspects,
    pub block_width: u32,
    pub block_height: u32,
    // the format that differs from this one in the -srgb suffix alone
    pub twin: Option<TextureFormat>,
    pub required_features: Features,
    pub guaranteed: TextureFormatFeatures,
}
