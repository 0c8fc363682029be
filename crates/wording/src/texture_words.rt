// The words of refused texture requests.
use crate::worded::{Worded, Words};
use checks::error::{CreateTextureError, TextureDimensionError};

impl Worded for TextureDimensionError {
    fn words(&self) -> Words {
        match self {
            Self::Zero(_) => Words::new("side zero", &["side"]),
            Self::LimitExceeded { .. } => Words::new(
                "side over the limit",
                &["side", "given", "limit"],
            ),
            Self::InvalidSampleCount(_) => Words::new("sample count", &["samples"]),
            Self::NotMultipleOfBlockWidth { .. } => Words::new(
                "width in blocks",
                &["width", "block", "format"],
            ),
            Self::NotMultipleOfBlockHeight { .. } => Words::new(
                "height in blocks",
                &["height", "block", "format"],
            ),
            Self::WidthNotMultipleOf { .. } => Words::new(
                "width multiple",
                &["width", "multiple", "format"],
            ),
            Self::HeightNotMultipleOf { .. } => Words::new(
                "height multiple",
                &["height", "multiple", "format"],
            ),
            Self::MultisampledDepthOrArrayLayer(_) => Words::new(
                "multisampled layers",
                &["layers"],
            ),
        }
    }
}

impl Worded for CreateTextureError {
    fn words(&self) -> Words {
        match self {
            Self::InvalidUsage(_) => Words::new("usage empty or unknown", &["usage"]),
            Self::InvalidDimension(error) => error.words(),
            Self::InvalidDepthDimension(_, _) => Words::new(
                "depth or stencil outside 2D",
                &["dimension", "format"],
            ),
            Self::InvalidDimensionUsages(_, _) => Words::new(
                "usage against the dimension",
                &["usage", "dimension"],
            ),
            Self::InvalidCompressedDimension(_, _) => Words::new(
                "compression against the dimension",
                &["dimension", "format"],
            ),
            Self::MissingFeatures(_, _) => Words::new("feature missing", &["format", "feature"]),
            Self::InvalidMipLevelCount { .. } => Words::new(
                "level count",
                &["requested", "maximum"],
            ),
            Self::InvalidTransientTextureUsage(_) => Words::new(
                "usage of a transient attachment",
                &["usage"],
            ),
            Self::InvalidTransientTextureMipLevelCount(_) => Words::new(
                "levels of a transient attachment",
                &["levels"],
            ),
            Self::InvalidTransientTextureLayerCount(_) => Words::new(
                "layers of a transient attachment",
                &["layers"],
            ),
            Self::InvalidTransientTextureViewFormats => Words::new(
                "view formats of a transient attachment",
                &[],
            ),
            Self::InvalidMultisampledStorageBinding => Words::new("multisampled storage", &[]),
            Self::MultisampledNotRenderAttachment => Words::new(
                "multisampled, yet no attachment",
                &[],
            ),
            Self::InvalidMultisampledFormat(_) => Words::new(
                "format that is never multisampled",
                &["format"],
            ),
            Self::InvalidSampleCount(_, _, _) => Words::new(
                "sample count of the format",
                &["samples", "format", "sum of its counts"],
            ),
            Self::InvalidFormatUsages(_, _, _) => Words::new(
                "usage of the format",
                &["not allowed", "format", "allowed by WebGPU"],
            ),
            Self::InvalidViewFormat(_, _) => Words::new("view format", &["viewed as", "format"]),
            Self::MissingDownlevelFlags(_) => Words::new("downlevel flag missing", &["flag"]),
        }
    }
}
