// The words of refused view requests.
use crate::worded::{Worded, Words};
use view_checks::error::CreateTextureViewError;

impl Worded for CreateTextureViewError {
    fn words(&self) -> Words {
        match self {
            Self::MissingFeatures(_) => Words::new("feature missing", &["feature"]),
            Self::InvalidTransientTextureViewUsage { .. } => Words::new(
                "usage of a view of a transient attachment",
                &["texture's", "asked"],
            ),
            Self::InvalidTextureViewUsage { .. } => Words::new(
                "usage beyond the texture's",
                &["asked", "texture's"],
            ),
            Self::TextureViewFormatNotRenderable(_) => Words::new(
                "format that cannot be rendered to",
                &["format"],
            ),
            Self::TextureViewFormatNotStorage(_) => Words::new(
                "format that cannot be storage",
                &["format"],
            ),
            Self::InvalidAspect { .. } => Words::new(
                "aspect that the format lacks",
                &["format", "aspect"],
            ),
            Self::FormatReinterpretation { .. } => Words::new(
                "reinterpretation of the format",
                &["texture's", "asked"],
            ),
            Self::InvalidMultisampledTextureViewDimension(_) => Words::new(
                "multisampled, yet no single image",
                &["dimension"],
            ),
            Self::InvalidTextureViewDimension { .. } => Words::new(
                "dimension against the texture's",
                &["asked", "texture's"],
            ),
            Self::InvalidArrayLayerCount { .. } => Words::new(
                "layer count of the dimension",
                &["layers", "dimension"],
            ),
            Self::InvalidCubemapTextureDepth { .. } => Words::new("layers of a cube", &["layers"]),
            Self::InvalidCubemapArrayTextureDepth { .. } => Words::new(
                "layers of cubes",
                &["layers"],
            ),
            Self::InvalidCubeTextureViewSize => Words::new("faces that are not square", &[]),
            Self::ZeroMipLevelCount => Words::new("no levels", &[]),
            Self::TooManyMipLevels { .. } => Words::new(
                "too many levels",
                &["first", "count", "total"],
            ),
            Self::ZeroArrayLayerCount => Words::new("no layers", &[]),
            Self::TooManyArrayLayers { .. } => Words::new(
                "too many layers",
                &["first", "count", "total"],
            ),
        }
    }
}
