// Why a view request is refused: wgpu's error enum, each case with what it carries there.
ghost use Rattle.std.specs.Prelude.{◌≡◌};
ghost use Rattle.view_checks.specs.declared.error.CreateTextureViewError.TheVariants.{MissingFeatures as Lacking};

use types::aspect::TextureAspect;
use types::dimension::{TextureDimension, TextureViewDimension};
use types::features::MissingFeatures;
use types::format::TextureFormat;
use types::usages::TextureUsages;

#[derive(Clone, Copy, Debug, PartialEq, Eq)]
pub enum CreateTextureViewError {
    InvalidTransientTextureViewUsage {
        texture: TextureUsages,
        view: TextureUsages,
    },
    InvalidTextureViewUsage {
        view: TextureUsages,
        texture: TextureUsages,
    },
    MissingFeatures(MissingFeatures),
    TextureViewFormatNotRenderable(TextureFormat),
    TextureViewFormatNotStorage(TextureFormat),
    InvalidAspect {
        texture_format: TextureFormat,
        requested_aspect: TextureAspect,
    },
    FormatReinterpretation {
        texture: TextureFormat,
        view: TextureFormat,
    },
    InvalidMultisampledTextureViewDimension(TextureViewDimension),
    InvalidTextureViewDimension {
        view: TextureViewDimension,
        texture: TextureDimension,
    },
    InvalidArrayLayerCount {
        requested: u32,
        dim: TextureViewDimension,
    },
    InvalidCubemapTextureDepth {
        depth: u32,
    },
    InvalidCubemapArrayTextureDepth {
        depth: u32,
    },
    InvalidCubeTextureViewSize,
    ZeroMipLevelCount,
    TooManyMipLevels {
        base_mip_level: u32,
        mip_level_count: u32,
        total: u32,
    },
    ZeroArrayLayerCount,
    TooManyArrayLayers {
        base_array_layer: u32,
        array_layer_count: u32,
        total: u32,
    },
}

impl From<MissingFeatures> for CreateTextureViewError {
    ghost from_gives = { λ e r. r ≡ Lacking e };

    fn from(missing: MissingFeatures) -> CreateTextureViewError {
        CreateTextureViewError::MissingFeatures(missing)
    }
}
