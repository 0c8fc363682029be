// What the container is told of a refused view: a number, and the values that the error carries.
ghost use Rattle.view_checks.specs.Refusals.{number_of as view_number, values_of as view_values};

use crate::error::CreateTextureViewError as Ctve;
use checks::refusal::{Refusal, Values};
use types::bits::BitSet;

impl Refusal for Ctve {
    ghost number_of = { view_number };

    ghost values_of = { view_values };

    fn number(&self) -> u32 {
        match self {
            Ctve::MissingFeatures(_) => 12,
            Ctve::InvalidTransientTextureViewUsage { .. } => 33,
            Ctve::InvalidTextureViewUsage { .. } => 34,
            Ctve::TextureViewFormatNotRenderable(_) => 35,
            Ctve::TextureViewFormatNotStorage(_) => 36,
            Ctve::InvalidAspect { .. } => 37,
            Ctve::FormatReinterpretation { .. } => 38,
            Ctve::InvalidMultisampledTextureViewDimension(_) => 39,
            Ctve::InvalidTextureViewDimension { .. } => 40,
            Ctve::InvalidArrayLayerCount { .. } => 41,
            Ctve::InvalidCubemapTextureDepth { .. } => 42,
            Ctve::InvalidCubemapArrayTextureDepth { .. } => 43,
            Ctve::InvalidCubeTextureViewSize => 44,
            Ctve::ZeroMipLevelCount => 45,
            Ctve::TooManyMipLevels { .. } => 46,
            Ctve::ZeroArrayLayerCount => 47,
            Ctve::TooManyArrayLayers { .. } => 48,
        }
    }

    // In the order of the error's fields; an aspect and a dimension by their codes.
    fn values(&self) -> Values {
        match *self {
            Ctve::MissingFeatures(missing) => Values::One(missing.0.bits()),
            Ctve::InvalidTransientTextureViewUsage { texture, view } => {
                Values::Two(texture.bits(), view.bits())
            }
            Ctve::InvalidTextureViewUsage { view, texture } => {
                Values::Two(view.bits(), texture.bits())
            }
            Ctve::TextureViewFormatNotRenderable(format) => Values::One(format.into()),
            Ctve::TextureViewFormatNotStorage(format) => Values::One(format.into()),
            Ctve::InvalidAspect {
                texture_format: format,
                requested_aspect: aspect,
            } => Values::Two(format.into(), aspect.into()),
            Ctve::FormatReinterpretation {
                texture: format,
                view: other,
            } => Values::Two(format.into(), other.into()),
            Ctve::InvalidMultisampledTextureViewDimension(dim) => Values::One(dim.into()),
            Ctve::InvalidTextureViewDimension {
                view: dim,
                texture: dimension,
            } => Values::Two(dim.into(), dimension.into()),
            Ctve::InvalidArrayLayerCount { requested, dim } => Values::Two(requested, dim.into()),
            Ctve::InvalidCubemapTextureDepth { depth } => Values::One(depth),
            Ctve::InvalidCubemapArrayTextureDepth { depth } => Values::One(depth),
            Ctve::InvalidCubeTextureViewSize => Values::Nothing,
            Ctve::ZeroMipLevelCount => Values::Nothing,
            Ctve::TooManyMipLevels {
                base_mip_level: first,
                mip_level_count: count,
                total,
            } => Values::Three(first, count, total),
            Ctve::ZeroArrayLayerCount => Values::Nothing,
            Ctve::TooManyArrayLayers {
                base_array_layer: first,
                array_layer_count: count,
                total,
            } => Values::Three(first, count, total),
        }
    }
}
