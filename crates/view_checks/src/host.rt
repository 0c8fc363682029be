// What the host is told of a view.
ghost use Rattle.std.specs.Prelude.{◌≡◌};
ghost use Rattle.view_checks.specs.Views.{dimension_uses, host_format, level_uses, view_uses};

use crate::resolve::ResolvedView;
use types::aspect::TextureAspect;
use types::bits::BitSet;
use types::conv::map_texture_usage;
use types::dimension::TextureViewDimension;
use types::format::TextureFormat;
use types::format_features::TextureFormatFeatureFlags;
use types::uses::TextureUses;

// A view of the depth or of the stencil of a format is told by the whole format.
pub(crate) fn hal_format(texture: TextureFormat, view: TextureFormat) -> TextureFormat
    ensures { result ≡ host_format texture view }
{
    let is_depth = texture.aspect_specific_format(TextureAspect::DepthOnly) == Some(view);
    let is_stencil = texture.aspect_specific_format(TextureAspect::StencilOnly) == Some(view);
    if is_depth || is_stencil {
        texture
    } else {
        view
    }
}

const NO_COPIES: TextureUses = TextureUses(
    TextureUses::ALL.0 ^ (TextureUses::COPY_SRC.0 | TextureUses::COPY_DST.0),
);

const BOUND_OR_STORED: TextureUses = TextureUses(
    TextureUses::RESOURCE.0
        | TextureUses::STORAGE_READ_ONLY.0
        | TextureUses::STORAGE_WRITE_ONLY.0
        | TextureUses::STORAGE_READ_WRITE.0,
);

// What was asked for, without what a view of this dimension and of so many levels cannot be used for. Copies go by the texture.
pub(crate) fn hal_usage(view: &ResolvedView, flags: TextureFormatFeatureFlags) -> TextureUses
    ensures { result.0 ≡ view_uses view.now flags.0 }
{
    map_texture_usage(view.usage, view.format.aspects(), flags)
        .intersection(NO_COPIES)
        .intersection(uses_of_dimension(view.dimension))
        .intersection(uses_of_levels(view.mip_level_count))
}

fn uses_of_dimension(dimension: TextureViewDimension) -> TextureUses
    ensures { result.0 ≡ dimension_uses dimension }
{
    match dimension {
        TextureViewDimension::Cube | TextureViewDimension::CubeArray => TextureUses::RESOURCE,
        TextureViewDimension::D3 => BOUND_OR_STORED,
        _ => TextureUses::ALL,
    }
}

fn uses_of_levels(levels: u32) -> TextureUses
    ensures { result.0 ≡ level_uses levels }
{
    if levels == 1 {
        TextureUses::ALL
    } else {
        TextureUses::RESOURCE
    }
}
