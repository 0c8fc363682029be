// The levels and the layers of a view.
ghost use Rattle.std.specs.Prelude.{◌≡◌, IfOk};
ghost use Rattle.checks.specs.Check.{as_outcome, outcome};
ghost use Rattle.types.specs.Ranges.{Spans};
ghost use Rattle.types.specs.Textures.{layers_of};
ghost use Rattle.view_checks.specs.Checks.{layer_checks, level_checks, range_checks};

use crate::error::CreateTextureViewError;
use crate::resolve::ResolvedView;
use types::range::Range;
use types::texture::Texture;

pub(crate) fn check_levels(
    texture: &Texture,
    view: &ResolvedView,
) -> Result<Range, CreateTextureViewError>
    ensures value { as_outcome result ≡ outcome (level_checks texture.now view.now) }
    ensures range { IfOk result (λ range. Spans view.now.base_mip_level view.now.mip_level_count texture.now.mip_level_count range) }
{
    let base_mip_level = view.base_mip_level;
    let mip_level_count = view.mip_level_count;
    let total = texture.mip_level_count;
    let too_many = CreateTextureViewError::TooManyMipLevels {
        base_mip_level,
        mip_level_count,
        total,
    };
    check_range(
        base_mip_level,
        mip_level_count,
        total,
        CreateTextureViewError::ZeroMipLevelCount,
        too_many,
    )
}

pub(crate) fn check_layers(
    texture: &Texture,
    view: &ResolvedView,
) -> Result<Range, CreateTextureViewError>
    ensures value { as_outcome result ≡ outcome (layer_checks texture.now view.now) }
    ensures range { IfOk result (λ range. Spans view.now.base_array_layer view.now.array_layer_count (layers_of texture.now) range) }
{
    let base_array_layer = view.base_array_layer;
    let array_layer_count = view.array_layer_count;
    let total = texture.array_layer_count();
    let too_many = CreateTextureViewError::TooManyArrayLayers {
        base_array_layer,
        array_layer_count,
        total,
    };
    check_range(
        base_array_layer,
        array_layer_count,
        total,
        CreateTextureViewError::ZeroArrayLayerCount,
        too_many,
    )
}

// So many from the first on, of the total, or the error for none or for too many.
fn check_range(
    first: u32,
    count: u32,
    total: u32,
    none: CreateTextureViewError,
    too_many: CreateTextureViewError,
) -> Result<Range, CreateTextureViewError>
    ensures value { as_outcome result ≡ outcome (range_checks first count total none too_many) }
    ensures range { IfOk result (λ range. Spans first count total range) }
{
    if count == 0 {
        return Err(none);
    }
    Range::new(first, count, total).ok_or(too_many)
}
