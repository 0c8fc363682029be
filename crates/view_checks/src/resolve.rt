// The omitted fields of a view request, filled in from the texture.
ghost use Rattle.std.specs.Prelude.{◌≡◌};
ghost use Rattle.view_checks.specs.Resolved.{filled_dimension, filled_format, filled_layers, filled_levels, filled_usage, own_dimension, own_layers, resolved};
ghost use Rattle.types.specs.Textures.{layers_of};

use types::aspect::TextureAspect;
use types::bits::BitSet;
use types::dimension::{TextureDimension, TextureViewDimension};
use types::format::TextureFormat;
use types::texture::Texture;
use types::usages::TextureUsages;
use types::view_descriptor::TextureViewDescriptor;

// A view request with nothing omitted.
#[derive(Clone, Copy, Debug, PartialEq, Eq)]
pub struct ResolvedView {
    pub format: TextureFormat,
    pub dimension: TextureViewDimension,
    pub usage: TextureUsages,
    pub aspect: TextureAspect,
    pub base_mip_level: u32,
    pub mip_level_count: u32,
    pub base_array_layer: u32,
    pub array_layer_count: u32,
}

pub fn resolve_view_descriptor(texture: &Texture, desc: &TextureViewDescriptor) -> ResolvedView
    ensures { result ≡ resolved texture.now desc.now }
{
    let range = desc.range;
    let dimension = resolve_dimension(texture, desc.dimension);
    ResolvedView {
        format: resolve_format(texture.format, range.aspect, desc.format),
        dimension,
        usage: resolve_usage(texture.usage, desc.usage),
        aspect: range.aspect,
        base_mip_level: range.base_mip_level,
        mip_level_count: resolve_levels(texture, range.base_mip_level, range.mip_level_count),
        base_array_layer: range.base_array_layer,
        array_layer_count: resolve_layers(
            texture,
            dimension,
            range.base_array_layer,
            range.array_layer_count,
        ),
    }
}

// The part of the texture's format at the aspect, where there is one.
fn resolve_format(
    texture: TextureFormat,
    aspect: TextureAspect,
    format: Option<TextureFormat>,
) -> TextureFormat
    ensures { result ≡ filled_format texture aspect format }
{
    format
        .or(texture.aspect_specific_format(aspect))
        .unwrap_or(texture)
}

// The texture's own dimension; several layers are viewed as an array.
fn resolve_dimension(
    texture: &Texture,
    dimension: Option<TextureViewDimension>,
) -> TextureViewDimension
    ensures { result ≡ filled_dimension texture.now dimension }
{
    dimension.unwrap_or(own_dimension(texture))
}

fn own_dimension(texture: &Texture) -> TextureViewDimension
    ensures { result ≡ own_dimension texture.now.dimension (layers_of texture.now) }
{
    match texture.dimension {
        TextureDimension::D1 => TextureViewDimension::D1,
        TextureDimension::D2 if texture.array_layer_count() == 1 => TextureViewDimension::D2,
        TextureDimension::D2 => TextureViewDimension::D2Array,
        TextureDimension::D3 => TextureViewDimension::D3,
    }
}

// No usage, omitted or empty, means the texture's.
fn resolve_usage(texture: TextureUsages, usage: Option<TextureUsages>) -> TextureUsages
    ensures { result ≡ filled_usage texture usage }
{
    usage.filter(|usage| !usage.is_empty()).unwrap_or(texture)
}

// Every level from the first one on.
fn resolve_levels(texture: &Texture, first: u32, count: Option<u32>) -> u32
    ensures { result ≡ filled_levels texture.now first count }
{
    count.unwrap_or(texture.mip_level_count.saturating_sub(first))
}

// As many as the dimension always has, else every layer from the first one on.
fn resolve_layers(
    texture: &Texture,
    dimension: TextureViewDimension,
    first: u32,
    count: Option<u32>,
) -> u32
    ensures { result ≡ filled_layers texture.now dimension first count }
{
    count.unwrap_or(own_layers(texture, dimension, first))
}

fn own_layers(texture: &Texture, dimension: TextureViewDimension, first: u32) -> u32
    ensures { result ≡ own_layers (layers_of texture.now) first dimension }
{
    match dimension {
        TextureViewDimension::D1 | TextureViewDimension::D2 | TextureViewDimension::D3 => 1,
        TextureViewDimension::Cube => 6,
        TextureViewDimension::D2Array | TextureViewDimension::CubeArray => {
            texture.array_layer_count().saturating_sub(first)
        }
    }
}
