// Textures and views that the tests start from.
use types::descriptor::TextureDescriptor;
use types::dimension::TextureDimension;
use types::extent::Extent3d;
use types::format::TextureFormat;
use types::usages::TextureUsages;
use types::view_descriptor::{ImageSubresourceRange, TextureViewDescriptor};

// Six square images with all their levels, which are bound and rendered to.
pub(crate) const FACES: TextureDescriptor<'static> = TextureDescriptor {
    size: Extent3d {
        width: 64,
        height: 64,
        depth_or_array_layers: 6,
    },
    mip_level_count: 7,
    sample_count: 1,
    dimension: TextureDimension::D2,
    format: TextureFormat::Rgba8Unorm,
    usage: TextureUsages(20),
    view_formats: &[],
};

// One image.
pub(crate) const IMAGE: TextureDescriptor<'static> = TextureDescriptor {
    size: Extent3d {
        width: 64,
        height: 32,
        depth_or_array_layers: 1,
    },
    mip_level_count: 1,
    ..FACES
};

// A view with everything omitted, which is of the whole texture.
pub(crate) const WHOLE: TextureViewDescriptor = TextureViewDescriptor::DEFAULT;

pub(crate) const WHOLE_RANGE: ImageSubresourceRange = ImageSubresourceRange::DEFAULT;
