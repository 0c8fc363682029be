// The request that the tests start from.
use types::descriptor::TextureDescriptor;
use types::dimension::TextureDimension;
use types::extent::Extent3d;
use types::format::TextureFormat;
use types::usages::TextureUsages;

pub(crate) const SAMPLED: TextureDescriptor<'static> = TextureDescriptor {
    size: Extent3d {
        width: 1,
        height: 1,
        depth_or_array_layers: 1,
    },
    mip_level_count: 1,
    sample_count: 1,
    dimension: TextureDimension::D2,
    format: TextureFormat::Rgba8Unorm,
    usage: TextureUsages::TEXTURE_BINDING,
    view_formats: &[],
};
