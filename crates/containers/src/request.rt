// A container's requests, and the plain ones that the others differ from.
use types::descriptor::TextureDescriptor;
use types::dimension::TextureDimension;
use types::extent::Extent3d;
use types::format::TextureFormat;
use types::usages::TextureUsages;
use types::view_descriptor::TextureViewDescriptor;

/// A texture, and views of it once it is there.
#[derive(Clone, Copy)]
pub struct Request {
    pub what: &'static str,
    pub desc: TextureDescriptor<'static>,
    pub views: &'static [ViewRequest],
}

/// A view of a texture that is there.
#[derive(Clone, Copy)]
pub struct ViewRequest {
    pub what: &'static str,
    pub desc: TextureViewDescriptor,
}

/// A small sampled image: other requests say what is different about them.
pub const PLAIN: TextureDescriptor<'static> = TextureDescriptor {
    size: Extent3d {
        width: 64,
        height: 64,
        depth_or_array_layers: 1,
    },
    mip_level_count: 1,
    sample_count: 1,
    dimension: TextureDimension::D2,
    format: TextureFormat::Rgba8Unorm,
    usage: TextureUsages::TEXTURE_BINDING,
    view_formats: &[],
};
