// What a container asks for when it asks for a texture.
use crate::dimension::TextureDimension;
use crate::extent::Extent3d;
use crate::format::TextureFormat;
use crate::usages::TextureUsages;

#[derive(Clone, Copy, Debug, PartialEq, Eq)]
pub struct TextureDescriptor<'a> {
    pub size: Extent3d,
    pub mip_level_count: u32,
    pub sample_count: u32,
    pub dimension: TextureDimension,
    pub format: TextureFormat,
    pub usage: TextureUsages,
    // the other formats that views of the texture may have
    pub view_formats: &'a [TextureFormat],
}
