// What a container asks for when it asks for a view of a texture.
use crate::aspect::TextureAspect;
use crate::dimension::TextureViewDimension;
use crate::format::TextureFormat;
use crate::usages::TextureUsages;

#[derive(Clone, Copy, Debug, PartialEq, Eq)]
pub struct TextureViewDescriptor {
    pub format: Option<TextureFormat>,
    pub dimension: Option<TextureViewDimension>,
    pub usage: Option<TextureUsages>,
    pub range: ImageSubresourceRange,
}

// The part of the texture that is viewed. An omitted count is worked out from the texture.
#[derive(Clone, Copy, Debug, PartialEq, Eq)]
pub struct ImageSubresourceRange {
    pub aspect: TextureAspect,
    pub base_mip_level: u32,
    pub mip_level_count: Option<u32>,
    pub base_array_layer: u32,
    pub array_layer_count: Option<u32>,
}

impl TextureViewDescriptor {
    // Nothing but omitted fields: the view is like its texture.
    pub const DEFAULT: Self = TextureViewDescriptor {
        format: None,
        dimension: None,
        usage: None,
        range: ImageSubresourceRange::DEFAULT,
    };
}

impl ImageSubresourceRange {
    // Everything from the first level and layer on.
    pub const DEFAULT: Self = ImageSubresourceRange {
        aspect: TextureAspect::All,
        base_mip_level: 0,
        mip_level_count: None,
        base_array_layer: 0,
        array_layer_count: None,
    };
}
