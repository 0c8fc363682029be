// How formats, dimensions and aspects read in a report: WebGPU's names.
use crate::aspect::TextureAspect;
use crate::dimension::{TextureDimension, TextureViewDimension};
use crate::format::TextureFormat;
use std::fmt;

impl fmt::Display for TextureFormat {
    fn fmt<W: fmt::Write>(&self, f: &mut fmt::Formatter<W>) -> fmt::Result {
        f.write_str(match self {
            TextureFormat::R8Unorm => "r8unorm",
            TextureFormat::Rg8Unorm => "rg8unorm",
            TextureFormat::Rgba8Unorm => "rgba8unorm",
            TextureFormat::Rgba8UnormSrgb => "rgba8unorm-srgb",
            TextureFormat::Bgra8Unorm => "bgra8unorm",
            TextureFormat::Bgra8UnormSrgb => "bgra8unorm-srgb",
            TextureFormat::R32Uint => "r32uint",
            TextureFormat::R32Float => "r32float",
            TextureFormat::Rgba16Float => "rgba16float",
            TextureFormat::Rgba32Float => "rgba32float",
            TextureFormat::Depth16Unorm => "depth16unorm",
            TextureFormat::Depth24Plus => "depth24plus",
            TextureFormat::Depth32Float => "depth32float",
            TextureFormat::Stencil8 => "stencil8",
            TextureFormat::Depth24PlusStencil8 => "depth24plus-stencil8",
            TextureFormat::Depth32FloatStencil8 => "depth32float-stencil8",
            TextureFormat::Bc1RgbaUnorm => "bc1-rgba-unorm",
            TextureFormat::Bc1RgbaUnormSrgb => "bc1-rgba-unorm-srgb",
            TextureFormat::EacR11Unorm => "eac-r11unorm",
            TextureFormat::Astc8x5Unorm => "astc-8x5-unorm",
            TextureFormat::Astc8x5UnormSrgb => "astc-8x5-unorm-srgb",
            TextureFormat::NV12 => "nv12",
        })
    }
}

impl fmt::Display for TextureDimension {
    fn fmt<W: fmt::Write>(&self, f: &mut fmt::Formatter<W>) -> fmt::Result {
        f.write_str(match self {
            TextureDimension::D1 => "1D",
            TextureDimension::D2 => "2D",
            TextureDimension::D3 => "3D",
        })
    }
}

impl fmt::Display for TextureViewDimension {
    fn fmt<W: fmt::Write>(&self, f: &mut fmt::Formatter<W>) -> fmt::Result {
        f.write_str(match self {
            TextureViewDimension::D1 => "1D",
            TextureViewDimension::D2 => "2D",
            TextureViewDimension::D2Array => "2D array",
            TextureViewDimension::Cube => "cube",
            TextureViewDimension::CubeArray => "cube array",
            TextureViewDimension::D3 => "3D",
        })
    }
}

impl fmt::Display for TextureAspect {
    fn fmt<W: fmt::Write>(&self, f: &mut fmt::Formatter<W>) -> fmt::Result {
        f.write_str(match self {
            TextureAspect::All => "all",
            TextureAspect::DepthOnly => "depth",
            TextureAspect::StencilOnly => "stencil",
            TextureAspect::Plane0 => "plane 0",
            TextureAspect::Plane1 => "plane 1",
        })
    }
}
