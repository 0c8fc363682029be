// The barcode camera: scan lines, a brightness volume, and storage for its shaders. It asks for what it scans with first, then
// for a palette, and then for what it masks with.
use crate::request::{PLAIN, Request, ViewRequest};
use types::aspect::TextureAspect;
use types::descriptor::TextureDescriptor;
use types::dimension::{TextureDimension, TextureViewDimension};
use types::extent::Extent3d;
use types::format::TextureFormat;
use types::usages::TextureUsages;
use types::view_descriptor::{ImageSubresourceRange, TextureViewDescriptor};

/// The container's name.
pub const NAME: &str = "barcode camera";

const LINE_USAGE: TextureUsages = TextureUsages(
    TextureUsages::COPY_DST.0 | TextureUsages::TEXTURE_BINDING.0,
);

const SCRATCH_USAGE: TextureUsages = TextureUsages(
    TextureUsages::STORAGE_BINDING.0 | TextureUsages::COPY_SRC.0,
);

const ATOMIC_USAGE: TextureUsages = TextureUsages(
    SCRATCH_USAGE.0 | TextureUsages::STORAGE_ATOMIC.0,
);

const LINE: TextureDescriptor<'static> = TextureDescriptor {
    dimension: TextureDimension::D1,
    size: Extent3d {
        width: 8192,
        height: 1,
        depth_or_array_layers: 1,
    },
    format: TextureFormat::R32Float,
    usage: LINE_USAGE,
    ..PLAIN
};

const VOLUME: TextureDescriptor<'static> = TextureDescriptor {
    dimension: TextureDimension::D3,
    size: Extent3d {
        width: 128,
        height: 128,
        depth_or_array_layers: 64,
    },
    format: TextureFormat::Rgba16Float,
    usage: LINE_USAGE,
    ..PLAIN
};

const SCRATCH: TextureDescriptor<'static> = TextureDescriptor {
    size: Extent3d {
        width: 256,
        height: 256,
        depth_or_array_layers: 1,
    },
    format: TextureFormat::R32Uint,
    usage: SCRATCH_USAGE,
    ..PLAIN
};

const MASK: TextureDescriptor<'static> = TextureDescriptor {
    size: Extent3d {
        width: 1024,
        height: 768,
        depth_or_array_layers: 1,
    },
    format: TextureFormat::Depth24PlusStencil8,
    usage: TextureUsages::RENDER_ATTACHMENT,
    ..PLAIN
};

const LINE_VIEWS: [ViewRequest; 2] = [
    ViewRequest {
        what: "all of it",
        desc: TextureViewDescriptor::DEFAULT,
    },
    ViewRequest {
        what: "as an image",
        desc: TextureViewDescriptor {
            dimension: Some(TextureViewDimension::D2),
            ..TextureViewDescriptor::DEFAULT
        },
    },
];

const VOLUME_VIEWS: [ViewRequest; 2] = [
    ViewRequest {
        what: "all of it",
        desc: TextureViewDescriptor::DEFAULT,
    },
    ViewRequest {
        what: "level 7",
        desc: TextureViewDescriptor {
            range: ImageSubresourceRange {
                base_mip_level: 7,
                ..ImageSubresourceRange::DEFAULT
            },
            ..TextureViewDescriptor::DEFAULT
        },
    },
];

const SCRATCH_VIEWS: [ViewRequest; 1] = [ViewRequest {
    what: "as storage",
    desc: TextureViewDescriptor {
        usage: Some(TextureUsages::STORAGE_BINDING),
        ..TextureViewDescriptor::DEFAULT
    },
}];

const PALETTE_VIEWS: [ViewRequest; 2] = [
    ViewRequest {
        what: "written",
        desc: TextureViewDescriptor {
            usage: Some(TextureUsages::STORAGE_BINDING),
            ..TextureViewDescriptor::DEFAULT
        },
    },
    ViewRequest {
        what: "written in sRGB",
        desc: TextureViewDescriptor {
            format: Some(TextureFormat::Rgba8UnormSrgb),
            usage: Some(TextureUsages::STORAGE_BINDING),
            ..TextureViewDescriptor::DEFAULT
        },
    },
];

const MASK_VIEWS: [ViewRequest; 4] = [
    ViewRequest {
        what: "all of it",
        desc: TextureViewDescriptor::DEFAULT,
    },
    ViewRequest {
        what: "its depth",
        desc: TextureViewDescriptor {
            range: ImageSubresourceRange {
                aspect: TextureAspect::DepthOnly,
                ..ImageSubresourceRange::DEFAULT
            },
            ..TextureViewDescriptor::DEFAULT
        },
    },
    ViewRequest {
        what: "its stencil",
        desc: TextureViewDescriptor {
            range: ImageSubresourceRange {
                aspect: TextureAspect::StencilOnly,
                ..ImageSubresourceRange::DEFAULT
            },
            ..TextureViewDescriptor::DEFAULT
        },
    },
    ViewRequest {
        what: "its stencil, in the whole format",
        desc: TextureViewDescriptor {
            format: Some(TextureFormat::Depth24PlusStencil8),
            range: ImageSubresourceRange {
                aspect: TextureAspect::StencilOnly,
                ..ImageSubresourceRange::DEFAULT
            },
            ..TextureViewDescriptor::DEFAULT
        },
    },
];

/// Lines and volumes, and a scratch image for the shaders that scan.
pub static SCANNING: [Request; 8] = [
    Request {
        what: "scan line",
        desc: LINE,
        views: &LINE_VIEWS,
    },
    Request {
        what: "scan line with levels",
        desc: TextureDescriptor {
            mip_level_count: 2,
            ..LINE
        },
        views: &[],
    },
    Request {
        what: "pair of scan lines",
        desc: TextureDescriptor {
            size: Extent3d {
                width: 8192,
                height: 2,
                depth_or_array_layers: 1,
            },
            ..LINE
        },
        views: &[],
    },
    Request {
        what: "drawn scan line",
        desc: TextureDescriptor {
            usage: TextureUsages::RENDER_ATTACHMENT,
            ..LINE
        },
        views: &[],
    },
    Request {
        what: "compressed scan line",
        desc: TextureDescriptor {
            format: TextureFormat::Bc1RgbaUnorm,
            ..LINE
        },
        views: &[],
    },
    Request {
        what: "brightness volume",
        desc: TextureDescriptor {
            mip_level_count: 8,
            ..VOLUME
        },
        views: &VOLUME_VIEWS,
    },
    Request {
        what: "brightness volume, smooth",
        desc: TextureDescriptor {
            sample_count: 4,
            ..VOLUME
        },
        views: &[],
    },
    Request {
        what: "scratch",
        desc: SCRATCH,
        views: &SCRATCH_VIEWS,
    },
];

/// The palette that shaders write, and that is then shown in sRGB.
pub static PALETTE: Request = Request {
    what: "palette",
    desc: TextureDescriptor {
        format: TextureFormat::Rgba8Unorm,
        view_formats: &[TextureFormat::Rgba8UnormSrgb],
        ..SCRATCH
    },
    views: &PALETTE_VIEWS,
};

/// More scratch images, and masks.
pub static MASKING: [Request; 4] = [
    Request {
        what: "scratch in sRGB",
        desc: TextureDescriptor {
            format: TextureFormat::Rgba8UnormSrgb,
            ..SCRATCH
        },
        views: &[],
    },
    Request {
        what: "atomic scratch",
        desc: TextureDescriptor {
            usage: ATOMIC_USAGE,
            ..SCRATCH
        },
        views: &[],
    },
    Request {
        what: "mask",
        desc: MASK,
        views: &MASK_VIEWS,
    },
    Request {
        what: "fine mask",
        desc: TextureDescriptor {
            format: TextureFormat::Depth32FloatStencil8,
            ..MASK
        },
        views: &[],
    },
];
