// The overview camera: frames in luminance and colour, a history of frames, compressed stills.
use crate::request::{PLAIN, Request, ViewRequest};
use types::descriptor::TextureDescriptor;
use types::dimension::{TextureDimension, TextureViewDimension};
use types::extent::Extent3d;
use types::format::TextureFormat;
use types::usages::TextureUsages;
use types::view_descriptor::{ImageSubresourceRange, TextureViewDescriptor};

/// The container's name.
pub const NAME: &str = "overview camera";

const FRAME: TextureUsages = TextureUsages(
    TextureUsages::COPY_DST.0 | TextureUsages::TEXTURE_BINDING.0,
);

const LUMINANCE: TextureDescriptor<'static> = TextureDescriptor {
    size: Extent3d {
        width: 1920,
        height: 1080,
        depth_or_array_layers: 1,
    },
    format: TextureFormat::R8Unorm,
    usage: FRAME,
    ..PLAIN
};

const TWO_PLANES: TextureDescriptor<'static> = TextureDescriptor {
    size: Extent3d {
        width: 1920,
        height: 1080,
        depth_or_array_layers: 1,
    },
    format: TextureFormat::NV12,
    ..PLAIN
};

const HISTORY: TextureDescriptor<'static> = TextureDescriptor {
    size: Extent3d {
        width: 640,
        height: 480,
        depth_or_array_layers: 256,
    },
    usage: FRAME,
    ..PLAIN
};

const STILL: TextureDescriptor<'static> = TextureDescriptor {
    size: Extent3d {
        width: 640,
        height: 480,
        depth_or_array_layers: 1,
    },
    format: TextureFormat::Bc1RgbaUnorm,
    usage: FRAME,
    ..PLAIN
};

const STACK: TextureDescriptor<'static> = TextureDescriptor {
    dimension: TextureDimension::D3,
    size: Extent3d {
        width: 64,
        height: 60,
        depth_or_array_layers: 16,
    },
    format: TextureFormat::EacR11Unorm,
    usage: FRAME,
    ..PLAIN
};

const HISTORY_VIEWS: [ViewRequest; 2] = [
    ViewRequest {
        what: "the last six frames",
        desc: TextureViewDescriptor {
            range: ImageSubresourceRange {
                base_array_layer: 250,
                ..ImageSubresourceRange::DEFAULT
            },
            ..TextureViewDescriptor::DEFAULT
        },
    },
    ViewRequest {
        what: "as a cube",
        desc: TextureViewDescriptor {
            dimension: Some(TextureViewDimension::Cube),
            ..TextureViewDescriptor::DEFAULT
        },
    },
];

/// All that the overview camera asks for.
pub static REQUESTS: [Request; 13] = [
    Request {
        what: "luminance",
        desc: LUMINANCE,
        views: &[],
    },
    Request {
        what: "luminance, only sampled",
        desc: TextureDescriptor {
            usage: TextureUsages::TEXTURE_BINDING,
            ..LUMINANCE
        },
        views: &[],
    },
    Request {
        what: "frame in two planes",
        desc: TWO_PLANES,
        views: &[],
    },
    Request {
        what: "frame of odd width",
        desc: TextureDescriptor {
            size: Extent3d {
                width: 1921,
                height: 1080,
                depth_or_array_layers: 1,
            },
            ..TWO_PLANES
        },
        views: &[],
    },
    Request {
        what: "frame of odd height",
        desc: TextureDescriptor {
            size: Extent3d {
                width: 1920,
                height: 1081,
                depth_or_array_layers: 1,
            },
            ..TWO_PLANES
        },
        views: &[],
    },
    Request {
        what: "history",
        desc: HISTORY,
        views: &HISTORY_VIEWS,
    },
    Request {
        what: "history, a frame too many",
        desc: TextureDescriptor {
            size: Extent3d {
                width: 640,
                height: 480,
                depth_or_array_layers: 257,
            },
            ..HISTORY
        },
        views: &[],
    },
    Request {
        what: "still, compressed",
        desc: STILL,
        views: &[],
    },
    Request {
        what: "still of broken width",
        desc: TextureDescriptor {
            size: Extent3d {
                width: 642,
                height: 480,
                depth_or_array_layers: 1,
            },
            ..STILL
        },
        views: &[],
    },
    Request {
        what: "still of broken height",
        desc: TextureDescriptor {
            size: Extent3d {
                width: 640,
                height: 481,
                depth_or_array_layers: 1,
            },
            ..STILL
        },
        views: &[],
    },
    Request {
        what: "still, no level",
        desc: TextureDescriptor {
            mip_level_count: 0,
            ..STILL
        },
        views: &[],
    },
    Request {
        what: "stack of stills",
        desc: STACK,
        views: &[],
    },
    Request {
        what: "sliced stack of stills",
        desc: TextureDescriptor {
            format: TextureFormat::Astc8x5Unorm,
            ..STACK
        },
        views: &[],
    },
];
