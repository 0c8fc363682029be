// The operator panel: a screen with a status bar, a mimic diagram, and symbols from an atlas.
use crate::request::{PLAIN, Request, ViewRequest};
use types::aspect::TextureAspect;
use types::descriptor::TextureDescriptor;
use types::dimension::{TextureDimension, TextureViewDimension};
use types::extent::Extent3d;
use types::format::TextureFormat;
use types::usages::TextureUsages;
use types::view_descriptor::{ImageSubresourceRange, TextureViewDescriptor};

/// The container's name.
pub const NAME: &str = "operator panel";

const NO_USAGE: TextureUsages = TextureUsages(0);

// a bit that stands for no usage
const UNKNOWN_USAGE: TextureUsages = TextureUsages(128);

const DRAWN: TextureUsages = TextureUsages(
    TextureUsages::TEXTURE_BINDING.0 | TextureUsages::RENDER_ATTACHMENT.0,
);

const LOADED: TextureUsages = TextureUsages(
    TextureUsages::COPY_DST.0 | TextureUsages::TEXTURE_BINDING.0,
);

const TRANSIENT: TextureUsages = TextureUsages(
    TextureUsages::RENDER_ATTACHMENT.0 | TextureUsages::TRANSIENT_ATTACHMENT.0,
);

const TRANSIENT_AND_COPIED: TextureUsages = TextureUsages(TRANSIENT.0 | TextureUsages::COPY_SRC.0);

const PANEL: Extent3d = Extent3d {
    width: 1280,
    height: 800,
    depth_or_array_layers: 1,
};

const PANEL_LAYERS: Extent3d = Extent3d {
    width: 1280,
    height: 800,
    depth_or_array_layers: 2,
};

const CUBE: Extent3d = Extent3d {
    width: 64,
    height: 64,
    depth_or_array_layers: 64,
};

const SCREEN: TextureDescriptor<'static> = TextureDescriptor {
    size: PANEL,
    format: TextureFormat::Bgra8Unorm,
    usage: DRAWN,
    ..PLAIN
};

const TICKER: TextureDescriptor<'static> = TextureDescriptor {
    size: Extent3d {
        width: 8192,
        height: 1,
        depth_or_array_layers: 1,
    },
    mip_level_count: 14,
    usage: DRAWN,
    ..PLAIN
};

const ATLAS: TextureDescriptor<'static> = TextureDescriptor {
    size: Extent3d {
        width: 64,
        height: 64,
        depth_or_array_layers: 6,
    },
    mip_level_count: 7,
    format: TextureFormat::Rgba8UnormSrgb,
    usage: LOADED,
    ..PLAIN
};

const SMOOTH: TextureDescriptor<'static> = TextureDescriptor {
    sample_count: 4,
    ..SCREEN
};

const PASSING_DEPTH: TextureDescriptor<'static> = TextureDescriptor {
    size: PANEL,
    format: TextureFormat::Depth24Plus,
    usage: TRANSIENT,
    ..PLAIN
};

const SCREEN_VIEWS: [ViewRequest; 6] = [
    ViewRequest {
        what: "all of it",
        desc: TextureViewDescriptor::DEFAULT,
    },
    ViewRequest {
        what: "drawn on",
        desc: TextureViewDescriptor {
            usage: Some(TextureUsages::RENDER_ATTACHMENT),
            ..TextureViewDescriptor::DEFAULT
        },
    },
    ViewRequest {
        what: "of no usage",
        desc: TextureViewDescriptor {
            usage: Some(NO_USAGE),
            ..TextureViewDescriptor::DEFAULT
        },
    },
    ViewRequest {
        what: "as storage",
        desc: TextureViewDescriptor {
            usage: Some(TextureUsages::STORAGE_BINDING),
            ..TextureViewDescriptor::DEFAULT
        },
    },
    ViewRequest {
        what: "in sRGB, unlisted",
        desc: TextureViewDescriptor {
            format: Some(TextureFormat::Bgra8UnormSrgb),
            ..TextureViewDescriptor::DEFAULT
        },
    },
    ViewRequest {
        what: "in a format that the device lacks",
        desc: TextureViewDescriptor {
            format: Some(TextureFormat::Depth32FloatStencil8),
            ..TextureViewDescriptor::DEFAULT
        },
    },
];

const SRGB_VIEWS: [ViewRequest; 2] = [
    ViewRequest {
        what: "in sRGB",
        desc: TextureViewDescriptor {
            format: Some(TextureFormat::Bgra8UnormSrgb),
            ..TextureViewDescriptor::DEFAULT
        },
    },
    ViewRequest {
        what: "in a foreign format",
        desc: TextureViewDescriptor {
            format: Some(TextureFormat::Rgba8Unorm),
            ..TextureViewDescriptor::DEFAULT
        },
    },
];

const TICKER_VIEWS: [ViewRequest; 5] = [
    ViewRequest {
        what: "every level",
        desc: TextureViewDescriptor::DEFAULT,
    },
    ViewRequest {
        what: "level 3",
        desc: TextureViewDescriptor {
            range: ImageSubresourceRange {
                base_mip_level: 3,
                mip_level_count: Some(1),
                ..ImageSubresourceRange::DEFAULT
            },
            ..TextureViewDescriptor::DEFAULT
        },
    },
    ViewRequest {
        what: "level 3, only sampled",
        desc: TextureViewDescriptor {
            usage: Some(TextureUsages::TEXTURE_BINDING),
            range: ImageSubresourceRange {
                base_mip_level: 3,
                mip_level_count: Some(1),
                ..ImageSubresourceRange::DEFAULT
            },
            ..TextureViewDescriptor::DEFAULT
        },
    },
    ViewRequest {
        what: "from past the last level",
        desc: TextureViewDescriptor {
            range: ImageSubresourceRange {
                base_mip_level: 14,
                ..ImageSubresourceRange::DEFAULT
            },
            ..TextureViewDescriptor::DEFAULT
        },
    },
    ViewRequest {
        what: "from the largest number",
        desc: TextureViewDescriptor {
            range: ImageSubresourceRange {
                base_mip_level: u32::MAX,
                mip_level_count: Some(2),
                ..ImageSubresourceRange::DEFAULT
            },
            ..TextureViewDescriptor::DEFAULT
        },
    },
];

const ATLAS_VIEWS: [ViewRequest; 10] = [
    ViewRequest {
        what: "as an array",
        desc: TextureViewDescriptor::DEFAULT,
    },
    ViewRequest {
        what: "as a cube",
        desc: TextureViewDescriptor {
            dimension: Some(TextureViewDimension::Cube),
            ..TextureViewDescriptor::DEFAULT
        },
    },
    ViewRequest {
        what: "as cubes",
        desc: TextureViewDescriptor {
            dimension: Some(TextureViewDimension::CubeArray),
            ..TextureViewDescriptor::DEFAULT
        },
    },
    ViewRequest {
        what: "as a cube, shifted",
        desc: TextureViewDescriptor {
            dimension: Some(TextureViewDimension::Cube),
            range: ImageSubresourceRange {
                base_array_layer: 1,
                ..ImageSubresourceRange::DEFAULT
            },
            ..TextureViewDescriptor::DEFAULT
        },
    },
    ViewRequest {
        what: "as a cube of five",
        desc: TextureViewDescriptor {
            dimension: Some(TextureViewDimension::Cube),
            range: ImageSubresourceRange {
                array_layer_count: Some(5),
                ..ImageSubresourceRange::DEFAULT
            },
            ..TextureViewDescriptor::DEFAULT
        },
    },
    ViewRequest {
        what: "as cubes of five",
        desc: TextureViewDescriptor {
            dimension: Some(TextureViewDimension::CubeArray),
            range: ImageSubresourceRange {
                array_layer_count: Some(5),
                ..ImageSubresourceRange::DEFAULT
            },
            ..TextureViewDescriptor::DEFAULT
        },
    },
    ViewRequest {
        what: "as cubes after the last layer",
        desc: TextureViewDescriptor {
            dimension: Some(TextureViewDimension::CubeArray),
            range: ImageSubresourceRange {
                base_array_layer: 6,
                ..ImageSubresourceRange::DEFAULT
            },
            ..TextureViewDescriptor::DEFAULT
        },
    },
    ViewRequest {
        what: "as one image of two layers",
        desc: TextureViewDescriptor {
            dimension: Some(TextureViewDimension::D2),
            range: ImageSubresourceRange {
                array_layer_count: Some(2),
                ..ImageSubresourceRange::DEFAULT
            },
            ..TextureViewDescriptor::DEFAULT
        },
    },
    ViewRequest {
        what: "as a volume",
        desc: TextureViewDescriptor {
            dimension: Some(TextureViewDimension::D3),
            ..TextureViewDescriptor::DEFAULT
        },
    },
    ViewRequest {
        what: "its depth",
        desc: TextureViewDescriptor {
            range: ImageSubresourceRange {
                aspect: TextureAspect::DepthOnly,
                ..ImageSubresourceRange::DEFAULT
            },
            ..TextureViewDescriptor::DEFAULT
        },
    },
];

const SMOOTH_VIEWS: [ViewRequest; 2] = [
    ViewRequest {
        what: "all of it",
        desc: TextureViewDescriptor::DEFAULT,
    },
    ViewRequest {
        what: "as an array",
        desc: TextureViewDescriptor {
            dimension: Some(TextureViewDimension::D2Array),
            ..TextureViewDescriptor::DEFAULT
        },
    },
];

const PASSING_VIEWS: [ViewRequest; 2] = [
    ViewRequest {
        what: "all of it",
        desc: TextureViewDescriptor::DEFAULT,
    },
    ViewRequest {
        what: "drawn on alone",
        desc: TextureViewDescriptor {
            usage: Some(TextureUsages::RENDER_ATTACHMENT),
            ..TextureViewDescriptor::DEFAULT
        },
    },
];

/// All that the operator panel asks for.
pub static REQUESTS: [Request; 25] = [
    Request {
        what: "screen",
        desc: SCREEN,
        views: &SCREEN_VIEWS,
    },
    Request {
        what: "screen with an sRGB view",
        desc: TextureDescriptor {
            view_formats: &[TextureFormat::Bgra8UnormSrgb],
            ..SCREEN
        },
        views: &SRGB_VIEWS,
    },
    Request {
        what: "screen with a foreign view",
        desc: TextureDescriptor {
            view_formats: &[TextureFormat::Bgra8Unorm, TextureFormat::Rgba8Unorm],
            ..SCREEN
        },
        views: &[],
    },
    Request {
        what: "ticker, every level",
        desc: TICKER,
        views: &TICKER_VIEWS,
    },
    Request {
        what: "ticker, a level too many",
        desc: TextureDescriptor {
            mip_level_count: 15,
            ..TICKER
        },
        views: &[],
    },
    Request {
        what: "symbol atlas",
        desc: ATLAS,
        views: &ATLAS_VIEWS,
    },
    Request {
        what: "symbols of no use",
        desc: TextureDescriptor {
            usage: NO_USAGE,
            ..ATLAS
        },
        views: &[],
    },
    Request {
        what: "symbols of an unknown use",
        desc: TextureDescriptor {
            usage: UNKNOWN_USAGE,
            ..ATLAS
        },
        views: &[],
    },
    Request {
        what: "wall display",
        desc: TextureDescriptor {
            size: Extent3d {
                width: 8193,
                height: 800,
                depth_or_array_layers: 1,
            },
            ..SCREEN
        },
        views: &[],
    },
    Request {
        what: "collapsed window",
        desc: TextureDescriptor {
            size: Extent3d {
                width: 0,
                height: 800,
                depth_or_array_layers: 1,
            },
            ..SCREEN
        },
        views: &[],
    },
    Request {
        what: "smooth diagram",
        desc: SMOOTH,
        views: &SMOOTH_VIEWS,
    },
    Request {
        what: "smooth diagram, three samples",
        desc: TextureDescriptor {
            sample_count: 3,
            ..SMOOTH
        },
        views: &[],
    },
    Request {
        what: "smooth diagram, eight samples",
        desc: TextureDescriptor {
            sample_count: 8,
            ..SMOOTH
        },
        views: &[],
    },
    Request {
        what: "smooth diagram with levels",
        desc: TextureDescriptor {
            mip_level_count: 2,
            ..SMOOTH
        },
        views: &[],
    },
    Request {
        what: "smooth layers",
        desc: TextureDescriptor {
            size: PANEL_LAYERS,
            ..SMOOTH
        },
        views: &[],
    },
    Request {
        what: "smooth, only loaded",
        desc: TextureDescriptor {
            usage: LOADED,
            ..SMOOTH
        },
        views: &[],
    },
    Request {
        what: "smooth scratch",
        desc: TextureDescriptor {
            format: TextureFormat::Rgba8Unorm,
            usage: TextureUsages::STORAGE_BINDING,
            ..SMOOTH
        },
        views: &[],
    },
    Request {
        what: "smooth identifiers",
        desc: TextureDescriptor {
            format: TextureFormat::R32Uint,
            ..SMOOTH
        },
        views: &[],
    },
    Request {
        what: "passing depth",
        desc: PASSING_DEPTH,
        views: &PASSING_VIEWS,
    },
    Request {
        what: "passing depth, copied",
        desc: TextureDescriptor {
            usage: TRANSIENT_AND_COPIED,
            ..PASSING_DEPTH
        },
        views: &[],
    },
    Request {
        what: "passing depth with levels",
        desc: TextureDescriptor {
            mip_level_count: 2,
            ..PASSING_DEPTH
        },
        views: &[],
    },
    Request {
        what: "passing depth in layers",
        desc: TextureDescriptor {
            size: PANEL_LAYERS,
            ..PASSING_DEPTH
        },
        views: &[],
    },
    Request {
        what: "passing depth with a view format",
        desc: TextureDescriptor {
            view_formats: &[TextureFormat::Depth24Plus],
            ..PASSING_DEPTH
        },
        views: &[],
    },
    Request {
        what: "depth in 3D",
        desc: TextureDescriptor {
            dimension: TextureDimension::D3,
            size: CUBE,
            usage: DRAWN,
            ..PASSING_DEPTH
        },
        views: &[],
    },
    Request {
        what: "passing volume",
        desc: TextureDescriptor {
            dimension: TextureDimension::D3,
            size: CUBE,
            usage: TRANSIENT,
            ..PLAIN
        },
        views: &[],
    },
];
