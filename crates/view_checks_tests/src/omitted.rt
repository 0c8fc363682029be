// Omitted fields of a view, and what they are filled in with.
use crate::requests::{FACES, IMAGE, WHOLE, WHOLE_RANGE};
use crate::{accepted, with_features};
use std::process::Abort;
use std::test::Fail;
use types::aspect::TextureAspect;
use types::descriptor::TextureDescriptor;
use types::dimension::{TextureDimension, TextureViewDimension};
use types::extent::Extent3d;
use types::features::Features;
use types::format::TextureFormat;
use types::usages::TextureUsages;
use types::view_descriptor::{ImageSubresourceRange, TextureViewDescriptor};
use view_checks::resolve::{ResolvedView, resolve_view_descriptor};

struct Case {
    features: Features,
    texture: TextureDescriptor<'static>,
    view: TextureViewDescriptor,
    format: TextureFormat,
    dimension: TextureViewDimension,
    usage: TextureUsages,
    levels: u32,
    layers: u32,
}

static CASES: [Case; 22] = [
    // several layers are an array
    Case {
        features: Features::NONE,
        texture: FACES,
        view: WHOLE,
        format: TextureFormat::Rgba8Unorm,
        dimension: TextureViewDimension::D2Array,
        usage: TextureUsages(20),
        levels: 7,
        layers: 6,
    },
    // one layer is an image
    Case {
        features: Features::NONE,
        texture: IMAGE,
        view: WHOLE,
        format: TextureFormat::Rgba8Unorm,
        dimension: TextureViewDimension::D2,
        usage: TextureUsages(20),
        levels: 1,
        layers: 1,
    },
    // a line
    Case {
        features: Features::NONE,
        texture: TextureDescriptor {
            dimension: TextureDimension::D1,
            usage: TextureUsages(4),
            size: Extent3d {
                width: 64,
                height: 1,
                depth_or_array_layers: 1,
            },
            ..IMAGE
        },
        view: WHOLE,
        format: TextureFormat::Rgba8Unorm,
        dimension: TextureViewDimension::D1,
        usage: TextureUsages(4),
        levels: 1,
        layers: 1,
    },
    // a volume has one layer
    Case {
        features: Features::NONE,
        texture: TextureDescriptor {
            dimension: TextureDimension::D3,
            ..FACES
        },
        view: WHOLE,
        format: TextureFormat::Rgba8Unorm,
        dimension: TextureViewDimension::D3,
        usage: TextureUsages(20),
        levels: 7,
        layers: 1,
    },
    // an array of one image
    Case {
        features: Features::NONE,
        texture: IMAGE,
        view: TextureViewDescriptor {
            dimension: Some(TextureViewDimension::D2Array),
            ..WHOLE
        },
        format: TextureFormat::Rgba8Unorm,
        dimension: TextureViewDimension::D2Array,
        usage: TextureUsages(20),
        levels: 1,
        layers: 1,
    },
    // one image of several
    Case {
        features: Features::NONE,
        texture: FACES,
        view: TextureViewDescriptor {
            dimension: Some(TextureViewDimension::D2),
            ..WHOLE
        },
        format: TextureFormat::Rgba8Unorm,
        dimension: TextureViewDimension::D2,
        usage: TextureUsages(20),
        levels: 7,
        layers: 1,
    },
    // a cube has six layers, wherever it begins
    Case {
        features: Features::NONE,
        texture: FACES,
        view: TextureViewDescriptor {
            dimension: Some(TextureViewDimension::Cube),
            range: ImageSubresourceRange {
                base_array_layer: 2,
                ..WHOLE_RANGE
            },
            ..WHOLE
        },
        format: TextureFormat::Rgba8Unorm,
        dimension: TextureViewDimension::Cube,
        usage: TextureUsages(20),
        levels: 7,
        layers: 6,
    },
    // cubes have what is left
    Case {
        features: Features::NONE,
        texture: FACES,
        view: TextureViewDescriptor {
            dimension: Some(TextureViewDimension::CubeArray),
            range: ImageSubresourceRange {
                base_array_layer: 2,
                ..WHOLE_RANGE
            },
            ..WHOLE
        },
        format: TextureFormat::Rgba8Unorm,
        dimension: TextureViewDimension::CubeArray,
        usage: TextureUsages(20),
        levels: 7,
        layers: 4,
    },
    // an array has what is left
    Case {
        features: Features::NONE,
        texture: FACES,
        view: TextureViewDescriptor {
            range: ImageSubresourceRange {
                base_array_layer: 2,
                ..WHOLE_RANGE
            },
            ..WHOLE
        },
        format: TextureFormat::Rgba8Unorm,
        dimension: TextureViewDimension::D2Array,
        usage: TextureUsages(20),
        levels: 7,
        layers: 4,
    },
    // nothing is left past the last layer
    Case {
        features: Features::NONE,
        texture: FACES,
        view: TextureViewDescriptor {
            range: ImageSubresourceRange {
                base_array_layer: 9,
                ..WHOLE_RANGE
            },
            ..WHOLE
        },
        format: TextureFormat::Rgba8Unorm,
        dimension: TextureViewDimension::D2Array,
        usage: TextureUsages(20),
        levels: 7,
        layers: 0,
    },
    // what is left of the levels
    Case {
        features: Features::NONE,
        texture: FACES,
        view: TextureViewDescriptor {
            range: ImageSubresourceRange {
                base_mip_level: 5,
                ..WHOLE_RANGE
            },
            ..WHOLE
        },
        format: TextureFormat::Rgba8Unorm,
        dimension: TextureViewDimension::D2Array,
        usage: TextureUsages(20),
        levels: 2,
        layers: 6,
    },
    // nothing is left past the last level
    Case {
        features: Features::NONE,
        texture: FACES,
        view: TextureViewDescriptor {
            range: ImageSubresourceRange {
                base_mip_level: 8,
                ..WHOLE_RANGE
            },
            ..WHOLE
        },
        format: TextureFormat::Rgba8Unorm,
        dimension: TextureViewDimension::D2Array,
        usage: TextureUsages(20),
        levels: 0,
        layers: 6,
    },
    // an empty usage is the texture's
    Case {
        features: Features::NONE,
        texture: FACES,
        view: TextureViewDescriptor {
            usage: Some(TextureUsages(0)),
            ..WHOLE
        },
        format: TextureFormat::Rgba8Unorm,
        dimension: TextureViewDimension::D2Array,
        usage: TextureUsages(20),
        levels: 7,
        layers: 6,
    },
    // a usage that is given stays
    Case {
        features: Features::NONE,
        texture: FACES,
        view: TextureViewDescriptor {
            usage: Some(TextureUsages(4)),
            ..WHOLE
        },
        format: TextureFormat::Rgba8Unorm,
        dimension: TextureViewDimension::D2Array,
        usage: TextureUsages(4),
        levels: 7,
        layers: 6,
    },
    // the depth part
    Case {
        features: Features::NONE,
        texture: TextureDescriptor {
            format: TextureFormat::Depth24PlusStencil8,
            ..IMAGE
        },
        view: TextureViewDescriptor {
            range: ImageSubresourceRange {
                aspect: TextureAspect::DepthOnly,
                ..WHOLE_RANGE
            },
            ..WHOLE
        },
        format: TextureFormat::Depth24Plus,
        dimension: TextureViewDimension::D2,
        usage: TextureUsages(20),
        levels: 1,
        layers: 1,
    },
    // the stencil part
    Case {
        features: Features::NONE,
        texture: TextureDescriptor {
            format: TextureFormat::Depth24PlusStencil8,
            ..IMAGE
        },
        view: TextureViewDescriptor {
            range: ImageSubresourceRange {
                aspect: TextureAspect::StencilOnly,
                ..WHOLE_RANGE
            },
            ..WHOLE
        },
        format: TextureFormat::Stencil8,
        dimension: TextureViewDimension::D2,
        usage: TextureUsages(20),
        levels: 1,
        layers: 1,
    },
    // all of a combined format
    Case {
        features: Features::NONE,
        texture: TextureDescriptor {
            format: TextureFormat::Depth24PlusStencil8,
            ..IMAGE
        },
        view: WHOLE,
        format: TextureFormat::Depth24PlusStencil8,
        dimension: TextureViewDimension::D2,
        usage: TextureUsages(20),
        levels: 1,
        layers: 1,
    },
    // a part that there is not is the format itself
    Case {
        features: Features::NONE,
        texture: IMAGE,
        view: TextureViewDescriptor {
            range: ImageSubresourceRange {
                aspect: TextureAspect::StencilOnly,
                ..WHOLE_RANGE
            },
            ..WHOLE
        },
        format: TextureFormat::Rgba8Unorm,
        dimension: TextureViewDimension::D2,
        usage: TextureUsages(20),
        levels: 1,
        layers: 1,
    },
    // the planes
    Case {
        features: Features(64),
        texture: TextureDescriptor {
            format: TextureFormat::NV12,
            usage: TextureUsages(4),
            ..IMAGE
        },
        view: TextureViewDescriptor {
            range: ImageSubresourceRange {
                aspect: TextureAspect::Plane0,
                ..WHOLE_RANGE
            },
            ..WHOLE
        },
        format: TextureFormat::R8Unorm,
        dimension: TextureViewDimension::D2,
        usage: TextureUsages(4),
        levels: 1,
        layers: 1,
    },
    // and the second one
    Case {
        features: Features(64),
        texture: TextureDescriptor {
            format: TextureFormat::NV12,
            usage: TextureUsages(4),
            ..IMAGE
        },
        view: TextureViewDescriptor {
            range: ImageSubresourceRange {
                aspect: TextureAspect::Plane1,
                ..WHOLE_RANGE
            },
            ..WHOLE
        },
        format: TextureFormat::Rg8Unorm,
        dimension: TextureViewDimension::D2,
        usage: TextureUsages(4),
        levels: 1,
        layers: 1,
    },
    // all of a planar format
    Case {
        features: Features(64),
        texture: TextureDescriptor {
            format: TextureFormat::NV12,
            usage: TextureUsages(4),
            ..IMAGE
        },
        view: WHOLE,
        format: TextureFormat::NV12,
        dimension: TextureViewDimension::D2,
        usage: TextureUsages(4),
        levels: 1,
        layers: 1,
    },
    // what is given stays, whatever it is
    Case {
        features: Features::NONE,
        texture: FACES,
        view: TextureViewDescriptor {
            format: Some(TextureFormat::Stencil8),
            dimension: Some(TextureViewDimension::D1),
            usage: Some(TextureUsages(u32::MAX)),
            range: ImageSubresourceRange {
                base_mip_level: 3,
                mip_level_count: Some(u32::MAX),
                base_array_layer: 3,
                array_layer_count: Some(0),
                ..WHOLE_RANGE
            },
            ..WHOLE
        },
        format: TextureFormat::Stencil8,
        dimension: TextureViewDimension::D1,
        usage: TextureUsages(u32::MAX),
        levels: u32::MAX,
        layers: 0,
    },
];

fn check_case(rt: &impl Abort, case: &Case) -> Result<(), Fail> {
    let texture = accepted(&with_features(case.features), &case.texture)?;
    let range = case.view.range;
    let filled_in = ResolvedView {
        format: case.format,
        dimension: case.dimension,
        usage: case.usage,
        aspect: range.aspect,
        base_mip_level: range.base_mip_level,
        mip_level_count: case.levels,
        base_array_layer: range.base_array_layer,
        array_layer_count: case.layers,
    };
    assert_eq!(rt;
        resolve_view_descriptor(&texture, &case.view),
        filled_in,
        "of {:?}",
        case.view
    );
    Ok(())
}

#[test]
fn omitted_fields_are_filled_in(rt: HostRuntime) -> Result<(), Fail> {
    for case in &CASES {
        check_case(&rt, case)?;
    }
    Ok(())
}
