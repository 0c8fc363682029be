// How large a view is when it is rendered to, or why it cannot be.
use crate::requests::{FACES, IMAGE, WHOLE, WHOLE_RANGE};
use crate::{accepted, viewed, with_features};
use std::process::Abort;
use std::test::Fail;
use types::aspect::{FormatAspects, TextureAspect};
use types::descriptor::TextureDescriptor;
use types::dimension::{TextureDimension, TextureViewDimension};
use types::extent::Extent3d;
use types::features::Features;
use types::format::TextureFormat;
use types::usages::TextureUsages;
use types::view::TextureViewNotRenderableReason as Reason;
use types::view_descriptor::{ImageSubresourceRange, TextureViewDescriptor};

struct Case {
    features: Features,
    texture: TextureDescriptor<'static>,
    view: TextureViewDescriptor,
    // how large, or why not
    answer: Result<Extent3d, Reason>,
}

static CASES: [Case; 16] = [
    // level 3 of a face
    Case {
        features: Features::NONE,
        texture: FACES,
        view: TextureViewDescriptor {
            dimension: Some(TextureViewDimension::D2),
            range: ImageSubresourceRange {
                base_mip_level: 3,
                mip_level_count: Some(1),
                ..WHOLE_RANGE
            },
            ..WHOLE
        },
        answer: Ok(Extent3d {
            width: 8,
            height: 8,
            depth_or_array_layers: 1,
        }),
    },
    // all of an image
    Case {
        features: Features::NONE,
        texture: IMAGE,
        view: WHOLE,
        answer: Ok(Extent3d {
            width: 64,
            height: 32,
            depth_or_array_layers: 1,
        }),
    },
    // the last level of an oblong image
    Case {
        features: Features::NONE,
        texture: TextureDescriptor {
            mip_level_count: 7,
            ..IMAGE
        },
        view: TextureViewDescriptor {
            range: ImageSubresourceRange {
                base_mip_level: 6,
                ..WHOLE_RANGE
            },
            ..WHOLE
        },
        answer: Ok(Extent3d {
            width: 1,
            height: 1,
            depth_or_array_layers: 1,
        }),
    },
    // a level between
    Case {
        features: Features::NONE,
        texture: TextureDescriptor {
            mip_level_count: 7,
            ..IMAGE
        },
        view: TextureViewDescriptor {
            range: ImageSubresourceRange {
                base_mip_level: 4,
                mip_level_count: Some(1),
                ..WHOLE_RANGE
            },
            ..WHOLE
        },
        answer: Ok(Extent3d {
            width: 4,
            height: 2,
            depth_or_array_layers: 1,
        }),
    },
    // a volume
    Case {
        features: Features::NONE,
        texture: TextureDescriptor {
            dimension: TextureDimension::D3,
            ..FACES
        },
        view: TextureViewDescriptor {
            range: ImageSubresourceRange {
                mip_level_count: Some(1),
                ..WHOLE_RANGE
            },
            ..WHOLE
        },
        answer: Ok(Extent3d {
            width: 64,
            height: 64,
            depth_or_array_layers: 1,
        }),
    },
    // an array of one image
    Case {
        features: Features::NONE,
        texture: FACES,
        view: TextureViewDescriptor {
            range: ImageSubresourceRange {
                mip_level_count: Some(1),
                base_array_layer: 5,
                ..WHOLE_RANGE
            },
            ..WHOLE
        },
        answer: Ok(Extent3d {
            width: 64,
            height: 64,
            depth_or_array_layers: 1,
        }),
    },
    // several images, together
    Case {
        features: Features(256),
        texture: FACES,
        view: TextureViewDescriptor {
            range: ImageSubresourceRange {
                mip_level_count: Some(1),
                ..WHOLE_RANGE
            },
            ..WHOLE
        },
        answer: Ok(Extent3d {
            width: 64,
            height: 64,
            depth_or_array_layers: 1,
        }),
    },
    // several images
    Case {
        features: Features::NONE,
        texture: FACES,
        view: TextureViewDescriptor {
            range: ImageSubresourceRange {
                mip_level_count: Some(1),
                ..WHOLE_RANGE
            },
            ..WHOLE
        },
        answer: Err(Reason::ArrayLayerCount(6)),
    },
    // several levels
    Case {
        features: Features::NONE,
        texture: FACES,
        view: TextureViewDescriptor {
            dimension: Some(TextureViewDimension::D2),
            ..WHOLE
        },
        answer: Err(Reason::MipLevelCount(7)),
    },
    // a cube
    Case {
        features: Features::NONE,
        texture: FACES,
        view: TextureViewDescriptor {
            dimension: Some(TextureViewDimension::Cube),
            range: ImageSubresourceRange {
                mip_level_count: Some(1),
                ..WHOLE_RANGE
            },
            ..WHOLE
        },
        answer: Err(Reason::Dimension(TextureViewDimension::Cube)),
    },
    // a usage without rendering
    Case {
        features: Features::NONE,
        texture: FACES,
        view: TextureViewDescriptor {
            usage: Some(TextureUsages(4)),
            ..WHOLE
        },
        answer: Err(Reason::Usage(TextureUsages(4))),
    },
    // the depth of two aspects
    Case {
        features: Features::NONE,
        texture: TextureDescriptor {
            format: TextureFormat::Depth24PlusStencil8,
            ..IMAGE
        },
        view: TextureViewDescriptor {
            range: ImageSubresourceRange {
                aspect: TextureAspect::DepthOnly,
                ..WHOLE_RANGE
            },
            ..WHOLE
        },
        answer: Err(Reason::Aspects(FormatAspects(2))),
    },
    // the depth of one
    Case {
        features: Features::NONE,
        texture: TextureDescriptor {
            format: TextureFormat::Depth16Unorm,
            ..IMAGE
        },
        view: TextureViewDescriptor {
            range: ImageSubresourceRange {
                aspect: TextureAspect::DepthOnly,
                ..WHOLE_RANGE
            },
            ..WHOLE
        },
        answer: Ok(Extent3d {
            width: 64,
            height: 32,
            depth_or_array_layers: 1,
        }),
    },
    // the first plane
    Case {
        features: Features(64),
        texture: TextureDescriptor {
            format: TextureFormat::NV12,
            ..IMAGE
        },
        view: TextureViewDescriptor {
            range: ImageSubresourceRange {
                aspect: TextureAspect::Plane0,
                ..WHOLE_RANGE
            },
            ..WHOLE
        },
        answer: Ok(Extent3d {
            width: 64,
            height: 32,
            depth_or_array_layers: 1,
        }),
    },
    // the second plane
    Case {
        features: Features(64),
        texture: TextureDescriptor {
            format: TextureFormat::NV12,
            ..IMAGE
        },
        view: TextureViewDescriptor {
            range: ImageSubresourceRange {
                aspect: TextureAspect::Plane1,
                ..WHOLE_RANGE
            },
            ..WHOLE
        },
        answer: Ok(Extent3d {
            width: 32,
            height: 16,
            depth_or_array_layers: 1,
        }),
    },
    // the second plane at its last level
    Case {
        features: Features(64),
        texture: TextureDescriptor {
            format: TextureFormat::NV12,
            mip_level_count: 5,
            ..IMAGE
        },
        view: TextureViewDescriptor {
            range: ImageSubresourceRange {
                aspect: TextureAspect::Plane1,
                base_mip_level: 4,
                ..WHOLE_RANGE
            },
            ..WHOLE
        },
        answer: Ok(Extent3d {
            width: 2,
            height: 1,
            depth_or_array_layers: 1,
        }),
    },
];

fn check_case(rt: &impl Abort, case: &Case) -> Result<(), Fail> {
    let device = with_features(case.features);
    let texture = accepted(&device, &case.texture)?;
    let view = viewed(&device, &texture, &case.view)?;
    assert_eq!(rt; view.render_extent, case.answer, "of {:?}", case.view);
    Ok(())
}

#[test]
fn views_are_rendered_at_their_level(rt: HostRuntime) -> Result<(), Fail> {
    for case in &CASES {
        check_case(&rt, case)?;
    }
    Ok(())
}
