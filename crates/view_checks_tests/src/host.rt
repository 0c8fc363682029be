// What the host is told of a view: format and usages; and the aspects that the view selects.
use crate::requests::{FACES, IMAGE, WHOLE, WHOLE_RANGE};
use crate::{accepted, viewed, with_features};
use std::process::Abort;
use std::test::Fail;
use types::aspect::{FormatAspects, TextureAspect};
use types::descriptor::TextureDescriptor;
use types::dimension::{TextureDimension, TextureViewDimension};
use types::features::Features;
use types::format::TextureFormat;
use types::usages::TextureUsages;
use types::uses::TextureUses;
use types::view_descriptor::{ImageSubresourceRange, TextureViewDescriptor};

struct Case {
    features: Features,
    texture: TextureDescriptor<'static>,
    view: TextureViewDescriptor,
    format: TextureFormat,
    hal_format: TextureFormat,
    hal_usage: TextureUses,
    aspects: FormatAspects,
}

static CASES: [Case; 17] = [
    // several levels are only bound
    Case {
        features: Features::NONE,
        texture: FACES,
        view: WHOLE,
        format: TextureFormat::Rgba8Unorm,
        hal_format: TextureFormat::Rgba8Unorm,
        hal_usage: TextureUses(4),
        aspects: FormatAspects(1),
    },
    // one level is rendered to as well
    Case {
        features: Features::NONE,
        texture: FACES,
        view: TextureViewDescriptor {
            range: ImageSubresourceRange {
                mip_level_count: Some(1),
                ..WHOLE_RANGE
            },
            ..WHOLE
        },
        format: TextureFormat::Rgba8Unorm,
        hal_format: TextureFormat::Rgba8Unorm,
        hal_usage: TextureUses(12),
        aspects: FormatAspects(1),
    },
    // the faces of a cube are only bound
    Case {
        features: Features::NONE,
        texture: FACES,
        view: TextureViewDescriptor {
            dimension: Some(TextureViewDimension::Cube),
            range: ImageSubresourceRange {
                mip_level_count: Some(1),
                ..WHOLE_RANGE
            },
            ..WHOLE
        },
        format: TextureFormat::Rgba8Unorm,
        hal_format: TextureFormat::Rgba8Unorm,
        hal_usage: TextureUses(4),
        aspects: FormatAspects(1),
    },
    // copies go by the texture
    Case {
        features: Features::NONE,
        texture: TextureDescriptor {
            usage: TextureUsages(23),
            ..IMAGE
        },
        view: WHOLE,
        format: TextureFormat::Rgba8Unorm,
        hal_format: TextureFormat::Rgba8Unorm,
        hal_usage: TextureUses(12),
        aspects: FormatAspects(1),
    },
    // a volume is bound or stored, not rendered to
    Case {
        features: Features::NONE,
        texture: TextureDescriptor {
            dimension: TextureDimension::D3,
            usage: TextureUsages(28),
            ..FACES
        },
        view: TextureViewDescriptor {
            range: ImageSubresourceRange {
                mip_level_count: Some(1),
                ..WHOLE_RANGE
            },
            ..WHOLE
        },
        format: TextureFormat::Rgba8Unorm,
        hal_format: TextureFormat::Rgba8Unorm,
        hal_usage: TextureUses(196),
        aspects: FormatAspects(1),
    },
    // storage in each way that the format has
    Case {
        features: Features::NONE,
        texture: TextureDescriptor {
            format: TextureFormat::R32Uint,
            usage: TextureUsages(8),
            ..IMAGE
        },
        view: WHOLE,
        format: TextureFormat::R32Uint,
        hal_format: TextureFormat::R32Uint,
        hal_usage: TextureUses(448),
        aspects: FormatAspects(1),
    },
    // storage of several levels
    Case {
        features: Features::NONE,
        texture: TextureDescriptor {
            usage: TextureUsages(12),
            ..FACES
        },
        view: WHOLE,
        format: TextureFormat::Rgba8Unorm,
        hal_format: TextureFormat::Rgba8Unorm,
        hal_usage: TextureUses(4),
        aspects: FormatAspects(1),
    },
    // the depth of a combined format
    Case {
        features: Features::NONE,
        texture: TextureDescriptor {
            format: TextureFormat::Depth24PlusStencil8,
            ..IMAGE
        },
        view: TextureViewDescriptor {
            range: ImageSubresourceRange {
                aspect: TextureAspect::DepthOnly,
                ..WHOLE_RANGE
            },
            ..WHOLE
        },
        format: TextureFormat::Depth24Plus,
        hal_format: TextureFormat::Depth24PlusStencil8,
        hal_usage: TextureUses(52),
        aspects: FormatAspects(2),
    },
    // the stencil of a combined format
    Case {
        features: Features::NONE,
        texture: TextureDescriptor {
            format: TextureFormat::Depth24PlusStencil8,
            ..IMAGE
        },
        view: TextureViewDescriptor {
            range: ImageSubresourceRange {
                aspect: TextureAspect::StencilOnly,
                ..WHOLE_RANGE
            },
            ..WHOLE
        },
        format: TextureFormat::Stencil8,
        hal_format: TextureFormat::Depth24PlusStencil8,
        hal_usage: TextureUses(52),
        aspects: FormatAspects(4),
    },
    // both of them
    Case {
        features: Features::NONE,
        texture: TextureDescriptor {
            format: TextureFormat::Depth24PlusStencil8,
            ..IMAGE
        },
        view: WHOLE,
        format: TextureFormat::Depth24PlusStencil8,
        hal_format: TextureFormat::Depth24PlusStencil8,
        hal_usage: TextureUses(52),
        aspects: FormatAspects(6),
    },
    // the stencil of the wider one
    Case {
        features: Features(32),
        texture: TextureDescriptor {
            format: TextureFormat::Depth32FloatStencil8,
            usage: TextureUsages(16),
            ..IMAGE
        },
        view: TextureViewDescriptor {
            range: ImageSubresourceRange {
                aspect: TextureAspect::StencilOnly,
                ..WHOLE_RANGE
            },
            ..WHOLE
        },
        format: TextureFormat::Stencil8,
        hal_format: TextureFormat::Depth32FloatStencil8,
        hal_usage: TextureUses(48),
        aspects: FormatAspects(4),
    },
    // a depth that stands alone
    Case {
        features: Features::NONE,
        texture: TextureDescriptor {
            format: TextureFormat::Depth16Unorm,
            ..IMAGE
        },
        view: TextureViewDescriptor {
            range: ImageSubresourceRange {
                aspect: TextureAspect::DepthOnly,
                ..WHOLE_RANGE
            },
            ..WHOLE
        },
        format: TextureFormat::Depth16Unorm,
        hal_format: TextureFormat::Depth16Unorm,
        hal_usage: TextureUses(52),
        aspects: FormatAspects(2),
    },
    // a twin is no part: it is told as it is
    Case {
        features: Features::NONE,
        texture: TextureDescriptor {
            view_formats: &[TextureFormat::Rgba8UnormSrgb],
            ..IMAGE
        },
        view: TextureViewDescriptor {
            format: Some(TextureFormat::Rgba8UnormSrgb),
            ..WHOLE
        },
        format: TextureFormat::Rgba8UnormSrgb,
        hal_format: TextureFormat::Rgba8UnormSrgb,
        hal_usage: TextureUses(12),
        aspects: FormatAspects(1),
    },
    // the first plane
    Case {
        features: Features(64),
        texture: TextureDescriptor {
            format: TextureFormat::NV12,
            ..IMAGE
        },
        view: TextureViewDescriptor {
            range: ImageSubresourceRange {
                aspect: TextureAspect::Plane0,
                ..WHOLE_RANGE
            },
            ..WHOLE
        },
        format: TextureFormat::R8Unorm,
        hal_format: TextureFormat::R8Unorm,
        hal_usage: TextureUses(12),
        aspects: FormatAspects(8),
    },
    // the second plane
    Case {
        features: Features(64),
        texture: TextureDescriptor {
            format: TextureFormat::NV12,
            ..IMAGE
        },
        view: TextureViewDescriptor {
            range: ImageSubresourceRange {
                aspect: TextureAspect::Plane1,
                ..WHOLE_RANGE
            },
            ..WHOLE
        },
        format: TextureFormat::Rg8Unorm,
        hal_format: TextureFormat::Rg8Unorm,
        hal_usage: TextureUses(12),
        aspects: FormatAspects(16),
    },
    // both planes
    Case {
        features: Features(64),
        texture: TextureDescriptor {
            format: TextureFormat::NV12,
            usage: TextureUsages(4),
            ..IMAGE
        },
        view: WHOLE,
        format: TextureFormat::NV12,
        hal_format: TextureFormat::NV12,
        hal_usage: TextureUses(4),
        aspects: FormatAspects(24),
    },
    // a transient attachment
    Case {
        features: Features::NONE,
        texture: TextureDescriptor {
            format: TextureFormat::Depth24Plus,
            usage: TextureUsages(48),
            ..IMAGE
        },
        view: WHOLE,
        format: TextureFormat::Depth24Plus,
        hal_format: TextureFormat::Depth24Plus,
        hal_usage: TextureUses(1072),
        aspects: FormatAspects(2),
    },
];

fn check_case(rt: &impl Abort, case: &Case) -> Result<(), Fail> {
    let device = with_features(case.features);
    let texture = accepted(&device, &case.texture)?;
    let view = viewed(&device, &texture, &case.view)?;
    assert_eq!(rt; view.format, case.format, "of {:?}", case.view);
    assert_eq!(rt; view.hal_format, case.hal_format, "of {:?}", case.view);
    assert_eq!(rt; view.hal_usage, case.hal_usage, "of {:?}", case.view);
    assert_eq!(rt; view.aspects, case.aspects, "of {:?}", case.view);
    assert_eq!(rt;
        view.samples,
        case.texture.sample_count,
        "of {:?}",
        case.view
    );
    Ok(())
}

#[test]
fn the_host_is_told_format_and_usages(rt: HostRuntime) -> Result<(), Fail> {
    for case in &CASES {
        check_case(&rt, case)?;
    }
    Ok(())
}
