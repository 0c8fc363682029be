// One view or more for each rule, with the number and the values that its refusal carries, worked out by hand.
use crate::requests::{FACES, IMAGE, WHOLE, WHOLE_RANGE};
use crate::{accepted, with_features};
use checks::refusal::{Refusal, Values};
use std::process::Abort;
use std::test::Fail;
use types::aspect::TextureAspect;
use types::descriptor::TextureDescriptor;
use types::dimension::{TextureDimension, TextureViewDimension};
use types::extent::Extent3d;
use types::features::Features;
use types::format::TextureFormat;
use types::usages::TextureUsages;
use types::view_descriptor::{ImageSubresourceRange, TextureViewDescriptor};
use view_checks::view::check_view_descriptor;

struct Case {
    features: Features,
    texture: TextureDescriptor<'static>,
    view: TextureViewDescriptor,
    number: u32,
    values: Values,
}

static CASES: [Case; 46] = [
    // a part of a transient attachment's usage
    Case {
        features: Features::NONE,
        texture: TextureDescriptor {
            usage: TextureUsages(48),
            ..IMAGE
        },
        view: TextureViewDescriptor {
            usage: Some(TextureUsages(16)),
            ..WHOLE
        },
        number: 33,
        values: Values::Two(48, 16),
    },
    // a usage that the texture lacks
    Case {
        features: Features::NONE,
        texture: FACES,
        view: TextureViewDescriptor {
            usage: Some(TextureUsages(21)),
            ..WHOLE
        },
        number: 34,
        values: Values::Two(21, 20),
    },
    // the same of a transient attachment
    Case {
        features: Features::NONE,
        texture: TextureDescriptor {
            usage: TextureUsages(48),
            ..IMAGE
        },
        view: TextureViewDescriptor {
            usage: Some(TextureUsages(52)),
            ..WHOLE
        },
        number: 34,
        values: Values::Two(52, 48),
    },
    // the usage comes before the feature
    Case {
        features: Features::NONE,
        texture: FACES,
        view: TextureViewDescriptor {
            format: Some(TextureFormat::Bc1RgbaUnorm),
            usage: Some(TextureUsages(1)),
            ..WHOLE
        },
        number: 34,
        values: Values::Two(1, 20),
    },
    // a format whose feature is off
    Case {
        features: Features::NONE,
        texture: FACES,
        view: TextureViewDescriptor {
            format: Some(TextureFormat::Depth32FloatStencil8),
            ..WHOLE
        },
        number: 12,
        values: Values::One(32),
    },
    // the feature comes before rendering
    Case {
        features: Features::NONE,
        texture: FACES,
        view: TextureViewDescriptor {
            format: Some(TextureFormat::Bc1RgbaUnorm),
            ..WHOLE
        },
        number: 12,
        values: Values::One(1),
    },
    // a format that cannot be rendered to, where the usage is filled in
    Case {
        features: Features(1),
        texture: FACES,
        view: TextureViewDescriptor {
            format: Some(TextureFormat::Bc1RgbaUnorm),
            ..WHOLE
        },
        number: 35,
        values: Values::One(17),
    },
    // a twin that cannot be storage
    Case {
        features: Features::NONE,
        texture: TextureDescriptor {
            usage: TextureUsages(8),
            view_formats: &[TextureFormat::Rgba8UnormSrgb],
            ..IMAGE
        },
        view: TextureViewDescriptor {
            format: Some(TextureFormat::Rgba8UnormSrgb),
            ..WHOLE
        },
        number: 36,
        values: Values::One(4),
    },
    // rendering comes before storage
    Case {
        features: Features(1),
        texture: TextureDescriptor {
            usage: TextureUsages(24),
            ..IMAGE
        },
        view: TextureViewDescriptor {
            format: Some(TextureFormat::Bc1RgbaUnorm),
            ..WHOLE
        },
        number: 35,
        values: Values::One(17),
    },
    // the depth of a colour
    Case {
        features: Features::NONE,
        texture: FACES,
        view: TextureViewDescriptor {
            range: ImageSubresourceRange {
                aspect: TextureAspect::DepthOnly,
                ..WHOLE_RANGE
            },
            ..WHOLE
        },
        number: 37,
        values: Values::Two(3, 2),
    },
    // the stencil of a depth
    Case {
        features: Features::NONE,
        texture: TextureDescriptor {
            format: TextureFormat::Depth16Unorm,
            ..IMAGE
        },
        view: TextureViewDescriptor {
            range: ImageSubresourceRange {
                aspect: TextureAspect::StencilOnly,
                ..WHOLE_RANGE
            },
            ..WHOLE
        },
        number: 37,
        values: Values::Two(11, 3),
    },
    // a plane of a colour
    Case {
        features: Features::NONE,
        texture: FACES,
        view: TextureViewDescriptor {
            range: ImageSubresourceRange {
                aspect: TextureAspect::Plane0,
                ..WHOLE_RANGE
            },
            ..WHOLE
        },
        number: 37,
        values: Values::Two(3, 4),
    },
    // the aspect comes before the format
    Case {
        features: Features::NONE,
        texture: FACES,
        view: TextureViewDescriptor {
            format: Some(TextureFormat::R8Unorm),
            range: ImageSubresourceRange {
                aspect: TextureAspect::Plane1,
                ..WHOLE_RANGE
            },
            ..WHOLE
        },
        number: 37,
        values: Values::Two(3, 5),
    },
    // a twin that was not listed
    Case {
        features: Features::NONE,
        texture: FACES,
        view: TextureViewDescriptor {
            format: Some(TextureFormat::Rgba8UnormSrgb),
            ..WHOLE
        },
        number: 38,
        values: Values::Two(3, 4),
    },
    // a format that is no twin
    Case {
        features: Features::NONE,
        texture: TextureDescriptor {
            view_formats: &[TextureFormat::Rgba8UnormSrgb],
            ..FACES
        },
        view: TextureViewDescriptor {
            format: Some(TextureFormat::Bgra8Unorm),
            ..WHOLE
        },
        number: 38,
        values: Values::Two(3, 5),
    },
    // the stencil in the whole format
    Case {
        features: Features::NONE,
        texture: TextureDescriptor {
            format: TextureFormat::Depth24PlusStencil8,
            ..IMAGE
        },
        view: TextureViewDescriptor {
            format: Some(TextureFormat::Depth24PlusStencil8),
            range: ImageSubresourceRange {
                aspect: TextureAspect::StencilOnly,
                ..WHOLE_RANGE
            },
            ..WHOLE
        },
        number: 38,
        values: Values::Two(15, 15),
    },
    // all aspects in the format of one
    Case {
        features: Features::NONE,
        texture: TextureDescriptor {
            format: TextureFormat::Depth24PlusStencil8,
            ..IMAGE
        },
        view: TextureViewDescriptor {
            format: Some(TextureFormat::Depth24Plus),
            ..WHOLE
        },
        number: 38,
        values: Values::Two(15, 12),
    },
    // a plane in the format of the other
    Case {
        features: Features(64),
        texture: TextureDescriptor {
            format: TextureFormat::NV12,
            usage: TextureUsages(4),
            ..IMAGE
        },
        view: TextureViewDescriptor {
            format: Some(TextureFormat::Rg8Unorm),
            range: ImageSubresourceRange {
                aspect: TextureAspect::Plane0,
                ..WHOLE_RANGE
            },
            ..WHOLE
        },
        number: 38,
        values: Values::Two(22, 2),
    },
    // several samples as an array
    Case {
        features: Features::NONE,
        texture: TextureDescriptor {
            sample_count: 4,
            ..IMAGE
        },
        view: TextureViewDescriptor {
            dimension: Some(TextureViewDimension::D2Array),
            ..WHOLE
        },
        number: 39,
        values: Values::One(3),
    },
    // several samples as cubes on a device with arrays of them
    Case {
        features: Features(128),
        texture: TextureDescriptor {
            sample_count: 4,
            ..IMAGE
        },
        view: TextureViewDescriptor {
            dimension: Some(TextureViewDimension::CubeArray),
            ..WHOLE
        },
        number: 39,
        values: Values::One(5),
    },
    // a 2D texture as a volume
    Case {
        features: Features::NONE,
        texture: FACES,
        view: TextureViewDescriptor {
            dimension: Some(TextureViewDimension::D3),
            ..WHOLE
        },
        number: 40,
        values: Values::Two(6, 2),
    },
    // a 2D texture as a line
    Case {
        features: Features::NONE,
        texture: FACES,
        view: TextureViewDescriptor {
            dimension: Some(TextureViewDimension::D1),
            ..WHOLE
        },
        number: 40,
        values: Values::Two(1, 2),
    },
    // a volume as an array
    Case {
        features: Features::NONE,
        texture: TextureDescriptor {
            dimension: TextureDimension::D3,
            ..FACES
        },
        view: TextureViewDescriptor {
            dimension: Some(TextureViewDimension::D2Array),
            ..WHOLE
        },
        number: 40,
        values: Values::Two(3, 3),
    },
    // a line as a cube
    Case {
        features: Features::NONE,
        texture: TextureDescriptor {
            dimension: TextureDimension::D1,
            usage: TextureUsages(4),
            size: Extent3d {
                width: 64,
                height: 1,
                depth_or_array_layers: 1,
            },
            ..IMAGE
        },
        view: TextureViewDescriptor {
            dimension: Some(TextureViewDimension::Cube),
            ..WHOLE
        },
        number: 40,
        values: Values::Two(4, 1),
    },
    // one image of two layers
    Case {
        features: Features::NONE,
        texture: FACES,
        view: TextureViewDescriptor {
            dimension: Some(TextureViewDimension::D2),
            range: ImageSubresourceRange {
                array_layer_count: Some(2),
                ..WHOLE_RANGE
            },
            ..WHOLE
        },
        number: 41,
        values: Values::Two(2, 2),
    },
    // one image of no layer
    Case {
        features: Features::NONE,
        texture: FACES,
        view: TextureViewDescriptor {
            dimension: Some(TextureViewDimension::D2),
            range: ImageSubresourceRange {
                array_layer_count: Some(0),
                ..WHOLE_RANGE
            },
            ..WHOLE
        },
        number: 41,
        values: Values::Two(0, 2),
    },
    // a volume of six layers
    Case {
        features: Features::NONE,
        texture: TextureDescriptor {
            dimension: TextureDimension::D3,
            ..FACES
        },
        view: TextureViewDescriptor {
            range: ImageSubresourceRange {
                array_layer_count: Some(6),
                ..WHOLE_RANGE
            },
            ..WHOLE
        },
        number: 41,
        values: Values::Two(6, 6),
    },
    // a cube of seven layers
    Case {
        features: Features::NONE,
        texture: FACES,
        view: TextureViewDescriptor {
            dimension: Some(TextureViewDimension::Cube),
            range: ImageSubresourceRange {
                array_layer_count: Some(7),
                ..WHOLE_RANGE
            },
            ..WHOLE
        },
        number: 42,
        values: Values::One(7),
    },
    // a cube of no layer
    Case {
        features: Features::NONE,
        texture: FACES,
        view: TextureViewDescriptor {
            dimension: Some(TextureViewDimension::Cube),
            range: ImageSubresourceRange {
                array_layer_count: Some(0),
                ..WHOLE_RANGE
            },
            ..WHOLE
        },
        number: 42,
        values: Values::One(0),
    },
    // cubes of five layers
    Case {
        features: Features::NONE,
        texture: FACES,
        view: TextureViewDescriptor {
            dimension: Some(TextureViewDimension::CubeArray),
            range: ImageSubresourceRange {
                base_array_layer: 1,
                ..WHOLE_RANGE
            },
            ..WHOLE
        },
        number: 43,
        values: Values::One(5),
    },
    // cubes of eight layers
    Case {
        features: Features::NONE,
        texture: FACES,
        view: TextureViewDescriptor {
            dimension: Some(TextureViewDimension::CubeArray),
            range: ImageSubresourceRange {
                array_layer_count: Some(8),
                ..WHOLE_RANGE
            },
            ..WHOLE
        },
        number: 43,
        values: Values::One(8),
    },
    // a cube of oblong faces
    Case {
        features: Features::NONE,
        texture: TextureDescriptor {
            size: Extent3d {
                width: 64,
                height: 32,
                depth_or_array_layers: 6,
            },
            ..FACES
        },
        view: TextureViewDescriptor {
            dimension: Some(TextureViewDimension::Cube),
            ..WHOLE
        },
        number: 44,
        values: Values::Nothing,
    },
    // cubes of oblong faces, whatever their levels
    Case {
        features: Features::NONE,
        texture: TextureDescriptor {
            size: Extent3d {
                width: 64,
                height: 32,
                depth_or_array_layers: 6,
            },
            ..FACES
        },
        view: TextureViewDescriptor {
            dimension: Some(TextureViewDimension::CubeArray),
            range: ImageSubresourceRange {
                mip_level_count: Some(0),
                ..WHOLE_RANGE
            },
            ..WHOLE
        },
        number: 44,
        values: Values::Nothing,
    },
    // no level
    Case {
        features: Features::NONE,
        texture: FACES,
        view: TextureViewDescriptor {
            range: ImageSubresourceRange {
                mip_level_count: Some(0),
                ..WHOLE_RANGE
            },
            ..WHOLE
        },
        number: 45,
        values: Values::Nothing,
    },
    // no level past the last, where the count is filled in
    Case {
        features: Features::NONE,
        texture: FACES,
        view: TextureViewDescriptor {
            range: ImageSubresourceRange {
                base_mip_level: 7,
                ..WHOLE_RANGE
            },
            ..WHOLE
        },
        number: 45,
        values: Values::Nothing,
    },
    // no level far past the last
    Case {
        features: Features::NONE,
        texture: FACES,
        view: TextureViewDescriptor {
            range: ImageSubresourceRange {
                base_mip_level: u32::MAX,
                ..WHOLE_RANGE
            },
            ..WHOLE
        },
        number: 45,
        values: Values::Nothing,
    },
    // a level too many
    Case {
        features: Features::NONE,
        texture: FACES,
        view: TextureViewDescriptor {
            range: ImageSubresourceRange {
                base_mip_level: 1,
                mip_level_count: Some(7),
                ..WHOLE_RANGE
            },
            ..WHOLE
        },
        number: 46,
        values: Values::Three(1, 7, 7),
    },
    // levels whose end would wrap
    Case {
        features: Features::NONE,
        texture: FACES,
        view: TextureViewDescriptor {
            range: ImageSubresourceRange {
                base_mip_level: u32::MAX,
                mip_level_count: Some(2),
                ..WHOLE_RANGE
            },
            ..WHOLE
        },
        number: 46,
        values: Values::Three(4294967295, 2, 7),
    },
    // levels come before layers
    Case {
        features: Features::NONE,
        texture: FACES,
        view: TextureViewDescriptor {
            range: ImageSubresourceRange {
                base_mip_level: 7,
                mip_level_count: Some(1),
                array_layer_count: Some(0),
                ..WHOLE_RANGE
            },
            ..WHOLE
        },
        number: 46,
        values: Values::Three(7, 1, 7),
    },
    // no layer
    Case {
        features: Features::NONE,
        texture: FACES,
        view: TextureViewDescriptor {
            range: ImageSubresourceRange {
                array_layer_count: Some(0),
                ..WHOLE_RANGE
            },
            ..WHOLE
        },
        number: 47,
        values: Values::Nothing,
    },
    // cubes after the last layer: zero is a multiple of six
    Case {
        features: Features::NONE,
        texture: FACES,
        view: TextureViewDescriptor {
            dimension: Some(TextureViewDimension::CubeArray),
            range: ImageSubresourceRange {
                base_array_layer: 6,
                ..WHOLE_RANGE
            },
            ..WHOLE
        },
        number: 47,
        values: Values::Nothing,
    },
    // an array after the last layer
    Case {
        features: Features::NONE,
        texture: FACES,
        view: TextureViewDescriptor {
            range: ImageSubresourceRange {
                base_array_layer: 6,
                ..WHOLE_RANGE
            },
            ..WHOLE
        },
        number: 47,
        values: Values::Nothing,
    },
    // a cube that begins too late
    Case {
        features: Features::NONE,
        texture: FACES,
        view: TextureViewDescriptor {
            dimension: Some(TextureViewDimension::Cube),
            range: ImageSubresourceRange {
                base_array_layer: 1,
                ..WHOLE_RANGE
            },
            ..WHOLE
        },
        number: 48,
        values: Values::Three(1, 6, 6),
    },
    // one image after the last layer
    Case {
        features: Features::NONE,
        texture: FACES,
        view: TextureViewDescriptor {
            dimension: Some(TextureViewDimension::D2),
            range: ImageSubresourceRange {
                base_array_layer: 6,
                ..WHOLE_RANGE
            },
            ..WHOLE
        },
        number: 48,
        values: Values::Three(6, 1, 6),
    },
    // layers whose end would wrap
    Case {
        features: Features::NONE,
        texture: FACES,
        view: TextureViewDescriptor {
            range: ImageSubresourceRange {
                base_array_layer: 1,
                array_layer_count: Some(u32::MAX),
                ..WHOLE_RANGE
            },
            ..WHOLE
        },
        number: 48,
        values: Values::Three(1, 4294967295, 6),
    },
    // a second layer of a volume
    Case {
        features: Features::NONE,
        texture: TextureDescriptor {
            dimension: TextureDimension::D3,
            ..FACES
        },
        view: TextureViewDescriptor {
            range: ImageSubresourceRange {
                base_array_layer: 1,
                ..WHOLE_RANGE
            },
            ..WHOLE
        },
        number: 48,
        values: Values::Three(1, 1, 1),
    },
];

fn check_case(rt: &impl Abort, case: &Case) -> Result<(), Fail> {
    let device = with_features(case.features);
    let texture = accepted(&device, &case.texture)?;
    let Err(error) = check_view_descriptor(&device, &texture, &case.view) else {
        return Err(Fail::new("a view that breaks a rule is accepted"));
    };
    assert_eq!(rt; error.number(), case.number, "of {:?}", case.view);
    assert_eq!(rt; error.values(), case.values, "of {:?}", case.view);
    Ok(())
}

#[test]
fn each_rule_has_its_number_and_values(rt: HostRuntime) -> Result<(), Fail> {
    for case in &CASES {
        check_case(&rt, case)?;
    }
    Ok(())
}
