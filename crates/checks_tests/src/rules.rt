// One request for each rule, with the number and the values that its refusal carries, worked out by hand.
use crate::check_refused;
use crate::requests::SAMPLED;
use checks::refusal::Values;
use std::test::Fail;
use types::capabilities::Capabilities;
use types::descriptor::TextureDescriptor;
use types::dimension::TextureDimension;
use types::downlevel_flags::DownlevelFlags;
use types::extent::Extent3d;
use types::features::Features;
use types::format::TextureFormat;
use types::usages::TextureUsages;

struct Case {
    desc: TextureDescriptor<'static>,
    number: u32,
    values: Values,
}

static CASES: [Case; 35] = [
    Case {
        desc: TextureDescriptor {
            usage: TextureUsages(0),
            ..SAMPLED
        },
        number: 3,
        values: Values::One(0),
    },
    Case {
        desc: TextureDescriptor {
            usage: TextureUsages(0),
            size: Extent3d {
                width: 0,
                height: 1,
                depth_or_array_layers: 1,
            },
            ..SAMPLED
        },
        number: 3,
        values: Values::One(0),
    },
    Case {
        desc: TextureDescriptor {
            size: Extent3d {
                width: 0,
                height: 0,
                depth_or_array_layers: 0,
            },
            ..SAMPLED
        },
        number: 4,
        values: Values::One(1),
    },
    Case {
        desc: TextureDescriptor {
            size: Extent3d {
                width: 1,
                height: 0,
                depth_or_array_layers: 0,
            },
            ..SAMPLED
        },
        number: 4,
        values: Values::One(2),
    },
    Case {
        desc: TextureDescriptor {
            size: Extent3d {
                width: 1,
                height: 1,
                depth_or_array_layers: 0,
            },
            ..SAMPLED
        },
        number: 4,
        values: Values::One(3),
    },
    Case {
        desc: TextureDescriptor {
            size: Extent3d {
                width: 8193,
                height: 0,
                depth_or_array_layers: 1,
            },
            ..SAMPLED
        },
        number: 5,
        values: Values::Three(1, 8193, 8192),
    },
    Case {
        desc: TextureDescriptor {
            size: Extent3d {
                width: 1,
                height: 1,
                depth_or_array_layers: 257,
            },
            ..SAMPLED
        },
        number: 5,
        values: Values::Three(3, 257, 256),
    },
    Case {
        desc: TextureDescriptor {
            sample_count: 3,
            ..SAMPLED
        },
        number: 6,
        values: Values::One(3),
    },
    Case {
        desc: TextureDescriptor {
            dimension: TextureDimension::D3,
            format: TextureFormat::Depth16Unorm,
            usage: TextureUsages(48),
            ..SAMPLED
        },
        number: 7,
        values: Values::Two(3, 11),
    },
    Case {
        desc: TextureDescriptor {
            dimension: TextureDimension::D3,
            usage: TextureUsages(48),
            ..SAMPLED
        },
        number: 8,
        values: Values::Two(32, 3),
    },
    Case {
        desc: TextureDescriptor {
            dimension: TextureDimension::D1,
            usage: TextureUsages(48),
            ..SAMPLED
        },
        number: 8,
        values: Values::Two(32, 1),
    },
    Case {
        desc: TextureDescriptor {
            dimension: TextureDimension::D1,
            usage: TextureUsages(16),
            ..SAMPLED
        },
        number: 8,
        values: Values::Two(16, 1),
    },
    Case {
        desc: TextureDescriptor {
            dimension: TextureDimension::D1,
            format: TextureFormat::Bc1RgbaUnorm,
            usage: TextureUsages(16),
            ..SAMPLED
        },
        number: 9,
        values: Values::Two(1, 17),
    },
    Case {
        desc: TextureDescriptor {
            size: Extent3d {
                width: 5,
                height: 5,
                depth_or_array_layers: 1,
            },
            format: TextureFormat::Bc1RgbaUnorm,
            ..SAMPLED
        },
        number: 10,
        values: Values::Three(5, 4, 17),
    },
    Case {
        desc: TextureDescriptor {
            size: Extent3d {
                width: 8,
                height: 4,
                depth_or_array_layers: 1,
            },
            format: TextureFormat::Astc8x5Unorm,
            ..SAMPLED
        },
        number: 11,
        values: Values::Three(4, 5, 20),
    },
    Case {
        desc: TextureDescriptor {
            dimension: TextureDimension::D3,
            size: Extent3d {
                width: 4,
                height: 4,
                depth_or_array_layers: 1,
            },
            format: TextureFormat::Bc1RgbaUnormSrgb,
            ..SAMPLED
        },
        number: 12,
        values: Values::Two(18, 2),
    },
    Case {
        desc: TextureDescriptor {
            dimension: TextureDimension::D3,
            size: Extent3d {
                width: 8,
                height: 5,
                depth_or_array_layers: 1,
            },
            format: TextureFormat::Astc8x5UnormSrgb,
            ..SAMPLED
        },
        number: 12,
        values: Values::Two(21, 16),
    },
    Case {
        desc: TextureDescriptor {
            dimension: TextureDimension::D3,
            size: Extent3d {
                width: 4,
                height: 4,
                depth_or_array_layers: 1,
            },
            format: TextureFormat::EacR11Unorm,
            ..SAMPLED
        },
        number: 9,
        values: Values::Two(3, 19),
    },
    Case {
        desc: TextureDescriptor {
            size: Extent3d {
                width: 2,
                height: 2,
                depth_or_array_layers: 1,
            },
            mip_level_count: 3,
            ..SAMPLED
        },
        number: 13,
        values: Values::Two(3, 2),
    },
    Case {
        desc: TextureDescriptor {
            size: Extent3d {
                width: 3,
                height: 3,
                depth_or_array_layers: 1,
            },
            format: TextureFormat::NV12,
            ..SAMPLED
        },
        number: 14,
        values: Values::Three(3, 2, 22),
    },
    Case {
        desc: TextureDescriptor {
            size: Extent3d {
                width: 6,
                height: 4,
                depth_or_array_layers: 1,
            },
            mip_level_count: 2,
            format: TextureFormat::NV12,
            ..SAMPLED
        },
        number: 14,
        values: Values::Three(6, 4, 22),
    },
    Case {
        desc: TextureDescriptor {
            size: Extent3d {
                width: 2,
                height: 3,
                depth_or_array_layers: 1,
            },
            format: TextureFormat::NV12,
            ..SAMPLED
        },
        number: 15,
        values: Values::Three(3, 2, 22),
    },
    Case {
        desc: TextureDescriptor {
            size: Extent3d {
                width: 2,
                height: 2,
                depth_or_array_layers: 1,
            },
            mip_level_count: 2,
            usage: TextureUsages(33),
            ..SAMPLED
        },
        number: 16,
        values: Values::One(33),
    },
    Case {
        desc: TextureDescriptor {
            size: Extent3d {
                width: 2,
                height: 2,
                depth_or_array_layers: 2,
            },
            mip_level_count: 2,
            usage: TextureUsages(48),
            ..SAMPLED
        },
        number: 17,
        values: Values::One(2),
    },
    Case {
        desc: TextureDescriptor {
            size: Extent3d {
                width: 1,
                height: 1,
                depth_or_array_layers: 2,
            },
            usage: TextureUsages(48),
            view_formats: &[TextureFormat::Rgba8Unorm],
            ..SAMPLED
        },
        number: 18,
        values: Values::One(2),
    },
    Case {
        desc: TextureDescriptor {
            usage: TextureUsages(48),
            view_formats: &[TextureFormat::Rgba8Unorm],
            ..SAMPLED
        },
        number: 19,
        values: Values::Nothing,
    },
    Case {
        desc: TextureDescriptor {
            size: Extent3d {
                width: 4,
                height: 4,
                depth_or_array_layers: 1,
            },
            format: TextureFormat::EacR11Unorm,
            usage: TextureUsages(16),
            ..SAMPLED
        },
        number: 12,
        values: Values::Two(19, 4),
    },
    Case {
        desc: TextureDescriptor {
            size: Extent3d {
                width: 2,
                height: 2,
                depth_or_array_layers: 2,
            },
            mip_level_count: 2,
            sample_count: 4,
            ..SAMPLED
        },
        number: 13,
        values: Values::Two(2, 1),
    },
    Case {
        desc: TextureDescriptor {
            size: Extent3d {
                width: 1,
                height: 1,
                depth_or_array_layers: 3,
            },
            sample_count: 4,
            usage: TextureUsages(24),
            ..SAMPLED
        },
        number: 20,
        values: Values::One(3),
    },
    Case {
        desc: TextureDescriptor {
            sample_count: 4,
            usage: TextureUsages(8),
            ..SAMPLED
        },
        number: 21,
        values: Values::Nothing,
    },
    Case {
        desc: TextureDescriptor {
            sample_count: 4,
            format: TextureFormat::R32Uint,
            ..SAMPLED
        },
        number: 22,
        values: Values::Nothing,
    },
    Case {
        desc: TextureDescriptor {
            sample_count: 2,
            format: TextureFormat::R32Uint,
            usage: TextureUsages(16),
            ..SAMPLED
        },
        number: 23,
        values: Values::One(7),
    },
    Case {
        desc: TextureDescriptor {
            sample_count: 16,
            usage: TextureUsages(80),
            ..SAMPLED
        },
        number: 24,
        values: Values::Three(16, 3, 5),
    },
    Case {
        desc: TextureDescriptor {
            format: TextureFormat::Bgra8Unorm,
            usage: TextureUsages(76),
            ..SAMPLED
        },
        number: 25,
        values: Values::Three(72, 5, 0),
    },
    Case {
        desc: TextureDescriptor {
            view_formats: &[
                TextureFormat::Rgba8Unorm,
                TextureFormat::Bgra8Unorm,
                TextureFormat::R8Unorm,
            ],
            ..SAMPLED
        },
        number: 26,
        values: Values::Two(5, 3),
    },
];

#[test]
fn each_rule_has_its_number_and_values(rt: HostRuntime) -> Result<(), Fail> {
    for case in &CASES {
        check_refused(
            &rt,
            &Capabilities::DEFAULT,
            &case.desc,
            case.number,
            case.values,
        )?;
    }
    Ok(())
}

#[test]
fn a_listed_twin_needs_the_flag(rt: HostRuntime) -> Result<(), Fail> {
    let bare = Capabilities {
        downlevel_flags: DownlevelFlags(0),
        ..Capabilities::DEFAULT
    };
    let desc = TextureDescriptor {
        view_formats: &[TextureFormat::Rgba8UnormSrgb],
        ..SAMPLED
    };
    check_refused(&rt, &bare, &desc, 27, Values::One(1))
}

#[test]
fn planes_decide_the_usage_of_nv12(rt: HostRuntime) -> Result<(), Fail> {
    let device = Capabilities {
        features: Features(64),
        ..Capabilities::DEFAULT
    };
    let size = Extent3d {
        width: 2,
        height: 2,
        depth_or_array_layers: 1,
    };
    let desc = TextureDescriptor {
        size,
        format: TextureFormat::NV12,
        ..SAMPLED
    };
    check_refused(
        &rt,
        &device,
        &TextureDescriptor {
            usage: TextureUsages(28),
            ..desc
        },
        25,
        Values::Three(8, 22, 0),
    )
}
