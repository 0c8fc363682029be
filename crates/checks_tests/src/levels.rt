// The level count: the binary digits of the largest side, and depth is a side in 3D alone.
use crate::refusal;
use crate::requests::SAMPLED;
use types::capabilities::Capabilities;
use types::descriptor::TextureDescriptor;
use types::dimension::TextureDimension;
use types::extent::Extent3d;
use types::limits::Limits;

const WIDE: Capabilities = Capabilities {
    limits: Limits {
        max_texture_dimension_1d: 65535,
        max_texture_dimension_2d: 65535,
        max_texture_dimension_3d: 65535,
        max_texture_array_layers: 2048,
    },
    ..Capabilities::DEFAULT
};

struct Case {
    dimension: TextureDimension,
    size: Extent3d,
    maximum: u32,
}

static CASES: [Case; 8] = [
    Case {
        dimension: TextureDimension::D1,
        size: Extent3d {
            width: 8192,
            height: 1,
            depth_or_array_layers: 1,
        },
        maximum: 1,
    },
    Case {
        dimension: TextureDimension::D2,
        size: Extent3d {
            width: 1,
            height: 1,
            depth_or_array_layers: 256,
        },
        maximum: 1,
    },
    Case {
        dimension: TextureDimension::D2,
        size: Extent3d {
            width: 2,
            height: 3,
            depth_or_array_layers: 64,
        },
        maximum: 2,
    },
    Case {
        dimension: TextureDimension::D2,
        size: Extent3d {
            width: 8192,
            height: 1,
            depth_or_array_layers: 1,
        },
        maximum: 14,
    },
    Case {
        dimension: TextureDimension::D2,
        size: Extent3d {
            width: 1,
            height: 8191,
            depth_or_array_layers: 1,
        },
        maximum: 13,
    },
    Case {
        dimension: TextureDimension::D3,
        size: Extent3d {
            width: 64,
            height: 32,
            depth_or_array_layers: 2048,
        },
        maximum: 12,
    },
    Case {
        dimension: TextureDimension::D2,
        size: Extent3d {
            width: 65535,
            height: 7,
            depth_or_array_layers: 1,
        },
        maximum: 16,
    },
    Case {
        dimension: TextureDimension::D2,
        size: Extent3d {
            width: 32767,
            height: 7,
            depth_or_array_layers: 1,
        },
        maximum: 15,
    },
];

fn refused_at(case: &Case, levels: u32) -> Option<u32> {
    let desc = TextureDescriptor {
        dimension: case.dimension,
        size: case.size,
        mip_level_count: levels,
        ..SAMPLED
    };
    refusal(&WIDE, &desc)
}

#[test]
fn levels_end_at_the_last_digit(rt: HostRuntime) {
    for case in &CASES {
        let size = case.size;
        assert_eq!(rt; refused_at(case, 0), Some(13), "{size:?}");
        assert_eq!(rt; refused_at(case, 1), None, "{size:?}");
        assert_eq!(rt; refused_at(case, case.maximum), None, "{size:?}");
        assert_eq!(rt;
            refused_at(case, case.maximum.saturating_add(1)),
            Some(13),
            "{size:?}"
        );
        assert_eq!(rt; refused_at(case, u32::MAX), Some(13), "{size:?}");
    }
}
