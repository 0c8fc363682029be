// Each side against its limit.
use crate::refusal;
use crate::requests::SAMPLED;
use checks::error::TextureErrorDimension as Side;
use types::capabilities::Capabilities;
use types::descriptor::TextureDescriptor;
use types::dimension::TextureDimension;
use types::extent::Extent3d;

struct Limit {
    dimension: TextureDimension,
    side: Side,
    limit: u32,
}

static LIMITS: [Limit; 9] = [
    Limit {
        dimension: TextureDimension::D1,
        side: Side::X,
        limit: 8192,
    },
    Limit {
        dimension: TextureDimension::D1,
        side: Side::Y,
        limit: 1,
    },
    Limit {
        dimension: TextureDimension::D1,
        side: Side::Z,
        limit: 1,
    },
    Limit {
        dimension: TextureDimension::D2,
        side: Side::X,
        limit: 8192,
    },
    Limit {
        dimension: TextureDimension::D2,
        side: Side::Y,
        limit: 8192,
    },
    Limit {
        dimension: TextureDimension::D2,
        side: Side::Z,
        limit: 256,
    },
    Limit {
        dimension: TextureDimension::D3,
        side: Side::X,
        limit: 2048,
    },
    Limit {
        dimension: TextureDimension::D3,
        side: Side::Y,
        limit: 2048,
    },
    Limit {
        dimension: TextureDimension::D3,
        side: Side::Z,
        limit: 2048,
    },
];

// A size of one texel, but for this side.
fn sized(side: Side, length: u32) -> Extent3d {
    let texel = SAMPLED.size;
    match side {
        Side::X => Extent3d {
            width: length,
            ..texel
        },
        Side::Y => Extent3d {
            height: length,
            ..texel
        },
        Side::Z => Extent3d {
            depth_or_array_layers: length,
            ..texel
        },
    }
}

fn refused_at(limit: &Limit, length: u32) -> Option<u32> {
    let desc = TextureDescriptor {
        dimension: limit.dimension,
        size: sized(limit.side, length),
        ..SAMPLED
    };
    refusal(&Capabilities::DEFAULT, &desc)
}

#[test]
fn each_side_has_its_limit(rt: HostRuntime) {
    for limit in &LIMITS {
        let side = limit.side;
        let dimension = limit.dimension;
        assert_eq!(rt; refused_at(limit, 0), Some(4), "{side:?} in {dimension:?}");
        assert_eq!(rt; refused_at(limit, 1), None, "{side:?} in {dimension:?}");
        assert_eq!(rt;
            refused_at(limit, limit.limit),
            None,
            "{side:?} in {dimension:?}"
        );
        assert_eq!(rt;
            refused_at(limit, limit.limit.saturating_add(1)),
            Some(5),
            "{side:?} in {dimension:?}"
        );
        assert_eq!(rt;
            refused_at(limit, u32::MAX),
            Some(5),
            "{side:?} in {dimension:?}"
        );
    }
}
