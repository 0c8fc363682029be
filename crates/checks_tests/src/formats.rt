// Every format in every dimension with every usage.
use crate::refusal;
use crate::requests::SAMPLED;
use types::capabilities::Capabilities;
use types::descriptor::TextureDescriptor;
use types::dimension::TextureDimension;
use types::extent::Extent3d;
use types::features::Features;
use types::format::TextureFormat;
use types::usages::TextureUsages;

// The usages that a format allows, and the feature that it needs. A planar format allows what its planes do.
struct Row {
    format: TextureFormat,
    usages: TextureUsages,
    needs: Features,
}

static ROWS: [Row; 22] = [
    Row {
        format: TextureFormat::R8Unorm,
        usages: TextureUsages(55),
        needs: Features::NONE,
    },
    Row {
        format: TextureFormat::Rg8Unorm,
        usages: TextureUsages(55),
        needs: Features::NONE,
    },
    Row {
        format: TextureFormat::Rgba8Unorm,
        usages: TextureUsages(63),
        needs: Features::NONE,
    },
    Row {
        format: TextureFormat::Rgba8UnormSrgb,
        usages: TextureUsages(55),
        needs: Features::NONE,
    },
    Row {
        format: TextureFormat::Bgra8Unorm,
        usages: TextureUsages(55),
        needs: Features::NONE,
    },
    Row {
        format: TextureFormat::Bgra8UnormSrgb,
        usages: TextureUsages(55),
        needs: Features::NONE,
    },
    Row {
        format: TextureFormat::R32Uint,
        usages: TextureUsages(63),
        needs: Features::NONE,
    },
    Row {
        format: TextureFormat::R32Float,
        usages: TextureUsages(63),
        needs: Features::NONE,
    },
    Row {
        format: TextureFormat::Rgba16Float,
        usages: TextureUsages(63),
        needs: Features::NONE,
    },
    Row {
        format: TextureFormat::Rgba32Float,
        usages: TextureUsages(63),
        needs: Features::NONE,
    },
    Row {
        format: TextureFormat::Depth16Unorm,
        usages: TextureUsages(55),
        needs: Features::NONE,
    },
    Row {
        format: TextureFormat::Depth24Plus,
        usages: TextureUsages(55),
        needs: Features::NONE,
    },
    Row {
        format: TextureFormat::Depth32Float,
        usages: TextureUsages(55),
        needs: Features::NONE,
    },
    Row {
        format: TextureFormat::Stencil8,
        usages: TextureUsages(55),
        needs: Features::NONE,
    },
    Row {
        format: TextureFormat::Depth24PlusStencil8,
        usages: TextureUsages(55),
        needs: Features::NONE,
    },
    Row {
        format: TextureFormat::Depth32FloatStencil8,
        usages: TextureUsages(55),
        needs: Features(32),
    },
    Row {
        format: TextureFormat::Bc1RgbaUnorm,
        usages: TextureUsages(7),
        needs: Features(1),
    },
    Row {
        format: TextureFormat::Bc1RgbaUnormSrgb,
        usages: TextureUsages(7),
        needs: Features(1),
    },
    Row {
        format: TextureFormat::EacR11Unorm,
        usages: TextureUsages(7),
        needs: Features(4),
    },
    Row {
        format: TextureFormat::Astc8x5Unorm,
        usages: TextureUsages(7),
        needs: Features(8),
    },
    Row {
        format: TextureFormat::Astc8x5UnormSrgb,
        usages: TextureUsages(7),
        needs: Features(8),
    },
    Row {
        format: TextureFormat::NV12,
        usages: TextureUsages(55),
        needs: Features(64),
    },
];

static USAGES: [TextureUsages; 8] = [
    TextureUsages(1),
    TextureUsages(2),
    TextureUsages(4),
    TextureUsages(8),
    TextureUsages(16),
    TextureUsages(32),
    TextureUsages(64),
    TextureUsages(128),
];

const ALL_FEATURES: Capabilities = Capabilities {
    features: Features(511),
    ..Capabilities::DEFAULT
};

// Sides that hold whole blocks of every format.
const LINE: TextureDescriptor<'static> = TextureDescriptor {
    size: Extent3d {
        width: 40,
        height: 1,
        depth_or_array_layers: 1,
    },
    dimension: TextureDimension::D1,
    ..SAMPLED
};

const SQUARE: TextureDescriptor<'static> = TextureDescriptor {
    size: Extent3d {
        width: 40,
        height: 40,
        depth_or_array_layers: 1,
    },
    ..SAMPLED
};

const CUBE: TextureDescriptor<'static> = TextureDescriptor {
    dimension: TextureDimension::D3,
    ..SQUARE
};

// The refusals with every feature, by the first rule that a request breaks.

fn in_1d(format: TextureFormat, usage: TextureUsages) -> Option<u32> {
    match usage {
        TextureUsages(128) => Some(3),
        _ if has_depth_or_stencil(format) => Some(7),
        TextureUsages(32) => Some(8),
        _ if is_in_blocks(format) => Some(9),
        TextureUsages(16) => Some(8),
        // one row of texels is no multiple of two
        _ if format == TextureFormat::NV12 => Some(15),
        _ => None,
    }
}

fn in_2d(usage: TextureUsages) -> Option<u32> {
    match usage {
        TextureUsages(128) => Some(3),
        TextureUsages(32) => Some(16),
        _ => None,
    }
}

fn in_3d(format: TextureFormat, usage: TextureUsages) -> Option<u32> {
    match usage {
        TextureUsages(128) => Some(3),
        _ if has_depth_or_stencil(format) => Some(7),
        TextureUsages(32) => Some(8),
        // no feature slices it
        _ if format == TextureFormat::EacR11Unorm => Some(9),
        _ => None,
    }
}

// What is not refused for its dimension may still be refused for its usage.
fn by_usage(row: &Row, usage: TextureUsages, refused: Option<u32>) -> Option<u32> {
    if refused.is_none() && row.usages.0 & usage.0 == 0 {
        Some(25)
    } else {
        refused
    }
}

fn has_depth_or_stencil(format: TextureFormat) -> bool {
    matches!(
        format,
        TextureFormat::Depth16Unorm
            | TextureFormat::Depth24Plus
            | TextureFormat::Depth32Float
            | TextureFormat::Stencil8
            | TextureFormat::Depth24PlusStencil8
            | TextureFormat::Depth32FloatStencil8
    )
}

fn is_in_blocks(format: TextureFormat) -> bool {
    matches!(
        format,
        TextureFormat::Bc1RgbaUnorm
            | TextureFormat::Bc1RgbaUnormSrgb
            | TextureFormat::EacR11Unorm
            | TextureFormat::Astc8x5Unorm
            | TextureFormat::Astc8x5UnormSrgb
    )
}

fn refused_in(
    base: &TextureDescriptor,
    format: TextureFormat,
    usage: TextureUsages,
) -> Option<u32> {
    let desc = TextureDescriptor {
        format,
        usage,
        ..*base
    };
    refusal(&ALL_FEATURES, &desc)
}

// A format's code is the number of its row, from 1 on.
#[test]
fn every_code(rt: HostRuntime) {
    for (place, row) in ROWS.iter().enumerate() {
        let code = u32::from(row.format);
        assert_eq!(rt;
            code as usize,
            place.saturating_add(1),
            "of {:?}",
            row.format
        );
    }
}

#[test]
fn every_format_dimension_and_usage(rt: HostRuntime) {
    for row in &ROWS {
        let format = row.format;
        for usage in &USAGES {
            let usage = *usage;
            assert_eq!(rt;
                refused_in(&LINE, format, usage),
                by_usage(row, usage, in_1d(format, usage)),
                "{format:?} in 1D with {usage:?}"
            );
            assert_eq!(rt;
                refused_in(&SQUARE, format, usage),
                by_usage(row, usage, in_2d(usage)),
                "{format:?} in 2D with {usage:?}"
            );
            assert_eq!(rt;
                refused_in(&CUBE, format, usage),
                by_usage(row, usage, in_3d(format, usage)),
                "{format:?} in 3D with {usage:?}"
            );
        }
    }
}

#[test]
fn every_needed_feature(rt: HostRuntime) {
    for row in &ROWS {
        let desc = TextureDescriptor {
            format: row.format,
            ..SQUARE
        };
        let needed = Capabilities {
            features: row.needs,
            ..Capabilities::DEFAULT
        };
        assert_eq!(rt; refusal(&needed, &desc), None, "{:?}", row.format);
        let others = Capabilities {
            features: Features(511 ^ row.needs.0),
            ..Capabilities::DEFAULT
        };
        assert_eq!(rt;
            refusal(&others, &desc),
            if row.needs.0 == 0 { None } else { Some(12) },
            "{:?}",
            row.format
        );
    }
}
