// The table of formats, one row for each, in the order of the formats' codes.
ghost use Rattle.std.specs.Prelude.{◌≡◌};
ghost use Rattle.types.specs.Laws.{RowLaw};
ghost use Rattle.types.specs.Row.{row_of};
ghost use Rattle.types.specs.declared.format.TextureFormat.{TextureFormat};

use crate::aspect::FormatAspects;
use crate::features::Features;
use crate::format::TextureFormat;
use crate::format_features::{TextureFormatFeatureFlags as Flags, TextureFormatFeatures};
use crate::format_row::FormatRow;
use crate::usages::TextureUsages;

// What every format allows but the planar one; what can be an attachment besides; what can be storage too.
const BASIC: TextureUsages = TextureUsages(
    TextureUsages::COPY_SRC.0 | TextureUsages::COPY_DST.0 | TextureUsages::TEXTURE_BINDING.0,
);

const ATTACHMENT: TextureUsages = TextureUsages(
    BASIC.0 | TextureUsages::RENDER_ATTACHMENT.0 | TextureUsages::TRANSIENT_ATTACHMENT.0,
);

const STORAGE: TextureUsages = TextureUsages(ATTACHMENT.0 | TextureUsages::STORAGE_BINDING.0);

// Storage that a shader either reads or writes, and storage that it can do both with.
const ONE_ACCESS: Flags = Flags(Flags::STORAGE_READ_ONLY.0 | Flags::STORAGE_WRITE_ONLY.0);

const ANY_ACCESS: Flags = Flags(ONE_ACCESS.0 | Flags::STORAGE_READ_WRITE.0);

const FORMATS: [FormatRow; 22] = [
    // R8Unorm
    FormatRow {
        aspects: FormatAspects::COLOR,
        block_width: 1,
        block_height: 1,
        twin: None,
        required_features: Features::NONE,
        guaranteed: TextureFormatFeatures {
            allowed_usages: ATTACHMENT,
            flags: Flags::MULTISAMPLE_X4,
        },
    },
    // Rg8Unorm
    FormatRow {
        aspects: FormatAspects::COLOR,
        block_width: 1,
        block_height: 1,
        twin: None,
        required_features: Features::NONE,
        guaranteed: TextureFormatFeatures {
            allowed_usages: ATTACHMENT,
            flags: Flags::MULTISAMPLE_X4,
        },
    },
    // Rgba8Unorm
    FormatRow {
        aspects: FormatAspects::COLOR,
        block_width: 1,
        block_height: 1,
        twin: Some(TextureFormat::Rgba8UnormSrgb),
        required_features: Features::NONE,
        guaranteed: TextureFormatFeatures {
            allowed_usages: STORAGE,
            flags: Flags(Flags::MULTISAMPLE_X4.0 | ONE_ACCESS.0),
        },
    },
    // Rgba8UnormSrgb
    FormatRow {
        aspects: FormatAspects::COLOR,
        block_width: 1,
        block_height: 1,
        twin: Some(TextureFormat::Rgba8Unorm),
        required_features: Features::NONE,
        guaranteed: TextureFormatFeatures {
            allowed_usages: ATTACHMENT,
            flags: Flags::MULTISAMPLE_X4,
        },
    },
    // Bgra8Unorm
    FormatRow {
        aspects: FormatAspects::COLOR,
        block_width: 1,
        block_height: 1,
        twin: Some(TextureFormat::Bgra8UnormSrgb),
        required_features: Features::NONE,
        guaranteed: TextureFormatFeatures {
            allowed_usages: ATTACHMENT,
            flags: Flags::MULTISAMPLE_X4,
        },
    },
    // Bgra8UnormSrgb
    FormatRow {
        aspects: FormatAspects::COLOR,
        block_width: 1,
        block_height: 1,
        twin: Some(TextureFormat::Bgra8Unorm),
        required_features: Features::NONE,
        guaranteed: TextureFormatFeatures {
            allowed_usages: ATTACHMENT,
            flags: Flags::MULTISAMPLE_X4,
        },
    },
    // R32Uint
    FormatRow {
        aspects: FormatAspects::COLOR,
        block_width: 1,
        block_height: 1,
        twin: None,
        required_features: Features::NONE,
        guaranteed: TextureFormatFeatures {
            allowed_usages: STORAGE,
            flags: ANY_ACCESS,
        },
    },
    // R32Float
    FormatRow {
        aspects: FormatAspects::COLOR,
        block_width: 1,
        block_height: 1,
        twin: None,
        required_features: Features::NONE,
        guaranteed: TextureFormatFeatures {
            allowed_usages: STORAGE,
            flags: Flags(Flags::MULTISAMPLE_X4.0 | ANY_ACCESS.0),
        },
    },
    // Rgba16Float
    FormatRow {
        aspects: FormatAspects::COLOR,
        block_width: 1,
        block_height: 1,
        twin: None,
        required_features: Features::NONE,
        guaranteed: TextureFormatFeatures {
            allowed_usages: STORAGE,
            flags: Flags(Flags::MULTISAMPLE_X4.0 | ONE_ACCESS.0),
        },
    },
    // Rgba32Float
    FormatRow {
        aspects: FormatAspects::COLOR,
        block_width: 1,
        block_height: 1,
        twin: None,
        required_features: Features::NONE,
        guaranteed: TextureFormatFeatures {
            allowed_usages: STORAGE,
            flags: ONE_ACCESS,
        },
    },
    // Depth16Unorm
    FormatRow {
        aspects: FormatAspects::DEPTH,
        block_width: 1,
        block_height: 1,
        twin: None,
        required_features: Features::NONE,
        guaranteed: TextureFormatFeatures {
            allowed_usages: ATTACHMENT,
            flags: Flags::MULTISAMPLE_X4,
        },
    },
    // Depth24Plus
    FormatRow {
        aspects: FormatAspects::DEPTH,
        block_width: 1,
        block_height: 1,
        twin: None,
        required_features: Features::NONE,
        guaranteed: TextureFormatFeatures {
            allowed_usages: ATTACHMENT,
            flags: Flags::MULTISAMPLE_X4,
        },
    },
    // Depth32Float
    FormatRow {
        aspects: FormatAspects::DEPTH,
        block_width: 1,
        block_height: 1,
        twin: None,
        required_features: Features::NONE,
        guaranteed: TextureFormatFeatures {
            allowed_usages: ATTACHMENT,
            flags: Flags::MULTISAMPLE_X4,
        },
    },
    // Stencil8
    FormatRow {
        aspects: FormatAspects::STENCIL,
        block_width: 1,
        block_height: 1,
        twin: None,
        required_features: Features::NONE,
        guaranteed: TextureFormatFeatures {
            allowed_usages: ATTACHMENT,
            flags: Flags::MULTISAMPLE_X4,
        },
    },
    // Depth24PlusStencil8
    FormatRow {
        aspects: FormatAspects(FormatAspects::DEPTH.0 | FormatAspects::STENCIL.0),
        block_width: 1,
        block_height: 1,
        twin: None,
        required_features: Features::NONE,
        guaranteed: TextureFormatFeatures {
            allowed_usages: ATTACHMENT,
            flags: Flags::MULTISAMPLE_X4,
        },
    },
    // Depth32FloatStencil8
    FormatRow {
        aspects: FormatAspects(FormatAspects::DEPTH.0 | FormatAspects::STENCIL.0),
        block_width: 1,
        block_height: 1,
        twin: None,
        required_features: Features::DEPTH32FLOAT_STENCIL8,
        guaranteed: TextureFormatFeatures {
            allowed_usages: ATTACHMENT,
            flags: Flags::MULTISAMPLE_X4,
        },
    },
    // Bc1RgbaUnorm
    FormatRow {
        aspects: FormatAspects::COLOR,
        block_width: 4,
        block_height: 4,
        twin: Some(TextureFormat::Bc1RgbaUnormSrgb),
        required_features: Features::TEXTURE_COMPRESSION_BC,
        guaranteed: TextureFormatFeatures {
            allowed_usages: BASIC,
            flags: Flags::NONE,
        },
    },
    // Bc1RgbaUnormSrgb
    FormatRow {
        aspects: FormatAspects::COLOR,
        block_width: 4,
        block_height: 4,
        twin: Some(TextureFormat::Bc1RgbaUnorm),
        required_features: Features::TEXTURE_COMPRESSION_BC,
        guaranteed: TextureFormatFeatures {
            allowed_usages: BASIC,
            flags: Flags::NONE,
        },
    },
    // EacR11Unorm
    FormatRow {
        aspects: FormatAspects::COLOR,
        block_width: 4,
        block_height: 4,
        twin: None,
        required_features: Features::TEXTURE_COMPRESSION_ETC2,
        guaranteed: TextureFormatFeatures {
            allowed_usages: BASIC,
            flags: Flags::NONE,
        },
    },
    // Astc8x5Unorm
    FormatRow {
        aspects: FormatAspects::COLOR,
        block_width: 8,
        block_height: 5,
        twin: Some(TextureFormat::Astc8x5UnormSrgb),
        required_features: Features::TEXTURE_COMPRESSION_ASTC,
        guaranteed: TextureFormatFeatures {
            allowed_usages: BASIC,
            flags: Flags::NONE,
        },
    },
    // Astc8x5UnormSrgb
    FormatRow {
        aspects: FormatAspects::COLOR,
        block_width: 8,
        block_height: 5,
        twin: Some(TextureFormat::Astc8x5Unorm),
        required_features: Features::TEXTURE_COMPRESSION_ASTC,
        guaranteed: TextureFormatFeatures {
            allowed_usages: BASIC,
            flags: Flags::NONE,
        },
    },
    // NV12
    FormatRow {
        aspects: FormatAspects(FormatAspects::PLANE_0.0 | FormatAspects::PLANE_1.0),
        block_width: 1,
        block_height: 1,
        twin: None,
        required_features: Features::TEXTURE_FORMAT_NV12,
        guaranteed: TextureFormatFeatures {
            allowed_usages: TextureUsages::TEXTURE_BINDING,
            flags: Flags::NONE,
        },
    },
];

// One constant table, so that the rows stand below one another as in the documents that they are taken from.
impl TextureFormat {
    pub fn row(self) -> &'static FormatRow
        ensures { result.now ≡ row_of self }
    {
        &FORMATS[u32::from(self) as usize - 1]
    }
}

// A theorem: what holds of every row.
pub fn rows_agree()
    ensures { (format : TextureFormat) → RowLaw format }
{}
