// The texture formats that the broker knows, under wgpu's names.
ghost use Rattle.std.specs.Prelude.{◌≡◌};
ghost use Rattle.types.specs.Code.{Decodes};
ghost use Rattle.types.specs.Format.{code_of, same_format};
ghost use Rattle.types.specs.declared.format.TextureFormat.{TextureFormat as Format};

use crate::code::UnknownCode;

// The numbers are the formats' codes: their places in the table of rows, counted from 1.
#[derive(Clone, Copy, Debug, PartialEq, Eq)]
pub enum TextureFormat {
    R8Unorm = 1,
    Rg8Unorm = 2,
    Rgba8Unorm = 3,
    Rgba8UnormSrgb = 4,
    Bgra8Unorm = 5,
    Bgra8UnormSrgb = 6,
    R32Uint = 7,
    R32Float = 8,
    Rgba16Float = 9,
    Rgba32Float = 10,
    Depth16Unorm = 11,
    Depth24Plus = 12,
    Depth32Float = 13,
    Stencil8 = 14,
    Depth24PlusStencil8 = 15,
    Depth32FloatStencil8 = 16,
    Bc1RgbaUnorm = 17,
    Bc1RgbaUnormSrgb = 18,
    EacR11Unorm = 19,
    Astc8x5Unorm = 20,
    Astc8x5UnormSrgb = 21,
    NV12 = 22,
}

impl From<TextureFormat> for u32 {
    ghost from_gives = { λ format code. code ≡ code_of format };

    fn from(format: TextureFormat) -> u32 {
        format as u32
    }
}

impl TryFrom<u32> for TextureFormat {
    type Error = UnknownCode;

    ghost try_from_gives = { Decodes code_of };

    fn try_from(code: u32) -> Result<TextureFormat, UnknownCode> {
        match code {
            1 => Ok(TextureFormat::R8Unorm),
            2 => Ok(TextureFormat::Rg8Unorm),
            3 => Ok(TextureFormat::Rgba8Unorm),
            4 => Ok(TextureFormat::Rgba8UnormSrgb),
            5 => Ok(TextureFormat::Bgra8Unorm),
            6 => Ok(TextureFormat::Bgra8UnormSrgb),
            7 => Ok(TextureFormat::R32Uint),
            8 => Ok(TextureFormat::R32Float),
            9 => Ok(TextureFormat::Rgba16Float),
            10 => Ok(TextureFormat::Rgba32Float),
            11 => Ok(TextureFormat::Depth16Unorm),
            12 => Ok(TextureFormat::Depth24Plus),
            13 => Ok(TextureFormat::Depth32Float),
            14 => Ok(TextureFormat::Stencil8),
            15 => Ok(TextureFormat::Depth24PlusStencil8),
            16 => Ok(TextureFormat::Depth32FloatStencil8),
            17 => Ok(TextureFormat::Bc1RgbaUnorm),
            18 => Ok(TextureFormat::Bc1RgbaUnormSrgb),
            19 => Ok(TextureFormat::EacR11Unorm),
            20 => Ok(TextureFormat::Astc8x5Unorm),
            21 => Ok(TextureFormat::Astc8x5UnormSrgb),
            22 => Ok(TextureFormat::NV12),
            _ => Err(UnknownCode(code)),
        }
    }
}

// A theorem: two formats are equal where their codes are.
pub fn equal_by_code()
    ensures { (a b : Format) → ⟦<TextureFormat as PartialEq>⟧.eq a b ≡ same_format a b }
{}
