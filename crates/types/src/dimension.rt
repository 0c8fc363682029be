// How many dimensions a texture or a view of one has.
ghost use Rattle.std.specs.Prelude.{◌≡◌};
ghost use Rattle.types.specs.Code.{Decodes};
ghost use Rattle.types.specs.Dimension.{dimension_code, texture_dimension, view_dimension_code};

use crate::code::UnknownCode;

#[derive(Clone, Copy, Debug, PartialEq, Eq)]
pub enum TextureDimension {
    D1,
    D2,
    D3,
}

// The number of dimensions.
impl From<TextureDimension> for u32 {
    ghost from_gives = { λ dimension code. code ≡ dimension_code dimension };

    fn from(dimension: TextureDimension) -> u32 {
        match dimension {
            TextureDimension::D1 => 1,
            TextureDimension::D2 => 2,
            TextureDimension::D3 => 3,
        }
    }
}

impl TryFrom<u32> for TextureDimension {
    type Error = UnknownCode;

    ghost try_from_gives = { Decodes dimension_code };

    fn try_from(code: u32) -> Result<TextureDimension, UnknownCode> {
        match code {
            1 => Ok(TextureDimension::D1),
            2 => Ok(TextureDimension::D2),
            3 => Ok(TextureDimension::D3),
            _ => Err(UnknownCode(code)),
        }
    }
}

#[derive(Clone, Copy, Debug, PartialEq, Eq)]
pub enum TextureViewDimension {
    D1,
    D2,
    D2Array,
    Cube,
    CubeArray,
    D3,
}

impl TextureViewDimension {
    // The dimension of the textures that can be viewed so.
    pub fn compatible_texture_dimension(self) -> TextureDimension
        ensures { result ≡ texture_dimension self }
    {
        match self {
            TextureViewDimension::D1 => TextureDimension::D1,
            TextureViewDimension::D2
            | TextureViewDimension::D2Array
            | TextureViewDimension::Cube
            | TextureViewDimension::CubeArray => TextureDimension::D2,
            TextureViewDimension::D3 => TextureDimension::D3,
        }
    }
}

// The number by which a refusal names the dimension.
impl From<TextureViewDimension> for u32 {
    ghost from_gives = { λ dimension code. code ≡ view_dimension_code dimension };

    fn from(dimension: TextureViewDimension) -> u32 {
        match dimension {
            TextureViewDimension::D1 => 1,
            TextureViewDimension::D2 => 2,
            TextureViewDimension::D2Array => 3,
            TextureViewDimension::Cube => 4,
            TextureViewDimension::CubeArray => 5,
            TextureViewDimension::D3 => 6,
        }
    }
}

impl TryFrom<u32> for TextureViewDimension {
    type Error = UnknownCode;

    ghost try_from_gives = { Decodes view_dimension_code };

    fn try_from(code: u32) -> Result<TextureViewDimension, UnknownCode> {
        match code {
            1 => Ok(TextureViewDimension::D1),
            2 => Ok(TextureViewDimension::D2),
            3 => Ok(TextureViewDimension::D2Array),
            4 => Ok(TextureViewDimension::Cube),
            5 => Ok(TextureViewDimension::CubeArray),
            6 => Ok(TextureViewDimension::D3),
            _ => Err(UnknownCode(code)),
        }
    }
}
