// Aspects: the parts of a texel that a format has, and the ones that a view is asked for.
ghost use Rattle.std.specs.Prelude.{◌≡◌};
ghost use Rattle.types.specs.Aspect.{aspect_code, plane_aspect, plane_of};

use crate::bits::BitSet;

// The aspects of a format.
#[derive(Clone, Copy, Debug, PartialEq, Eq)]
pub struct FormatAspects(pub u32);

impl FormatAspects {
    pub const COLOR: Self = Self(1);

    pub const DEPTH: Self = Self(2);

    pub const STENCIL: Self = Self(4);

    pub const PLANE_0: Self = Self(8);

    pub const PLANE_1: Self = Self(16);

    pub const ALL: Self = Self(31);
}

impl BitSet for FormatAspects {
    ghost bits_of = { λ aspects. aspects.0 };

    fn from_bits(bits: u32) -> Self {
        Self(bits)
    }

    fn bits(self) -> u32 {
        self.0
    }
}

#[derive(Clone, Copy, Debug, PartialEq, Eq)]
pub enum TextureAspect {
    All,
    StencilOnly,
    DepthOnly,
    Plane0,
    Plane1,
}

impl TextureAspect {
    pub fn from_plane(plane: u32) -> Option<TextureAspect>
        ensures { result ≡ plane_aspect plane }
    {
        match plane {
            0 => Some(TextureAspect::Plane0),
            1 => Some(TextureAspect::Plane1),
            _ => None,
        }
    }

    pub fn to_plane(self) -> Option<u32>
        ensures { result ≡ plane_of self }
    {
        match self {
            TextureAspect::Plane0 => Some(0),
            TextureAspect::Plane1 => Some(1),
            TextureAspect::All | TextureAspect::StencilOnly | TextureAspect::DepthOnly => None,
        }
    }
}

// The number by which a refusal names the aspect.
impl From<TextureAspect> for u32 {
    ghost from_gives = { λ aspect code. code ≡ aspect_code aspect };

    fn from(aspect: TextureAspect) -> u32 {
        match aspect {
            TextureAspect::All => 1,
            TextureAspect::DepthOnly => 2,
            TextureAspect::StencilOnly => 3,
            TextureAspect::Plane0 => 4,
            TextureAspect::Plane1 => 5,
        }
    }
}
