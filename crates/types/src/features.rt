// Optional abilities of a device.
ghost use Rattle.std.specs.Prelude.{◌≡◌};
ghost use Rattle.types.specs.Features.{required};

use crate::bits::BitSet;

#[derive(Clone, Copy, Debug, PartialEq, Eq)]
pub struct Features(pub u32);

impl Features {
    pub const NONE: Self = Self(0);

    pub const TEXTURE_COMPRESSION_BC: Self = Self(1);

    pub const TEXTURE_COMPRESSION_BC_SLICED_3D: Self = Self(2);

    pub const TEXTURE_COMPRESSION_ETC2: Self = Self(4);

    pub const TEXTURE_COMPRESSION_ASTC: Self = Self(8);

    pub const TEXTURE_COMPRESSION_ASTC_SLICED_3D: Self = Self(16);

    pub const DEPTH32FLOAT_STENCIL8: Self = Self(32);

    pub const TEXTURE_FORMAT_NV12: Self = Self(64);

    pub const MULTISAMPLE_ARRAY: Self = Self(128);

    pub const MULTIVIEW: Self = Self(256);
}

impl BitSet for Features {
    ghost bits_of = { λ features. features.0 };

    fn from_bits(bits: u32) -> Self {
        Self(bits)
    }

    fn bits(self) -> u32 {
        self.0
    }
}

// The features that were required and that the device has not all: wgpu's error, which has a like one for downlevel flags.
#[derive(Clone, Copy, Debug, PartialEq, Eq)]
pub struct MissingFeatures(pub Features);

pub fn require_features(device: Features, features: Features) -> Result<(), MissingFeatures>
    ensures { result ≡ required device.0 features.0 }
{
    if device.contains(features) {
        Ok(())
    } else {
        Err(MissingFeatures(features))
    }
}
