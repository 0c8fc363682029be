// What a device may do with textures of a format.
use crate::bits::BitSet;
use crate::usages::TextureUsages;

#[derive(Clone, Copy, Debug, PartialEq, Eq)]
pub struct TextureFormatFeatures {
    pub allowed_usages: TextureUsages,
    pub flags: TextureFormatFeatureFlags,
}

// The numbers of samples that a format can have besides one, and the ways in which a shader can use it as storage.
#[derive(Clone, Copy, Debug, PartialEq, Eq)]
pub struct TextureFormatFeatureFlags(pub u32);

impl TextureFormatFeatureFlags {
    pub const NONE: Self = Self(0);

    pub const MULTISAMPLE_X2: Self = Self(1);

    pub const MULTISAMPLE_X4: Self = Self(2);

    pub const MULTISAMPLE_X8: Self = Self(4);

    pub const MULTISAMPLE_X16: Self = Self(8);

    pub const STORAGE_READ_ONLY: Self = Self(16);

    pub const STORAGE_WRITE_ONLY: Self = Self(32);

    pub const STORAGE_READ_WRITE: Self = Self(64);
}

impl BitSet for TextureFormatFeatureFlags {
    ghost bits_of = { λ flags. flags.0 };

    fn from_bits(bits: u32) -> Self {
        Self(bits)
    }

    fn bits(self) -> u32 {
        self.0
    }
}
