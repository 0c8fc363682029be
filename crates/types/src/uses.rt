// What the host is told that a texture is used for. The numbers are the broker's own.
use crate::bits::BitSet;

#[derive(Clone, Copy, Debug, PartialEq, Eq)]
pub struct TextureUses(pub u32);

impl TextureUses {
    pub const NONE: Self = Self(0);

    pub const COPY_SRC: Self = Self(1);

    pub const COPY_DST: Self = Self(2);

    pub const RESOURCE: Self = Self(4);

    pub const COLOR_TARGET: Self = Self(8);

    pub const DEPTH_STENCIL_READ: Self = Self(16);

    pub const DEPTH_STENCIL_WRITE: Self = Self(32);

    pub const STORAGE_READ_ONLY: Self = Self(64);

    pub const STORAGE_WRITE_ONLY: Self = Self(128);

    pub const STORAGE_READ_WRITE: Self = Self(256);

    pub const STORAGE_ATOMIC: Self = Self(512);

    pub const TRANSIENT: Self = Self(1024);

    pub const ALL: Self = Self(2047);
}

impl BitSet for TextureUses {
    ghost bits_of = { λ uses. uses.0 };

    fn from_bits(bits: u32) -> Self {
        Self(bits)
    }

    fn bits(self) -> u32 {
        self.0
    }
}
