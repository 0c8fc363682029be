// What a container may ask to use a texture for.
use crate::bits::BitSet;

#[derive(Clone, Copy, Debug, PartialEq, Eq)]
pub struct TextureUsages(pub u32);

impl TextureUsages {
    pub const COPY_SRC: Self = Self(1);

    pub const COPY_DST: Self = Self(2);

    pub const TEXTURE_BINDING: Self = Self(4);

    pub const STORAGE_BINDING: Self = Self(8);

    pub const RENDER_ATTACHMENT: Self = Self(16);

    pub const TRANSIENT_ATTACHMENT: Self = Self(32);

    pub const STORAGE_ATOMIC: Self = Self(64);

    pub const ALL: Self = Self(127);
}

impl BitSet for TextureUsages {
    ghost bits_of = { λ usages. usages.0 };

    fn from_bits(bits: u32) -> Self {
        Self(bits)
    }

    fn bits(self) -> u32 {
        self.0
    }
}
