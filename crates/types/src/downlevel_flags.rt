// What the host's driver may lack although WebGPU has it.
use crate::bits::BitSet;

#[derive(Clone, Copy, Debug, PartialEq, Eq)]
pub struct DownlevelFlags(pub u32);

impl DownlevelFlags {
    pub const VIEW_FORMATS: Self = Self(1);
}

impl BitSet for DownlevelFlags {
    ghost bits_of = { λ flags. flags.0 };

    fn from_bits(bits: u32) -> Self {
        Self(bits)
    }

    fn bits(self) -> u32 {
        self.0
    }
}
