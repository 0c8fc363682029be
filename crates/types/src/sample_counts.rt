// Which numbers of samples a format's flags allow.
ghost use Rattle.std.specs.Prelude.{◌≡◌, ◌≤◌};
ghost use Rattle.types.specs.Bits.{map_bit};
ghost use Rattle.types.specs.Samples.{sample_count_supported, supported_sample_counts};

use crate::bits::BitSet;
use crate::format_features::TextureFormatFeatureFlags as Flags;

impl Flags {
    pub fn sample_count_supported(self, count: u32) -> bool
        ensures { result ≡ sample_count_supported self.0 count }
    {
        match count {
            1 => true,
            2 => self.contains(Flags::MULTISAMPLE_X2),
            4 => self.contains(Flags::MULTISAMPLE_X4),
            8 => self.contains(Flags::MULTISAMPLE_X8),
            16 => self.contains(Flags::MULTISAMPLE_X16),
            _ => false,
        }
    }

    // The sum of the sample counts that the flags allow, which tells them apart, since each is a power of two: a refusal carries
    // it as one number.
    pub fn supported_sample_counts(self) -> u32
        ensures { result ≡ supported_sample_counts self.0 }
    {
        1 + self.count_if(Flags::MULTISAMPLE_X2, 2)
            + self.count_if(Flags::MULTISAMPLE_X4, 4)
            + self.count_if(Flags::MULTISAMPLE_X8, 8)
            + self.count_if(Flags::MULTISAMPLE_X16, 16)
    }

    // The count where the flags hold the one for it, else none.
    fn count_if(self, flag: Flags, count: u32) -> u32
        ensures value { result ≡ map_bit self.0 flag.0 count }
        ensures bound { result ≤ count }
    {
        if self.contains(flag) { count } else { 0 }
    }
}
