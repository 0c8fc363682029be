// Sets of flags, one bit each: usages, aspects, features. Each kind is a type of its own, and any bits can stand in a set, also
// those that no flag has.
ghost use Rattle.std.specs.Prelude.{◌≡◌, ◌==◌, ◌≤◌, ℕ, bit_and, bit_or};
ghost use Rattle.types.specs.Bits.{contains, intersects, difference, map_bit};

// The kinds are tuple structs with a short impl each, and not one struct over a parameter: only so can a constant write
// `TextureUsages(4)`.
pub trait BitSet: Copy {
    ghost bits_of: { Self → ℕ };

    fn from_bits(bits: u32) -> Self
        ensures { bits_of result ≡ bits };

    fn bits(self) -> u32
        ensures { result ≡ bits_of self };

    final fn is_empty(self) -> bool
        ensures { result ≡ (bits_of self == 0) }
    {
        self.bits() == 0
    }

    // Whether the set holds each of these flags.
    final fn contains(self, flags: Self) -> bool
        ensures { result ≡ contains (bits_of self) (bits_of flags) }
    {
        self.bits() & flags.bits() == flags.bits()
    }

    // Whether the set holds one of these flags at least.
    final fn intersects(self, flags: Self) -> bool
        ensures { result ≡ intersects (bits_of self) (bits_of flags) }
    {
        self.bits() & flags.bits() != 0
    }

    final fn union(self, flags: Self) -> Self
        ensures { bits_of result ≡ bit_or (bits_of self) (bits_of flags) }
    {
        Self::from_bits(self.bits() | flags.bits())
    }

    final fn intersection(self, flags: Self) -> Self
        ensures { bits_of result ≡ bit_and (bits_of self) (bits_of flags) }
    {
        Self::from_bits(self.bits() & flags.bits())
    }

    // The set without these flags.
    final fn difference(self, flags: Self) -> Self
        ensures { bits_of result ≡ difference (bits_of self) (bits_of flags) }
    {
        Self::from_bits(self.bits() ^ (self.bits() & flags.bits()))
    }

    // `to`, flags of another kind, where the set holds each flag of `from`, else none.
    final fn map_bit<To: BitSet>(self, from: Self, to: To) -> To
        ensures value { To.bits_of result ≡ map_bit (bits_of self) (bits_of from) (To.bits_of to) }
        ensures bound { To.bits_of result ≤ To.bits_of to }
    {
        if self.contains(from) {
            to
        } else {
            To::from_bits(0)
        }
    }
}
