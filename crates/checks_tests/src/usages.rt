// Usages: none, unknown ones, and those of transient attachments.
use crate::refusal;
use crate::requests::SAMPLED;
use types::capabilities::Capabilities;
use types::descriptor::TextureDescriptor;
use types::usages::TextureUsages;

// A usage of rgba8unorm, and its refusal.
static USAGES: [(TextureUsages, Option<u32>); 13] = [
    (TextureUsages(0), Some(3)),
    (TextureUsages(1), None),
    (TextureUsages(16), None),
    (TextureUsages(32), Some(16)),
    (TextureUsages(48), None),
    (TextureUsages(49), Some(16)),
    (TextureUsages(31), None),
    (TextureUsages(63), Some(16)),
    (TextureUsages(64), Some(25)),
    (TextureUsages(95), Some(25)),
    (TextureUsages(127), Some(16)),
    (TextureUsages(128), Some(3)),
    (TextureUsages(4294967295), Some(3)),
];

#[test]
fn usages_are_known_and_allowed(rt: HostRuntime) {
    for (usage, number) in &USAGES {
        let desc = TextureDescriptor {
            usage: *usage,
            ..SAMPLED
        };
        assert_eq!(rt;
            refusal(&Capabilities::DEFAULT, &desc),
            *number,
            "{usage:?}"
        );
    }
}
