// Sample counts: powers of two up to 32 in 2D are looked at, one and four are taken.
use crate::requests::SAMPLED;
use crate::{check_refused, refusal};
use checks::refusal::Values;
use std::test::Fail;
use types::capabilities::Capabilities;
use types::descriptor::TextureDescriptor;
use types::dimension::TextureDimension;
use types::usages::TextureUsages;

const DRAWN: TextureDescriptor<'static> = TextureDescriptor {
    usage: TextureUsages::RENDER_ATTACHMENT,
    ..SAMPLED
};

// A count, and the refusals of it in 2D and elsewhere.
static COUNTS: [(u32, Option<u32>, Option<u32>); 12] = [
    (0, Some(6), Some(6)),
    (1, None, None),
    (2, Some(24), Some(6)),
    (3, Some(6), Some(6)),
    (4, None, Some(6)),
    (5, Some(6), Some(6)),
    (8, Some(24), Some(6)),
    (16, Some(24), Some(6)),
    (32, Some(24), Some(6)),
    (33, Some(6), Some(6)),
    (64, Some(6), Some(6)),
    (u32::MAX, Some(6), Some(6)),
];

#[test]
fn one_and_four(rt: HostRuntime) {
    let device = Capabilities::DEFAULT;
    for (sample_count, in_2d, elsewhere) in &COUNTS {
        let sample_count = *sample_count;
        let image = TextureDescriptor {
            sample_count,
            ..DRAWN
        };
        assert_eq!(rt; refusal(&device, &image), *in_2d, "{sample_count} in 2D");
        let line = TextureDescriptor {
            dimension: TextureDimension::D1,
            sample_count,
            ..SAMPLED
        };
        assert_eq!(rt; refusal(&device, &line), *elsewhere, "{sample_count} in 1D");
        let volume = TextureDescriptor {
            dimension: TextureDimension::D3,
            sample_count,
            ..SAMPLED
        };
        assert_eq!(rt;
            refusal(&device, &volume),
            *elsewhere,
            "{sample_count} in 3D"
        );
    }
}

#[test]
fn the_refusal_carries_the_sum_of_the_counts(rt: HostRuntime) -> Result<(), Fail> {
    let desc = TextureDescriptor {
        sample_count: 8,
        ..DRAWN
    };
    check_refused(
        &rt,
        &Capabilities::DEFAULT,
        &desc,
        24,
        Values::Three(8, 3, 5),
    )
}
