// How many clear views a texture needs. A clear view is a view of one level, layer and plane that the broker makes with
// a texture, to clear that part before its first use.
ghost use Rattle.std.specs.Prelude.{◌≡◌, ◌-◌, ◌^◌, min, Ok};
ghost use Rattle.checks.specs.Check.{outcome};
ghost use Rattle.checks.specs.Checks.{create_checks};
ghost use Rattle.checks.specs.ClearViews.{clear_views_needed};
ghost use Rattle.types.specs.declared.capabilities.Capabilities.{Capabilities};

use types::bits::BitSet;
use types::descriptor::TextureDescriptor;
use types::dimension::TextureDimension;
use types::uses::TextureUses;

const RENDERED: TextureUses = TextureUses(
    TextureUses::COLOR_TARGET.0 | TextureUses::DEPTH_STENCIL_WRITE.0,
);

// The count of a request that no check refuses is exact; another one stops at the largest number there is.
pub fn clear_views_needed(desc: &TextureDescriptor, hal_usage: TextureUses) -> u64
    ensures value { result ≡ min (clear_views_needed desc.now hal_usage.0) (2 ^ 64 - 1) }
    ensures exact { (device : Capabilities) → Ok tt ≡ outcome (create_checks device desc.now) → result ≡ clear_views_needed desc.now hal_usage.0 }
{
    if desc.dimension != TextureDimension::D2 || !hal_usage.intersects(RENDERED) {
        return 0;
    }
    let images = u64::from(desc.mip_level_count) * u64::from(desc.size.depth_or_array_layers);
    images.saturating_mul(u64::from(desc.format.planes().unwrap_or(1)))
}
