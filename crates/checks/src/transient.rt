// What a transient attachment may be: nothing but an attachment, with one level, one layer and no view formats.
ghost use Rattle.std.specs.Prelude.{◌≡◌};
ghost use Rattle.checks.specs.Check.{outcome};
ghost use Rattle.checks.specs.Checks.{transient_checks};

use crate::error::CreateTextureError;
use types::bits::BitSet;
use types::descriptor::TextureDescriptor;
use types::usages::TextureUsages;

const TRANSIENT: TextureUsages = TextureUsages(
    TextureUsages::TRANSIENT_ATTACHMENT.0 | TextureUsages::RENDER_ATTACHMENT.0,
);

pub(crate) fn check_transient(desc: &TextureDescriptor) -> Result<(), CreateTextureError>
    ensures { result ≡ outcome (transient_checks desc.now) }
{
    if !desc.usage.contains(TextureUsages::TRANSIENT_ATTACHMENT) {
        return Ok(());
    }
    if desc.usage != TRANSIENT {
        return Err(CreateTextureError::InvalidTransientTextureUsage(desc.usage));
    }
    if desc.mip_level_count != 1 {
        return Err(CreateTextureError::InvalidTransientTextureMipLevelCount(desc.mip_level_count));
    }
    if desc.size.depth_or_array_layers != 1 {
        return Err(CreateTextureError::InvalidTransientTextureLayerCount(
            desc.size.depth_or_array_layers,
        ));
    }
    if !desc.view_formats.is_empty() {
        return Err(CreateTextureError::InvalidTransientTextureViewFormats);
    }
    Ok(())
}
