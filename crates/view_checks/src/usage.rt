// The usage of a view against its texture's.
ghost use Rattle.std.specs.Prelude.{◌≡◌};
ghost use Rattle.checks.specs.Check.{outcome};
ghost use Rattle.view_checks.specs.Checks.{usage_checks};

use crate::error::CreateTextureViewError;
use types::bits::BitSet;
use types::usages::TextureUsages;

// A view of a transient attachment has all of its usage, any other a part of it.
pub(crate) fn check_usage(
    texture: TextureUsages,
    view: TextureUsages,
) -> Result<(), CreateTextureViewError>
    ensures { result ≡ outcome (usage_checks texture view) }
{
    let is_part = texture.contains(view);
    let is_transient = texture.contains(TextureUsages::TRANSIENT_ATTACHMENT);
    if is_part && is_transient && view != texture {
        return Err(CreateTextureViewError::InvalidTransientTextureViewUsage { texture, view });
    }
    if !is_part {
        return Err(CreateTextureViewError::InvalidTextureViewUsage { view, texture });
    }
    Ok(())
}
