// The usage as it was asked for.
ghost use Rattle.std.specs.Prelude.{◌≡◌};
ghost use Rattle.checks.specs.Check.{outcome};
ghost use Rattle.checks.specs.Checks.{usage_checks};

use crate::error::CreateTextureError;
use types::bits::BitSet;
use types::usages::TextureUsages;

pub(crate) fn check_usage(usage: TextureUsages) -> Result<(), CreateTextureError>
    ensures { result ≡ outcome (usage_checks usage) }
{
    if usage.is_empty() || !usage.difference(TextureUsages::ALL).is_empty() {
        return Err(CreateTextureError::InvalidUsage(usage));
    }
    Ok(())
}
