// The other formats that views of the texture may have.
ghost use Rattle.std.specs.Prelude.{◌≡◌};
ghost use Rattle.checks.specs.Check.{answered};
ghost use Rattle.checks.specs.Checks.{each_view_format, view_format_checks, is_twin_listed, is_twin};

use crate::error::{CreateTextureError, MissingDownlevelFlags};
use types::bits::BitSet;
use types::downlevel_flags::DownlevelFlags;
use types::format::TextureFormat;

// Whether the twin of the format is among the view formats.
pub(crate) fn check_view_formats(
    downlevel_flags: DownlevelFlags,
    format: TextureFormat,
    view_formats: &[TextureFormat],
) -> Result<bool, CreateTextureError>
    ensures { result ≡ answered (view_format_checks downlevel_flags.0 format view_formats.now) (is_twin_listed format view_formats.now) }
{
    let twin_listed = look_for_twin(format, view_formats)?;
    if twin_listed && !downlevel_flags.contains(DownlevelFlags::VIEW_FORMATS) {
        let missing = MissingDownlevelFlags(DownlevelFlags::VIEW_FORMATS);
        return Err(CreateTextureError::MissingDownlevelFlags(missing));
    }
    Ok(twin_listed)
}

fn look_for_twin(
    format: TextureFormat,
    view_formats: &[TextureFormat],
) -> Result<bool, CreateTextureError>
    ensures { result ≡ answered (each_view_format format view_formats.now) (is_twin_listed format view_formats.now) }
{
    let mut twin_listed = false;
    for view_format in view_formats {
        if is_twin(format, *view_format) {
            twin_listed = true;
        } else if *view_format != format {
            return Err(CreateTextureError::InvalidViewFormat(*view_format, format));
        }
    }
    Ok(twin_listed)
}

fn is_twin(format: TextureFormat, other: TextureFormat) -> bool
    ensures { result ≡ is_twin format other }
{
    format.twin() == Some(other)
}
