// What is kept of a texture whose request passes every check.
ghost use Rattle.std.specs.Prelude.{◌≡◌, IfOk};
ghost use Rattle.checks.specs.Accepted.{Kept};
ghost use Rattle.checks.specs.Check.{as_outcome, outcome};
ghost use Rattle.checks.specs.Checks.{create_checks};

use crate::error::CreateTextureError;
use crate::texture::check_texture_descriptor;
use types::capabilities::Capabilities;
use types::conv::map_texture_usage_for_texture;
use types::descriptor::TextureDescriptor;
use types::texture::Texture;

pub fn accepted_texture(
    device: &Capabilities,
    desc: &TextureDescriptor,
) -> Result<Texture, CreateTextureError>
    ensures value { as_outcome result ≡ outcome (create_checks device.now desc.now) }
    ensures texture { IfOk result (λ texture. Kept device.now desc.now texture) }
{
    let twin_listed = check_texture_descriptor(device, desc)?;
    let features = desc.format.guaranteed_format_features(device.features);
    Ok(Texture {
        size: desc.size,
        mip_level_count: desc.mip_level_count,
        sample_count: desc.sample_count,
        dimension: desc.dimension,
        format: desc.format,
        usage: desc.usage,
        twin_listed,
        hal_usage: map_texture_usage_for_texture(desc, &features),
    })
}
