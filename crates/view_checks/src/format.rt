// The format of a view against the device, and its aspect and format against the texture.
ghost use Rattle.std.specs.Prelude.{◌≡◌};
ghost use Rattle.checks.specs.Check.{answered, outcome};
ghost use Rattle.types.specs.Formats.{guaranteed_features};
ghost use Rattle.view_checks.specs.Checks.{ability_checks, aspect_checks, format_fits};

use crate::error::CreateTextureViewError;
use crate::resolve::ResolvedView;
use types::aspect::TextureAspect;
use types::bits::BitSet;
use types::features::Features;
use types::format::TextureFormat;
use types::format_features::TextureFormatFeatures;
use types::format_info::describe_format_features;
use types::texture::Texture;
use types::usages::TextureUsages;

// What the device may do with the view's format, if that is what the view is used for.
pub(crate) fn check_ability(
    features: Features,
    view: &ResolvedView,
) -> Result<TextureFormatFeatures, CreateTextureViewError>
    ensures { result ≡ answered (ability_checks features.0 view.now) (guaranteed_features view.now.format features.0) }
{
    let format_features = describe_format_features(features, view.format)?;
    let allowed = format_features.allowed_usages;
    if view.usage.contains(TextureUsages::RENDER_ATTACHMENT)
        && !allowed.contains(TextureUsages::RENDER_ATTACHMENT)
    {
        return Err(CreateTextureViewError::TextureViewFormatNotRenderable(view.format));
    }
    if view.usage.contains(TextureUsages::STORAGE_BINDING)
        && !allowed.contains(TextureUsages::STORAGE_BINDING)
    {
        return Err(CreateTextureViewError::TextureViewFormatNotStorage(view.format));
    }
    Ok(format_features)
}

pub(crate) fn check_aspect(
    texture: &Texture,
    view: &ResolvedView,
) -> Result<(), CreateTextureViewError>
    ensures { result ≡ outcome (aspect_checks texture.now view.now) }
{
    if texture.format.selected_aspects(view.aspect).is_empty() {
        return Err(CreateTextureViewError::InvalidAspect {
            texture_format: texture.format,
            requested_aspect: view.aspect,
        });
    }
    if !format_is_good(texture, view.aspect, view.format) {
        return Err(CreateTextureViewError::FormatReinterpretation {
            texture: texture.format,
            view: view.format,
        });
    }
    Ok(())
}

// All aspects are viewed in the texture's format or in its twin, if that was listed; one aspect in its part of the format.
#[tactic(auto, using(types::proofs::SameFormat::same_tags))]
fn format_is_good(texture: &Texture, aspect: TextureAspect, format: TextureFormat) -> bool
    ensures { result ≡ format_fits texture.now aspect format }
{
    if aspect == TextureAspect::All {
        format == texture.format || (texture.twin_listed && texture.format.twin() == Some(format))
    } else {
        texture.format.aspect_specific_format(aspect) == Some(format)
    }
}
