// The checks of a view request, one group after the other: the first refusal is the answer, else the view worked out. A group
// takes the records that it reads, and the features only where it asks for one, so that its signature says what its refusals can
// depend on.
ghost use Rattle.std.specs.Prelude.{◌≡◌, ◌↔◌, false, not, IfOk, IsTrue};
ghost use Rattle.checks.specs.Check.{as_outcome, outcome};
ghost use Rattle.types.specs.Bits.{contains};
ghost use Rattle.types.specs.Features.{MULTISAMPLE_ARRAY};
ghost use Rattle.view_checks.specs.Checks.{view_checks};
ghost use Rattle.view_checks.specs.Laws.{Lawful};
ghost use Rattle.view_checks.specs.Refusals.{refused_as_view};
ghost use Rattle.view_checks.specs.Resolved.{resolved};
ghost use Rattle.view_checks.specs.Views.{OnlyView, WorkedOut};
ghost use Rattle.view_checks.specs.WebGpu.{Accepts};

use crate::dimension::check_dimension;
use crate::error::CreateTextureViewError;
use crate::format::{check_ability, check_aspect};
use crate::host::{hal_format, hal_usage};
use crate::ranges::{check_layers, check_levels};
use crate::render_extent::render_extent;
use crate::resolve::resolve_view_descriptor;
use crate::usage::check_usage;
use types::capabilities::Capabilities;
use types::texture::Texture;
use types::view::TextureView;
use types::view_descriptor::TextureViewDescriptor;

// The view that the request is worked out to, or the first refusal.
pub fn check_view_descriptor(
    device: &Capabilities,
    texture: &Texture,
    desc: &TextureViewDescriptor,
) -> Result<TextureView, CreateTextureViewError>
    ensures value { as_outcome result ≡ outcome (view_checks device.now.features.0 texture.now (resolved texture.now desc.now)) }
    ensures view { IfOk result (λ view. WorkedOut device.now.features.0 texture.now (resolved texture.now desc.now) view) }
    ensures only { IfOk result (λ view. OnlyView device.now.features.0 texture.now (resolved texture.now desc.now) view) }
    ensures webgpu { contains device.now.features.0 MULTISAMPLE_ARRAY ≡ false → IsTrue (not (refused_as_view result)) ↔ Accepts device.now texture.now (resolved texture.now desc.now) }
    ensures laws { IfOk result (λ view. Lawful device.now.features.0 texture.now view) }
{
    let view = resolve_view_descriptor(texture, desc);
    check_usage(texture.usage, view.usage)?;
    let format_features = check_ability(device.features, &view)?;
    check_aspect(texture, &view)?;
    check_dimension(device.features, texture, &view)?;
    let mips = check_levels(texture, &view)?;
    let layers = check_layers(texture, &view)?;
    Ok(TextureView {
        format: view.format,
        dimension: view.dimension,
        usage: view.usage,
        mips,
        layers,
        aspect: view.aspect,
        aspects: texture.format.selected_aspects(view.aspect),
        samples: texture.sample_count,
        hal_format: hal_format(texture.format, view.format),
        hal_usage: hal_usage(&view, format_features.flags),
        render_extent: render_extent(device.features, texture, &view),
    })
}
