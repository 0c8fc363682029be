// From what a container may use a texture for to what the host is told.
ghost use Rattle.std.specs.Prelude.{◌≡◌, ℕ};
ghost use Rattle.types.specs.Uses.{Clearable, clearing_use, host_uses, render_uses, storage_uses, texture_uses};
ghost use Rattle.types.specs.declared.dimension.TextureDimension.{TextureDimension};
ghost use Rattle.types.specs.declared.format.TextureFormat.{TextureFormat};
ghost use Rattle.types.specs.declared.format_features.TextureFormatFeatures.{TextureFormatFeatures};

use crate::aspect::FormatAspects;
use crate::bits::BitSet;
use crate::descriptor::TextureDescriptor;
use crate::dimension::TextureDimension;
use crate::format_features::{TextureFormatFeatureFlags as Flags, TextureFormatFeatures};
use crate::usages::TextureUsages as Usages;
use crate::uses::TextureUses as Uses;

pub fn map_texture_usage(usage: Usages, aspects: FormatAspects, flags: Flags) -> Uses
    ensures { result.0 ≡ host_uses usage.0 aspects.0 flags.0 }
{
    usage
        .map_bit(Usages::COPY_SRC, Uses::COPY_SRC)
        .union(usage.map_bit(Usages::COPY_DST, Uses::COPY_DST))
        .union(usage.map_bit(Usages::TEXTURE_BINDING, Uses::RESOURCE))
        .union(storage_uses(usage, flags))
        .union(render_uses(usage, aspects))
        .union(usage.map_bit(Usages::STORAGE_ATOMIC, Uses::STORAGE_ATOMIC))
        .union(usage.map_bit(Usages::TRANSIENT_ATTACHMENT, Uses::TRANSIENT))
}

fn storage_uses(usage: Usages, flags: Flags) -> Uses
    ensures { result.0 ≡ storage_uses usage.0 flags.0 }
{
    if !usage.contains(Usages::STORAGE_BINDING) {
        return Uses::NONE;
    }
    flags
        .map_bit(Flags::STORAGE_READ_ONLY, Uses::STORAGE_READ_ONLY)
        .union(flags.map_bit(Flags::STORAGE_WRITE_ONLY, Uses::STORAGE_WRITE_ONLY))
        .union(flags.map_bit(Flags::STORAGE_READ_WRITE, Uses::STORAGE_READ_WRITE))
}

// Planes are rendered to as colours are.
const COLOURED: FormatAspects = FormatAspects(
    FormatAspects::COLOR.0 | FormatAspects::PLANE_0.0 | FormatAspects::PLANE_1.0,
);

const DEPTH_STENCIL: Uses = Uses(Uses::DEPTH_STENCIL_READ.0 | Uses::DEPTH_STENCIL_WRITE.0);

fn render_uses(usage: Usages, aspects: FormatAspects) -> Uses
    ensures { result.0 ≡ render_uses usage.0 aspects.0 }
{
    if !usage.contains(Usages::RENDER_ATTACHMENT) {
        Uses::NONE
    } else if aspects.intersects(COLOURED) {
        Uses::COLOR_TARGET
    } else {
        DEPTH_STENCIL
    }
}

// The host's uses of a texture: what was asked for, and always a way to clear it.
pub fn map_texture_usage_for_texture(
    desc: &TextureDescriptor,
    features: &TextureFormatFeatures,
) -> Uses
    ensures { result.0 ≡ texture_uses desc.now.usage.0 desc.now.format desc.now.dimension features.now }
{
    let asked = map_texture_usage(desc.usage, desc.format.aspects(), features.flags);
    asked.union(clearing_use(desc, features.allowed_usages))
}

fn clearing_use(desc: &TextureDescriptor, allowed_usages: Usages) -> Uses
    ensures { result.0 ≡ clearing_use desc.now.usage.0 desc.now.format desc.now.dimension allowed_usages.0 }
{
    if desc.format.is_depth_stencil_format() {
        Uses::DEPTH_STENCIL_WRITE
    } else if desc.usage.contains(Usages::COPY_DST) {
        Uses::COPY_DST
    } else if allowed_usages.contains(Usages::RENDER_ATTACHMENT)
        && desc.dimension == TextureDimension::D2
    {
        Uses::COLOR_TARGET
    } else {
        Uses::COPY_DST
    }
}

// A theorem: whatever was asked for, the host is told a use by which the texture can be cleared.
pub fn textures_can_be_cleared()
    ensures { (usage : ℕ) (format : TextureFormat) (dimension : TextureDimension) (features : TextureFormatFeatures) → Clearable format (texture_uses usage format dimension features) }
{}
