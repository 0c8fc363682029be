// Questions about a format, each answered from its row.
ghost use Rattle.std.specs.Prelude.{◌≡◌};
ghost use Rattle.types.specs.Formats.{block_dimensions, size_multiple, twin_of, aspects_of, required_features_of, part_of, is_depth_stencil, is_compressed, is_bcn, is_astc, is_planar, planes_of, guaranteed_features, described_features, depth_part, selected_aspects};
ghost use Rattle.types.specs.declared.aspect.TextureAspect.TheVariants.{StencilOnly};

use crate::aspect::{FormatAspects, TextureAspect};
use crate::bits::BitSet;
use crate::features::{Features, MissingFeatures, require_features};
use crate::format::TextureFormat;
use crate::format_features::TextureFormatFeatures;

const DEPTH_STENCIL: FormatAspects = FormatAspects(
    FormatAspects::DEPTH.0 | FormatAspects::STENCIL.0,
);

const PLANES: FormatAspects = FormatAspects(FormatAspects::PLANE_0.0 | FormatAspects::PLANE_1.0);

impl TextureFormat {
    // Width and height of a block, in texels.
    pub fn block_dimensions(self) -> (u32, u32)
        ensures { result ≡ block_dimensions self }
    {
        let row = self.row();
        (row.block_width, row.block_height)
    }

    // What the width and the height of a texture have to be multiples of.
    pub fn size_multiple_requirement(self) -> (u32, u32)
        ensures { result ≡ size_multiple self }
    {
        if self.is_multi_planar_format() {
            (2, 2)
        } else {
            self.block_dimensions()
        }
    }

    // The format that differs from this one in the -srgb suffix alone.
    pub fn twin(self) -> Option<TextureFormat>
        ensures { result ≡ twin_of self }
    {
        self.row().twin
    }

    pub fn aspects(self) -> FormatAspects
        ensures { result.0 ≡ aspects_of self }
    {
        self.row().aspects
    }

    // The aspects of the format that a view at this aspect selects.
    pub fn selected_aspects(self, aspect: TextureAspect) -> FormatAspects
        ensures { result.0 ≡ selected_aspects self aspect }
    {
        let wanted = match aspect {
            TextureAspect::All => FormatAspects::ALL,
            TextureAspect::DepthOnly => FormatAspects::DEPTH,
            TextureAspect::StencilOnly => FormatAspects::STENCIL,
            TextureAspect::Plane0 => FormatAspects::PLANE_0,
            TextureAspect::Plane1 => FormatAspects::PLANE_1,
        };
        self.aspects().intersection(wanted)
    }

    pub fn required_features(self) -> Features
        ensures { result.0 ≡ required_features_of self }
    {
        self.row().required_features
    }

    // The format of one aspect of a texture of this format.
    pub fn aspect_specific_format(self, aspect: TextureAspect) -> Option<TextureFormat>
        ensures { result ≡ part_of self aspect }
    {
        match aspect {
            TextureAspect::All if self.is_multi_planar_format() => None,
            TextureAspect::All => Some(self),
            TextureAspect::DepthOnly => self.depth_part(),
            TextureAspect::StencilOnly => self.stencil_part(),
            TextureAspect::Plane0 if self.is_multi_planar_format() => Some(TextureFormat::R8Unorm),
            TextureAspect::Plane1 if self.is_multi_planar_format() => Some(TextureFormat::Rg8Unorm),
            TextureAspect::Plane0 | TextureAspect::Plane1 => None,
        }
    }

    fn depth_part(self) -> Option<TextureFormat>
        ensures { result ≡ depth_part self }
    {
        match self {
            TextureFormat::Depth16Unorm
            | TextureFormat::Depth24Plus
            | TextureFormat::Depth32Float => Some(self),
            TextureFormat::Depth24PlusStencil8 => Some(TextureFormat::Depth24Plus),
            TextureFormat::Depth32FloatStencil8 => Some(TextureFormat::Depth32Float),
            _ => None,
        }
    }

    fn stencil_part(self) -> Option<TextureFormat>
        ensures { result ≡ part_of self StencilOnly }
    {
        self.aspects()
            .contains(FormatAspects::STENCIL)
            .then_some(TextureFormat::Stencil8)
    }

    pub fn is_depth_stencil_format(self) -> bool
        ensures { result ≡ is_depth_stencil self }
    {
        self.aspects().intersects(DEPTH_STENCIL)
    }

    pub fn is_compressed(self) -> bool
        ensures { result ≡ is_compressed self }
    {
        let (width, height) = self.block_dimensions();
        width != 1 || height != 1
    }

    // The two families have a question each, as in wgpu: what asks knows which one it means.
    pub fn is_bcn(self) -> bool
        ensures { result ≡ is_bcn self }
    {
        self.required_features() == Features::TEXTURE_COMPRESSION_BC
    }

    pub fn is_astc(self) -> bool
        ensures { result ≡ is_astc self }
    {
        self.required_features() == Features::TEXTURE_COMPRESSION_ASTC
    }

    // A format is planar where its aspects lie in planes of their own.
    pub fn is_multi_planar_format(self) -> bool
        ensures { result ≡ is_planar self }
    {
        self.aspects().intersects(PLANES)
    }

    // How many planes a planar format has.
    pub fn planes(self) -> Option<u32>
        ensures { result ≡ planes_of self }
    {
        self.is_multi_planar_format().then_some(2)
    }

    // What WebGPU guarantees of the format on a device with these features. No row depends on them.
    pub fn guaranteed_format_features(self, _features: Features) -> TextureFormatFeatures
        ensures { result ≡ guaranteed_features self _features.0 }
    {
        self.row().guaranteed
    }
}

// What a device with these features may do with the format, or which feature it lacks for that.
pub fn describe_format_features(
    device: Features,
    format: TextureFormat,
) -> Result<TextureFormatFeatures, MissingFeatures>
    ensures { result ≡ described_features device.0 format }
{
    require_features(device, format.required_features())?;
    Ok(format.guaranteed_format_features(device))
}
