// What is kept of a texture once its request was accepted.
ghost use Rattle.std.specs.Prelude.{◌≤◌};

use crate::dimension::TextureDimension;
use crate::extent::Extent3d;
use crate::format::TextureFormat;
use crate::usages::TextureUsages;
use crate::uses::TextureUses;

// The request without its view formats, of which only the twin can differ from the format; and what the host is told that the
// texture is used for. Nothing but the level count is certain: such a record can come from elsewhere.
#[derive(Clone, Copy, Debug, PartialEq, Eq)]
pub struct Texture {
    pub size: Extent3d,
    pub mip_level_count: u32,
    pub sample_count: u32,
    pub dimension: TextureDimension,
    pub format: TextureFormat,
    pub usage: TextureUsages,
    pub twin_listed: bool,
    pub hal_usage: TextureUses,
    ghost some_levels: { 1 ≤ mip_level_count },
    ghost few_levels: { mip_level_count ≤ 16 },
}
