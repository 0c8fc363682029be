// What a device can do, as far as requests are checked against it.
use crate::downlevel_flags::DownlevelFlags;
use crate::features::Features;
use crate::limits::Limits;

#[derive(Clone, Copy, Debug, PartialEq, Eq)]
pub struct Capabilities {
    pub limits: Limits,
    pub features: Features,
    pub downlevel_flags: DownlevelFlags,
}

impl Capabilities {
    // WebGPU's default limits, no features, and views that may have other formats than their textures.
    pub const DEFAULT: Self = Capabilities {
        limits: Limits::DEFAULT,
        features: Features::NONE,
        downlevel_flags: DownlevelFlags::VIEW_FORMATS,
    };
}
