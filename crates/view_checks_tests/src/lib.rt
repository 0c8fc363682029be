// Tests of the view checks: what is proved of them, seen on examples whose answers were worked out by hand.
#![tactic(auto)]

#[cfg(test)]
mod foreign;
#[cfg(test)]
mod host;
#[cfg(test)]
mod omitted;
#[cfg(test)]
mod rendering;
#[cfg(test)]
mod requests;
#[cfg(test)]
mod rules;
#[cfg(test)]
mod selection;

#[cfg(test)]
use checks::accepted::accepted_texture;
#[cfg(test)]
use checks::refusal::Refusal;
#[cfg(test)]
use std::test::Fail;
#[cfg(test)]
use types::capabilities::Capabilities;
#[cfg(test)]
use types::descriptor::TextureDescriptor;
#[cfg(test)]
use types::features::Features;
#[cfg(test)]
use types::texture::Texture;
#[cfg(test)]
use types::view::TextureView;
#[cfg(test)]
use types::view_descriptor::TextureViewDescriptor;
#[cfg(test)]
use view_checks::view::check_view_descriptor;

#[cfg(test)]
fn with_features(features: Features) -> Capabilities {
    Capabilities {
        features,
        ..Capabilities::DEFAULT
    }
}

// The texture of a request that is accepted.
#[cfg(test)]
fn accepted(device: &Capabilities, desc: &TextureDescriptor) -> Result<Texture, Fail> {
    accepted_texture(device, desc).map_err(|_| Fail::new("the texture is refused"))
}

// The view of a request that is accepted.
#[cfg(test)]
fn viewed(
    device: &Capabilities,
    texture: &Texture,
    desc: &TextureViewDescriptor,
) -> Result<TextureView, Fail> {
    check_view_descriptor(device, texture, desc).map_err(|_| Fail::new("the view is refused"))
}

// The number of the refusal, if there is one.
#[cfg(test)]
fn refusal(device: &Capabilities, texture: &Texture, desc: &TextureViewDescriptor) -> Option<u32> {
    check_view_descriptor(device, texture, desc)
        .err()
        .map(|error| error.number())
}
