// Tests of the texture checks: what is proved of them, seen on examples whose answers were worked out by hand.
#![tactic(auto)]

#[cfg(test)]
mod formats;
#[cfg(test)]
mod levels;
#[cfg(test)]
mod requests;
#[cfg(test)]
mod rules;
#[cfg(test)]
mod samples;
#[cfg(test)]
mod sides;
#[cfg(test)]
mod usages;
#[cfg(test)]
mod view_formats;

#[cfg(test)]
use checks::refusal::{Refusal, Values};
#[cfg(test)]
use checks::texture::check_texture_descriptor;
#[cfg(test)]
use std::process::Abort;
#[cfg(test)]
use std::test::Fail;
#[cfg(test)]
use types::capabilities::Capabilities;
#[cfg(test)]
use types::descriptor::TextureDescriptor;

// The number of the refusal, if there is one.
#[cfg(test)]
fn refusal(device: &Capabilities, desc: &TextureDescriptor) -> Option<u32> {
    check_texture_descriptor(device, desc)
        .err()
        .map(|error| error.number())
}

#[cfg(test)]
fn check_refused(
    rt: &impl Abort,
    device: &Capabilities,
    desc: &TextureDescriptor,
    number: u32,
    values: Values,
) -> Result<(), Fail> {
    let Err(error) = check_texture_descriptor(device, desc) else {
        return Err(Fail::new("a request that breaks a rule is accepted"));
    };
    assert_eq!(rt; error.number(), number);
    assert_eq!(rt; error.values(), values, "of refusal {number}");
    Ok(())
}
