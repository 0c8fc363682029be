// What is printed of a texture request and of its answer.
ghost use Rattle.std.specs.Prelude.{◌≡◌, is_ok, is_some, IfOk, IfSome};
ghost use Rattle.checks.specs.Accepted.{Kept};
ghost use Rattle.checks.specs.Check.{outcome};
ghost use Rattle.checks.specs.Checks.{create_checks};

use crate::accepted_text::AcceptedText;
use crate::refusal_text::RefusalText;
use crate::request_text::RequestText;
use checks::accepted::accepted_texture;
use checks::clear_views::clear_views_needed;
use std::io;
use types::capabilities::Capabilities;
use types::descriptor::TextureDescriptor;
use types::texture::Texture;

// The texture, where the checks accept it.
pub fn report_texture(
    rt: &impl Print,
    device: &Capabilities,
    what: &str,
    desc: &TextureDescriptor,
) -> io::Result<Option<Texture>>
    ensures accepted { IfOk result (λ made. is_some made ≡ is_ok (outcome (create_checks device.now desc.now))) }
    ensures texture { IfOk result (λ made. IfSome made (Kept device.now desc.now)) }
{
    println!(rt; "  {}", RequestText { what, desc })?;
    match accepted_texture(device, desc) {
        Ok(texture) => {
            let accepted = AcceptedText {
                texture: &texture,
                clear_views: clear_views_needed(desc, texture.hal_usage),
            };
            println!(rt; "    {accepted}")?;
            Ok(Some(texture))
        }
        Err(error) => {
            println!(rt; "    {}", RefusalText { error: &error })?;
            Ok(None)
        }
    }
}
