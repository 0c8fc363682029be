// Stored answers, judged: what the checks answer to the same requests, beside them.
ghost use Rattle.std.specs.Prelude.{◌≡◌};
ghost use Rattle.verdicts.specs.Requests.{Asks, TextureJudged, view_verdict};

use crate::verdict::{Verdict, compare};
use answers::line::{TextureAnswer, TextureRequest, ViewAnswer};
use checks::accepted::accepted_texture;
use checks::refusal::Refusal;
use types::capabilities::Capabilities;
use types::descriptor::TextureDescriptor;
use types::texture::Texture;
use view_checks::view::check_view_descriptor;

// What the checks make of a texture request: the texture, where they accept it.
#[derive(Clone, Copy)]
pub struct JudgedTexture {
    pub verdict: Verdict,
    pub texture: Option<Texture>,
}

// The verdict on the answer to a texture request, and the texture for the views that are asked of it.
pub fn judge_texture(device: &Capabilities, answer: &TextureAnswer) -> JudgedTexture
    ensures { TextureJudged device.now answer.now result }
{
    let desc = descriptor(&answer.request);
    let checked = accepted_texture(device, &desc);
    JudgedTexture {
        verdict: compare(checked.err().map(|error| error.number()), answer.accepted),
        texture: checked.ok(),
    }
}

fn descriptor(request: &TextureRequest) -> TextureDescriptor<'_>
    ensures { Asks request.now result }
{
    TextureDescriptor {
        size: request.size,
        mip_level_count: request.mip_level_count,
        sample_count: request.sample_count,
        dimension: request.dimension,
        format: request.format,
        usage: request.usage,
        view_formats: request.view_formats.as_slice(),
    }
}

// The verdict on the answer to a request for a view of the texture.
pub fn judge_view(device: &Capabilities, texture: &Texture, answer: &ViewAnswer) -> Verdict
    ensures { result ≡ view_verdict device.now texture.now answer.now }
{
    let view = check_view_descriptor(device, texture, &answer.request);
    compare(view.err().map(|error| error.number()), answer.accepted)
}
