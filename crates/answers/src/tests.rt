// A line of each kind is read: no clause says that there is memory for it.
use crate::line::{AnyAnswer, Line, LineError, TextureAnswer};
use crate::parse::parse_line;
use std::test::Fail;

const TEXTURE: &str = "T 4 4 1 1 4 2 14 20 2 14 14 yes";

const VIEW: &str = "V - 2 0 a 0 - 0 - no";

#[test]
fn textures_alone(rt: HostRuntime) -> Result<(), Fail> {
    let line = parse_line::<TextureAnswer>(rt.alloc(), TEXTURE)?;
    assert!(rt; matches!(&line, Line::Answer(TextureAnswer { accepted: true, .. })));
    let refused = parse_line::<TextureAnswer>(rt.alloc(), VIEW);
    assert!(rt; matches!(&refused, Err(LineError::UnknownMark)));
    Ok(())
}

#[test]
fn textures_and_views(rt: HostRuntime) -> Result<(), Fail> {
    let texture = parse_line::<AnyAnswer>(rt.alloc(), TEXTURE)?;
    assert!(rt; matches!(&texture, Line::Answer(AnyAnswer::Texture(answer)) if answer.accepted));
    let view = parse_line::<AnyAnswer>(rt.alloc(), VIEW)?;
    assert!(rt; matches!(&view, Line::Answer(AnyAnswer::View(answer)) if !answer.accepted));
    Ok(())
}
