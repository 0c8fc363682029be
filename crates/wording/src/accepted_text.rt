// An accepted texture as an operator reads it.
use std::fmt;
use types::texture::Texture;

/// The texture, and how many clear views it needs.
#[derive(Clone, Copy)]
pub struct AcceptedText<'a> {
    pub texture: &'a Texture,
    pub clear_views: u64,
}

impl fmt::Display for AcceptedText<'_> {
    fn fmt<W: fmt::Write>(&self, f: &mut fmt::Formatter<W>) -> fmt::Result {
        write!(
            f,
            "accepted: host usage {}, clear views {}",
            self.texture.hal_usage.0, self.clear_views
        )?;
        if self.texture.twin_listed {
            write!(f, ", twin listed")?;
        }
        Ok(())
    }
}
