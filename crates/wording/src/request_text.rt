// A texture request as an operator reads it.
use crate::extent_text::ExtentText;
use std::fmt;
use types::descriptor::TextureDescriptor;

/// What a container calls the texture, and all that it asks of it.
#[derive(Clone, Copy)]
pub struct RequestText<'a> {
    pub what: &'a str,
    pub desc: &'a TextureDescriptor<'a>,
}

impl fmt::Display for RequestText<'_> {
    fn fmt<W: fmt::Write>(&self, f: &mut fmt::Formatter<W>) -> fmt::Result {
        let desc = self.desc;
        write!(
            f,
            "{}: {} {} {}",
            self.what,
            desc.dimension,
            ExtentText(desc.size),
            desc.format
        )?;
        write!(
            f,
            ", levels {}, samples {}, usage {}",
            desc.mip_level_count, desc.sample_count, desc.usage.0
        )?;
        for view_format in desc.view_formats {
            write!(f, ", viewed as {view_format}")?;
        }
        Ok(())
    }
}
