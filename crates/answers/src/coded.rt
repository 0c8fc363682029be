// What a file of answers writes as a number: formats and dimensions.
ghost use Rattle.std.specs.Prelude.{◌≡◌, ℕ, IfOk, IfSome, MatchOption, MatchResult};
ghost use Rattle.types.specs.Dimension.{dimension_code, view_dimension_code};
ghost use Rattle.types.specs.Format.{code_of};
ghost use Rattle.answers.specs.Faults.{NoDimension, NoFormat, NoViewDimension};
ghost use Rattle.answers.specs.declared.line.LineError.{LineError};
ghost use Rattle.answers.specs.declared.line.LineError.TheVariants.{UnknownDimension, UnknownFormat};

use crate::line::LineError;
use types::dimension::{TextureDimension, TextureViewDimension};
use types::format::TextureFormat;

pub trait Coded: Sized {
    // the number of a value
    ghost number_of: { Self → ℕ };

    // the numbers of no such value
    ghost stands_for_nothing: { ℕ → Type 0 };

    // how a line with such a number is refused
    ghost unknown_code: { ℕ → LineError };

    fn from_code(code: u32) -> Option<Self>
        ensures value { MatchOption result (stands_for_nothing code) (λ value. number_of value ≡ code) }
        ensures only { IfSome result (λ _. stands_for_nothing code → ⊥) };

    fn unknown(code: u32) -> LineError
        ensures { result ≡ unknown_code code };
}

// WebGPU does not have the planar format.
impl Coded for TextureFormat {
    ghost number_of = { code_of };

    ghost stands_for_nothing = { NoFormat };

    ghost unknown_code = { UnknownFormat };

    fn from_code(code: u32) -> Option<TextureFormat> {
        match TextureFormat::try_from(code) {
            Ok(TextureFormat::NV12) => None,
            Ok(format) => Some(format),
            Err(_) => None,
        }
    }

    fn unknown(code: u32) -> LineError {
        LineError::UnknownFormat(code)
    }
}

impl Coded for TextureDimension {
    ghost number_of = { dimension_code };

    ghost stands_for_nothing = { NoDimension };

    ghost unknown_code = { UnknownDimension };

    fn from_code(code: u32) -> Option<TextureDimension> {
        TextureDimension::try_from(code).ok()
    }

    fn unknown(code: u32) -> LineError {
        LineError::UnknownDimension(code)
    }
}

impl Coded for TextureViewDimension {
    ghost number_of = { view_dimension_code };

    ghost stands_for_nothing = { NoViewDimension };

    ghost unknown_code = { UnknownDimension };

    fn from_code(code: u32) -> Option<TextureViewDimension> {
        TextureViewDimension::try_from(code).ok()
    }

    fn unknown(code: u32) -> LineError {
        LineError::UnknownDimension(code)
    }
}

// The value with this number.
pub fn decode<C: Coded>(code: u32) -> Result<C, LineError>
    ensures value { MatchResult result (λ value. C.number_of value ≡ code) (λ error. (error ≡ C.unknown_code code) × C.stands_for_nothing code) }
    ensures only { IfOk result (λ _. C.stands_for_nothing code → ⊥) }
{
    C::from_code(code).ok_or(C::unknown(code))
}
