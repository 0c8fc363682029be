// What a line of a file of answers holds.
ghost use Rattle.std.specs.Prelude.{◌≡◌, ℕ, List, MatchResult};
ghost use Rattle.answers.specs.Lines.{texts_of};
ghost use Rattle.answers.specs.declared.line.LineError.{LineError};
ghost use Rattle.answers.specs.declared.line.LineError.TheVariants.{OutOfMemory};

use std::alloc::{AllocError, AllocFailed, Global};
use types::dimension::TextureDimension;
use types::extent::Extent3d;
use types::features::Features;
use types::format::TextureFormat;
use types::usages::TextureUsages;
use types::view_descriptor::TextureViewDescriptor;

#[derive(Drop)]
pub enum Line<A> {
    Comment,
    // what the device can do from here on
    Features(Features),
    Answer(A),
}

// The answers that a program reads: each kind has its marks.
pub trait Answer: Sized + Drop {
    // Holds of a mark, the fields after it, and the answer that they write.
    ghost says: { List ℕ → List (List ℕ) → Self → Type 0 };

    // Holds of a mark, the fields after it, and each error by which they may be refused.
    ghost fault: { List ℕ → List (List ℕ) → LineError → Type 0 };

    fn from_fields(heap: Global, mark: &str, fields: &[&str]) -> Result<Self, LineError>
        ensures { MatchResult result (λ answer. says mark.now (texts_of fields.now) answer) (λ error. fault mark.now (texts_of fields.now) error) };
}

// A request, and whether the implementation accepted it.
#[derive(Clone, Copy, Drop)]
pub struct StoredAnswer<R> {
    pub request: R,
    pub accepted: bool,
}

pub type TextureAnswer = StoredAnswer<TextureRequest>;

// The view is one of the texture that was last made.
pub type ViewAnswer = StoredAnswer<TextureViewDescriptor>;

// What a descriptor asks for, with view formats of its own: a descriptor over a parameter would put the kind of list into the
// signature of every check.
#[derive(Drop)]
pub struct TextureRequest {
    pub size: Extent3d,
    pub mip_level_count: u32,
    pub sample_count: u32,
    pub dimension: TextureDimension,
    pub format: TextureFormat,
    pub usage: TextureUsages,
    pub view_formats: Vec<TextureFormat>,
}

// An answer of either kind.
#[derive(Drop)]
pub enum AnyAnswer {
    Texture(TextureAnswer),
    View(ViewAnswer),
}

// Why a line cannot be read.
#[derive(Clone, Copy, Debug, PartialEq, Eq)]
pub enum LineError {
    UnknownMark,
    WrongFieldCount,
    NotDecimal,
    UnknownDimension(u32),
    UnknownFormat(u32),
    UnknownAspect,
    UnknownAnswer,
    OutOfMemory,
}

impl From<AllocError> for LineError {
    ghost from_gives = { λ _ r. r ≡ OutOfMemory };

    fn from(_error: AllocError) -> LineError {
        LineError::OutOfMemory
    }
}

impl<T: Drop> From<AllocFailed<T>> for LineError {
    ghost from_gives = { λ _ r. r ≡ OutOfMemory };

    fn from(_error: AllocFailed<T>) -> LineError {
        LineError::OutOfMemory
    }
}
