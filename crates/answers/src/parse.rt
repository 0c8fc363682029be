// Lines of a file of answers, from text to requests.
ghost use Rattle.std.specs.Prelude.{◌≡◌, [], ◌∷◌, map, MatchResult};
ghost use Rattle.types.specs.Format.{code_of};
ghost use Rattle.answers.specs.Faults.{NumberFault, AspectFault, AnswerFault, CodeFault, WordFault, NumbersFault, FormatsFault, RequestFault, TextureFault, ViewFault, FeaturesFault, TextureMarkFault, AnyMarkFault, WordsFault, Fault};
ghost use Rattle.answers.specs.Lines.{texts_of, Write, numbers_of, answer_word, Number, Omittable, IsAspect, Answered, ViewAnswered, TextureSays, AnySays, WordsSay, Says};

use crate::coded::{Coded, decode};
use crate::line::{Answer, AnyAnswer, Line, LineError, TextureAnswer, TextureRequest, ViewAnswer};
use std::alloc::Global;
use types::aspect::TextureAspect;
use types::extent::Extent3d;
use types::features::Features;
use types::format::TextureFormat;
use types::usages::TextureUsages;
use types::view_descriptor::{ImageSubresourceRange, TextureViewDescriptor};

pub fn parse_line<A: Answer>(heap: Global, text: &str) -> Result<Line<A>, LineError>
    ensures { MatchResult result (λ line. Says A.says text.now line) (λ error. Fault A.fault text.now error) }
{
    if text.starts_with('#') {
        return Ok(Line::Comment);
    }
    let words: Vec<&str> = text.split(' ').collect(heap)?;
    let [mark, fields @ ..] = words.as_slice() else {
        return Err(LineError::UnknownMark);
    };
    marked_line(heap, mark, fields)
}

fn marked_line<A: Answer>(heap: Global, mark: &str, fields: &[&str]) -> Result<Line<A>, LineError>
    ensures { MatchResult result (λ line. WordsSay A.says mark.now (texts_of fields.now) line) (λ error. WordsFault A.fault mark.now (texts_of fields.now) error) }
{
    match mark {
        "F" => Ok(Line::Features(features(fields)?)),
        _ => Ok(Line::Answer(A::from_fields(heap, mark, fields)?)),
    }
}

// A file of textures alone has lines with `T`.
impl Answer for TextureAnswer {
    ghost says = { TextureSays };

    ghost fault = { TextureMarkFault };

    fn from_fields(heap: Global, mark: &str, fields: &[&str]) -> Result<TextureAnswer, LineError> {
        match mark {
            "T" => texture_answer(heap, fields),
            _ => Err(LineError::UnknownMark),
        }
    }
}

// A file with views has lines with `V` too.
impl Answer for AnyAnswer {
    ghost says = { AnySays };

    ghost fault = { AnyMarkFault };

    fn from_fields(heap: Global, mark: &str, fields: &[&str]) -> Result<AnyAnswer, LineError> {
        match mark {
            "V" => Ok(AnyAnswer::View(view_answer(fields)?)),
            _ => Ok(AnyAnswer::Texture(TextureAnswer::from_fields(heap, mark, fields)?)),
        }
    }
}

fn features(words: &[&str]) -> Result<Features, LineError>
    ensures { MatchResult result (λ features. Write (texts_of words.now) (features.0 ∷ [])) (λ error. FeaturesFault (texts_of words.now) error) }
{
    let [word] = words else {
        return Err(LineError::WrongFieldCount);
    };
    Ok(Features(number(word)?))
}

fn texture_answer(heap: Global, words: &[&str]) -> Result<TextureAnswer, LineError>
    ensures { MatchResult result (λ answer. Answered (texts_of words.now) answer) (λ error. TextureFault (texts_of words.now) error) }
{
    let [fields @ .., answer] = words else {
        return Err(LineError::WrongFieldCount);
    };
    let numbers = numbers(heap, fields)?;
    let request = texture_request(heap, numbers.as_slice())?;
    let accepted = yes_or_no(answer)?;
    Ok(TextureAnswer { request, accepted })
}

fn texture_request(heap: Global, numbers: &[u32]) -> Result<TextureRequest, LineError>
    ensures { MatchResult result (λ request. numbers_of request ≡ numbers.now) (λ error. RequestFault numbers.now error) }
{
    let [
        width,
        height,
        layers,
        levels,
        samples,
        dimension,
        format,
        usage,
        count,
        view_formats @ ..,
    ] = numbers
    else {
        return Err(LineError::WrongFieldCount);
    };
    if *count as usize != view_formats.len() {
        return Err(LineError::WrongFieldCount);
    }
    Ok(TextureRequest {
        size: Extent3d {
            width: *width,
            height: *height,
            depth_or_array_layers: *layers,
        },
        mip_level_count: *levels,
        sample_count: *samples,
        dimension: decode(*dimension)?,
        format: decode(*format)?,
        usage: TextureUsages(*usage),
        view_formats: texture_formats(heap, view_formats)?,
    })
}

fn texture_formats(heap: Global, codes: &[u32]) -> Result<Vec<TextureFormat>, LineError>
    ensures { MatchResult result (λ formats. map code_of formats.items ≡ codes.now) (λ error. FormatsFault codes.now error) }
{
    let mut formats = Vec::new(heap);
    for code in codes {
        formats.push(decode(*code)?)?;
    }
    Ok(formats)
}

fn view_answer(words: &[&str]) -> Result<ViewAnswer, LineError>
    ensures { MatchResult result (λ answer. ViewAnswered (texts_of words.now) answer) (λ error. ViewFault (texts_of words.now) error) }
{
    let [
        format,
        dimension,
        usage,
        aspect,
        first_level,
        levels,
        first_layer,
        layers,
        answer,
    ] = words
    else {
        return Err(LineError::WrongFieldCount);
    };
    Ok(ViewAnswer {
        request: TextureViewDescriptor {
            format: optional_code(format)?,
            dimension: optional_code(dimension)?,
            usage: optional_number(usage)?.map(|bits| TextureUsages(bits)),
            range: ImageSubresourceRange {
                aspect: texture_aspect(aspect)?,
                base_mip_level: number(first_level)?,
                mip_level_count: optional_number(levels)?,
                base_array_layer: number(first_layer)?,
                array_layer_count: optional_number(layers)?,
            },
        },
        accepted: yes_or_no(answer)?,
    })
}

fn optional_code<C: Coded>(word: &str) -> Result<Option<C>, LineError>
    ensures { MatchResult result (λ value. Omittable (λ w v. Number w (C.number_of v)) word.now value) (λ error. WordFault (CodeFault C.stands_for_nothing C.unknown_code) word.now error) }
{
    optional_number(word)?.map(|code| decode(code)).transpose()
}

fn optional_number(word: &str) -> Result<Option<u32>, LineError>
    ensures { MatchResult result (λ n. Omittable Number word.now n) (λ error. WordFault NumberFault word.now error) }
{
    match word {
        "-" => Ok(None),
        _ => Ok(Some(number(word)?)),
    }
}

fn texture_aspect(word: &str) -> Result<TextureAspect, LineError>
    ensures { MatchResult result (λ aspect. IsAspect word.now aspect) (λ error. AspectFault word.now error) }
{
    match word {
        "a" => Ok(TextureAspect::All),
        "d" => Ok(TextureAspect::DepthOnly),
        "s" => Ok(TextureAspect::StencilOnly),
        _ => Err(LineError::UnknownAspect),
    }
}

fn numbers(heap: Global, words: &[&str]) -> Result<Vec<u32>, LineError>
    ensures { MatchResult result (λ numbers. Write (texts_of words.now) numbers.items) (λ error. NumbersFault (texts_of words.now) error) }
{
    let mut numbers = Vec::new(heap);
    for word in words {
        numbers.push(number(word)?)?;
    }
    Ok(numbers)
}

fn number(word: &str) -> Result<u32, LineError>
    ensures { MatchResult result (λ n. Number word.now n) (λ error. NumberFault word.now error) }
{
    // `parse` takes a plus in front
    if word.starts_with('+') {
        return Err(LineError::NotDecimal);
    }
    word.parse::<u32>().map_err(|_| LineError::NotDecimal)
}

fn yes_or_no(word: &str) -> Result<bool, LineError>
    ensures { MatchResult result (λ accepted. word.now ≡ answer_word accepted) (λ error. AnswerFault word.now error) }
{
    match word {
        "yes" => Ok(true),
        "no" => Ok(false),
        _ => Err(LineError::UnknownAnswer),
    }
}
