// A refusal as an operator reads it: its number, its word, and what it carries.
use crate::worded::Worded;
use checks::refusal::Values;
use std::fmt;

/// A refused texture or view request, by the error that says why.
#[derive(Clone, Copy)]
pub struct RefusalText<'a, E> {
    pub error: &'a E,
}

impl<E: Worded> fmt::Display for RefusalText<'_, E> {
    fn fmt<W: fmt::Write>(&self, f: &mut fmt::Formatter<W>) -> fmt::Result {
        let error = self.error;
        let words = error.words();
        write!(f, "refused: no {}, {}", error.number(), words.word)?;
        match error.values() {
            Values::Nothing => Ok(()),
            Values::One(a) => write_values(f, words.names, &[a]),
            Values::Two(a, b) => write_values(f, words.names, &[a, b]),
            Values::Three(a, b, c) => write_values(f, words.names, &[a, b, c]),
        }
    }
}

fn write_values<W: fmt::Write>(
    f: &mut fmt::Formatter<W>,
    names: &[&str],
    values: &[u32],
) -> fmt::Result {
    for (i, (name, value)) in names.iter().zip(values).enumerate() {
        let before = if i == 0 { ":" } else { "," };
        write!(f, "{before} {name} {value}")?;
    }
    Ok(())
}
