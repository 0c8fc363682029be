// What there is to say of a refusal: its number, its word, and a name for each of the values that it carries.
ghost use Rattle.std.specs.Prelude.{◌≡◌, length};

use checks::refusal::Refusal;

/// The word of a refusal, and the names of the values that it carries, in their order.
#[derive(Clone, Copy)]
pub struct Words {
    pub word: &'static str,
    pub names: &'static [&'static str],
}

impl Words {
    pub fn new(word: &'static str, names: &'static [&'static str]) -> Words
        ensures word { result.word.now ≡ word.now }
        ensures names { result.names.now ≡ names.now }
    {
        Words { word, names }
    }
}

/// A refusal that can be put into words.
pub trait Worded: Refusal {
    fn words(&self) -> Words
        ensures a_name_each { length result.names.now ≡ length (Self.values_of self.now) };
}
