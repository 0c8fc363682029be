// Files of stored answers: what a line says, from text to requests.
#![tactic(auto)]

mod coded;
pub mod line;
pub mod parse;
#[cfg(test)]
mod tests;
