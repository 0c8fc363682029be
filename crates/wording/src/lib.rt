// How requests, accepted textures, views and refusals read in a report.
#![tactic(auto)]

pub mod accepted_text;
mod extent_text;
pub mod refusal_text;
pub mod report;
pub mod request_text;
mod texture_words;
pub mod view_text;
mod view_words;
mod worded;
