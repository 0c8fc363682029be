// The vocabulary of texture and view requests: the table of formats, dimensions, aspects, usages, features, limits, sizes,
// ranges and descriptors, and what is kept of an accepted texture or view.
#![tactic(auto)]

pub mod aspect;
pub mod bits;
pub mod capabilities;
pub mod code;
pub mod conv;
pub mod descriptor;
pub mod dimension;
mod display;
pub mod downlevel_flags;
pub mod extent;
pub mod features;
pub mod format;
pub mod format_features;
pub mod format_info;
pub mod format_row;
pub mod format_table;
pub mod limits;
pub mod range;
pub mod ranges;
pub mod sample_counts;
pub mod texture;
pub mod texture_info;
pub mod usages;
pub mod uses;
pub mod view;
pub mod view_descriptor;
