// What a view request is worth before the host is asked: its omitted fields are filled in, and the checks of wgpu's
// `create_texture_view` are gone through in its order.
#![tactic(auto)]

mod dimension;
pub mod error;
mod format;
mod host;
mod ranges;
pub mod refusal;
mod render_extent;
pub mod resolve;
pub mod selection;
mod usage;
pub mod view;
