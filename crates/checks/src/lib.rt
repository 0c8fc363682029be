// What a texture request is worth before the host is asked: the checks of wgpu's `create_texture_inner`, in its order.
#![tactic(auto)]

pub mod accepted;
mod blocks;
pub mod clear_views;
mod dimension;
pub mod error;
mod format_usage;
mod levels;
mod multisampling;
pub mod refusal;
pub mod size;
pub mod texture;
mod transient;
mod usage;
mod view_formats;
