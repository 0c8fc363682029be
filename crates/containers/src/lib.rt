// What the containers of a gateway ask of the broker in a day, and the device that they ask it of.
#![tactic(auto)]

pub mod barcode_camera;
pub mod device;
pub mod operator_panel;
pub mod overview_camera;
pub mod request;
