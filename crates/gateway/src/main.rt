// A gateway's day, as far as requests are checked: what an operator panel and two camera containers ask for, and what
// each request is worth before the host is asked.
#![tactic(auto)]

use containers::device::DEVICE;
use containers::request::Request;
use containers::{barcode_camera, operator_panel, overview_camera};
use std::io;
use wording::report::report_texture;

// Without the barcode camera's palette, which is asked for so that it can be viewed.
fn main(rt: HostRuntime) -> io::Result<()> {
    println!(rt; "{}", operator_panel::NAME)?;
    serve(&rt, &operator_panel::REQUESTS)?;
    println!(rt; "{}", overview_camera::NAME)?;
    serve(&rt, &overview_camera::REQUESTS)?;
    println!(rt; "{}", barcode_camera::NAME)?;
    serve(&rt, &barcode_camera::SCANNING)?;
    serve(&rt, &barcode_camera::MASKING)
}

fn serve(rt: &impl Print, requests: &[Request]) -> io::Result<()> {
    for request in requests {
        report_texture(rt, &DEVICE, request.what, &request.desc)?;
    }
    Ok(())
}
