// A gateway's day, as far as requests are checked: what an operator panel and two camera containers ask for, textures and
// views of them, and what each request is worth before the host is asked.
#![tactic(auto)]

use containers::device::DEVICE;
use containers::request::{Request, ViewRequest};
use containers::{barcode_camera, operator_panel, overview_camera};
use std::io;
use types::texture::Texture;
use types::view::TextureView;
use view_checks::selection::select_alike;
use view_checks::view::check_view_descriptor;
use wording::refusal_text::RefusalText;
use wording::report::report_texture;
use wording::view_text::ViewText;

fn main(rt: HostRuntime) -> io::Result<()> {
    println!(rt; "{}", operator_panel::NAME)?;
    serve(&rt, &operator_panel::REQUESTS)?;
    println!(rt; "{}", overview_camera::NAME)?;
    serve(&rt, &overview_camera::REQUESTS)?;
    println!(rt; "{}", barcode_camera::NAME)?;
    serve(&rt, &barcode_camera::SCANNING)?;
    serve_texture(&rt, &barcode_camera::PALETTE)?;
    serve(&rt, &barcode_camera::MASKING)
}

fn serve(rt: &impl Print, requests: &[Request]) -> io::Result<()> {
    for request in requests {
        serve_texture(rt, request)?;
    }
    Ok(())
}

// The texture, and views of it if it is accepted.
fn serve_texture(rt: &impl Print, request: &Request) -> io::Result<()> {
    match report_texture(rt, &DEVICE, request.what, &request.desc)? {
        Some(texture) => serve_views(rt, &texture, request.views),
        None => Ok(()),
    }
}

fn serve_views(rt: &impl Print, texture: &Texture, requests: &[ViewRequest]) -> io::Result<()> {
    let mut last: Option<TextureView> = None;
    for request in requests {
        print!(rt; "    view, {}: ", request.what)?;
        match check_view_descriptor(&DEVICE, texture, &request.desc) {
            Ok(view) => {
                println!(rt; "{}", ViewText { view: &view })?;
                print_alike(rt, last, &view)?;
                last = Some(view);
            }
            Err(error) => println!(rt; "{}", RefusalText { error: &error })?,
        }
    }
    Ok(())
}

fn print_alike(rt: &impl Print, last: Option<TextureView>, view: &TextureView) -> io::Result<()> {
    if let Some(last) = last
        && select_alike(&last, view)
    {
        println!(rt; "      it selects the same as the view before")?;
    }
    Ok(())
}
