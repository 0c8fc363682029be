// View formats: the format itself and its twin.
use crate::refusal;
use crate::requests::SAMPLED;
use checks::texture::check_texture_descriptor;
use types::capabilities::Capabilities;
use types::descriptor::TextureDescriptor;
use types::downlevel_flags::DownlevelFlags;
use types::format::TextureFormat;

const RGBA: TextureFormat = TextureFormat::Rgba8Unorm;

const SRGB: TextureFormat = TextureFormat::Rgba8UnormSrgb;

const BGRA: TextureFormat = TextureFormat::Bgra8Unorm;

struct Case {
    view_formats: &'static [TextureFormat],
    // the refusal on a device with view formats, and on one without
    with: Option<u32>,
    without: Option<u32>,
    twin_listed: bool,
}

static CASES: [Case; 6] = [
    Case {
        view_formats: &[],
        with: None,
        without: None,
        twin_listed: false,
    },
    Case {
        view_formats: &[RGBA],
        with: None,
        without: None,
        twin_listed: false,
    },
    Case {
        view_formats: &[SRGB],
        with: None,
        without: Some(27),
        twin_listed: true,
    },
    Case {
        view_formats: &[SRGB, RGBA, SRGB],
        with: None,
        without: Some(27),
        twin_listed: true,
    },
    Case {
        view_formats: &[BGRA],
        with: Some(26),
        without: Some(26),
        twin_listed: false,
    },
    Case {
        view_formats: &[SRGB, BGRA],
        with: Some(26),
        without: Some(26),
        twin_listed: false,
    },
];

#[test]
fn the_twin_is_noted(rt: HostRuntime) {
    let bare = Capabilities {
        downlevel_flags: DownlevelFlags(0),
        ..Capabilities::DEFAULT
    };
    for case in &CASES {
        let view_formats = case.view_formats;
        let desc = TextureDescriptor {
            view_formats,
            ..SAMPLED
        };
        assert_eq!(rt;
            refusal(&Capabilities::DEFAULT, &desc),
            case.with,
            "{view_formats:?}"
        );
        assert_eq!(rt; refusal(&bare, &desc), case.without, "{view_formats:?}");
        if let Ok(twin_listed) = check_texture_descriptor(&Capabilities::DEFAULT, &desc) {
            assert_eq!(rt; twin_listed, case.twin_listed, "{view_formats:?}");
        }
    }
}
