// Which views of one texture select the same of it.
use crate::requests::{FACES, IMAGE, WHOLE, WHOLE_RANGE};
use crate::{accepted, viewed};
use std::test::Fail;
use types::aspect::TextureAspect;
use types::capabilities::Capabilities;
use types::descriptor::TextureDescriptor;
use types::dimension::TextureViewDimension;
use types::format::TextureFormat;
use types::usages::TextureUsages;
use types::view_descriptor::{ImageSubresourceRange, TextureViewDescriptor};
use view_checks::selection::select_alike;

fn alike(
    desc: &TextureDescriptor,
    a: &TextureViewDescriptor,
    b: &TextureViewDescriptor,
) -> Result<bool, Fail> {
    let device = Capabilities::DEFAULT;
    let texture = accepted(&device, desc)?;
    let a = viewed(&device, &texture, a)?;
    let b = viewed(&device, &texture, b)?;
    Ok(select_alike(&a, &b))
}

const CUBE: TextureViewDescriptor = TextureViewDescriptor {
    dimension: Some(TextureViewDimension::Cube),
    ..WHOLE
};

#[test]
fn dimension_and_usage_play_no_part(rt: HostRuntime) -> Result<(), Fail> {
    let bound = TextureViewDescriptor {
        usage: Some(TextureUsages(4)),
        ..CUBE
    };
    assert!(rt; alike(&FACES, &WHOLE, &CUBE)?);
    assert!(rt; alike(&FACES, &WHOLE, &bound)?);
    Ok(())
}

#[test]
fn levels_and_layers_do(rt: HostRuntime) -> Result<(), Fail> {
    let first_level = TextureViewDescriptor {
        range: ImageSubresourceRange {
            mip_level_count: Some(1),
            ..WHOLE_RANGE
        },
        ..WHOLE
    };
    let later_levels = TextureViewDescriptor {
        range: ImageSubresourceRange {
            base_mip_level: 1,
            ..WHOLE_RANGE
        },
        ..WHOLE
    };
    let first_layer = TextureViewDescriptor {
        dimension: Some(TextureViewDimension::D2),
        ..WHOLE
    };
    let last_layer = TextureViewDescriptor {
        range: ImageSubresourceRange {
            base_array_layer: 5,
            ..WHOLE_RANGE
        },
        ..WHOLE
    };
    assert!(rt; !alike(&FACES, &WHOLE, &first_level)?);
    assert!(rt; !alike(&FACES, &WHOLE, &later_levels)?);
    assert!(rt; !alike(&FACES, &WHOLE, &first_layer)?);
    assert!(rt; !alike(&FACES, &first_layer, &last_layer)?);
    Ok(())
}

#[test]
fn aspects_do(rt: HostRuntime) -> Result<(), Fail> {
    let combined = TextureDescriptor {
        format: TextureFormat::Depth24PlusStencil8,
        ..IMAGE
    };
    let depth = TextureViewDescriptor {
        range: ImageSubresourceRange {
            aspect: TextureAspect::DepthOnly,
            ..WHOLE_RANGE
        },
        ..WHOLE
    };
    let stencil = TextureViewDescriptor {
        range: ImageSubresourceRange {
            aspect: TextureAspect::StencilOnly,
            ..WHOLE_RANGE
        },
        ..WHOLE
    };
    assert!(rt; !alike(&combined, &WHOLE, &depth)?);
    assert!(rt; !alike(&combined, &depth, &stencil)?);
    assert!(rt; alike(&combined, &depth, &depth)?);
    let alone = TextureDescriptor {
        format: TextureFormat::Depth16Unorm,
        ..IMAGE
    };
    assert!(rt;
        alike(&alone, &WHOLE, &depth)?,
        "a depth that stands alone is all that there is"
    );
    Ok(())
}
