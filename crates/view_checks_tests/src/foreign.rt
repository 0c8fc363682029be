// Textures that no request makes: a record can come from elsewhere.
use crate::requests::{WHOLE, WHOLE_RANGE};
use crate::{refusal, viewed};
use std::test::Fail;
use types::capabilities::Capabilities;
use types::dimension::{TextureDimension, TextureViewDimension};
use types::extent::Extent3d;
use types::format::TextureFormat;
use types::texture::Texture;
use types::usages::TextureUsages;
use types::uses::TextureUses;
use types::view_descriptor::{ImageSubresourceRange, TextureViewDescriptor};
use view_checks::error::CreateTextureViewError;
use view_checks::view::check_view_descriptor;

fn endless() -> Texture {
    Texture {
        size: Extent3d {
            width: 1,
            height: 1,
            depth_or_array_layers: u32::MAX,
        },
        mip_level_count: 1,
        sample_count: 1,
        dimension: TextureDimension::D2,
        format: TextureFormat::Rgba8Unorm,
        usage: TextureUsages(4),
        twin_listed: false,
        hal_usage: TextureUses(12),
    }
}

// A sum that stops at the largest number would end where the view begins: a view of no layer.
#[test]
fn the_end_of_the_layers_is_the_true_sum(rt: HostRuntime) {
    let desc = TextureViewDescriptor {
        dimension: Some(TextureViewDimension::D2),
        range: ImageSubresourceRange {
            base_array_layer: u32::MAX,
            ..WHOLE_RANGE
        },
        ..WHOLE
    };
    let answer = check_view_descriptor(&Capabilities::DEFAULT, &endless(), &desc);
    let too_many = CreateTextureViewError::TooManyArrayLayers {
        base_array_layer: u32::MAX,
        array_layer_count: 1,
        total: u32::MAX,
    };
    assert_eq!(rt; answer.err(), Some(too_many));
}

#[test]
fn the_last_of_all_layers_is_viewed(rt: HostRuntime) -> Result<(), Fail> {
    let desc = TextureViewDescriptor {
        range: ImageSubresourceRange {
            base_array_layer: u32::MAX - 1,
            ..WHOLE_RANGE
        },
        ..WHOLE
    };
    let view = viewed(&Capabilities::DEFAULT, &endless(), &desc)?;
    assert_eq!(rt; view.layers.first, u32::MAX - 1);
    assert_eq!(rt; view.layers.end, u32::MAX);
    assert_eq!(rt; view.dimension, TextureViewDimension::D2Array);
    Ok(())
}

// No usage at all is the texture's own here, and no other is within it.
#[test]
fn a_texture_of_no_usage_has_views_of_none(rt: HostRuntime) -> Result<(), Fail> {
    let texture = Texture {
        size: Extent3d {
            width: 1,
            height: 1,
            depth_or_array_layers: 1,
        },
        mip_level_count: 1,
        sample_count: 1,
        dimension: TextureDimension::D2,
        format: TextureFormat::Rgba8Unorm,
        usage: TextureUsages(0),
        twin_listed: false,
        hal_usage: TextureUses::NONE,
    };
    let view = viewed(&Capabilities::DEFAULT, &texture, &WHOLE)?;
    assert_eq!(rt; view.usage, TextureUsages(0));
    assert_eq!(rt; view.hal_usage, TextureUses::NONE);
    let bound = TextureViewDescriptor {
        usage: Some(TextureUsages(4)),
        ..WHOLE
    };
    assert_eq!(rt; refusal(&Capabilities::DEFAULT, &texture, &bound), Some(34));
    Ok(())
}

// A twin that is noted where the format has none changes nothing.
#[test]
fn a_noted_twin_that_there_is_not_opens_no_format(rt: HostRuntime) {
    let texture = Texture {
        size: Extent3d {
            width: 1,
            height: 1,
            depth_or_array_layers: 1,
        },
        mip_level_count: 1,
        sample_count: 1,
        dimension: TextureDimension::D2,
        format: TextureFormat::R8Unorm,
        usage: TextureUsages(4),
        twin_listed: true,
        hal_usage: TextureUses(12),
    };
    let desc = TextureViewDescriptor {
        format: Some(TextureFormat::Rg8Unorm),
        ..WHOLE
    };
    assert_eq!(rt; refusal(&Capabilities::DEFAULT, &texture, &desc), Some(38));
}
