// How large a view is when it is rendered to, or why it cannot be.
ghost use Rattle.std.specs.Prelude.{◌≡◌};
ghost use Rattle.checks.specs.Check.{answered};
ghost use Rattle.view_checks.specs.Views.{extent_of, render_checks};

use crate::resolve::ResolvedView;
use types::bits::BitSet;
use types::dimension::TextureViewDimension;
use types::extent::Extent3d;
use types::features::Features;
use types::texture::Texture;
use types::usages::TextureUsages;
use types::view::TextureViewNotRenderableReason;

pub(crate) fn render_extent(
    features: Features,
    texture: &Texture,
    view: &ResolvedView,
) -> Result<Extent3d, TextureViewNotRenderableReason>
    ensures { result ≡ answered (render_checks features.0 texture.now view.now) (extent_of texture.now view.now) }
{
    let aspects = texture.format.selected_aspects(view.aspect);
    'error: {
        if !view.usage.contains(TextureUsages::RENDER_ATTACHMENT) {
            break 'error Err(TextureViewNotRenderableReason::Usage(view.usage));
        }
        if !matches!(
            view.dimension,
            TextureViewDimension::D2 | TextureViewDimension::D2Array | TextureViewDimension::D3
        ) {
            break 'error Err(TextureViewNotRenderableReason::Dimension(view.dimension));
        }
        if view.mip_level_count != 1 {
            break 'error Err(TextureViewNotRenderableReason::MipLevelCount(view.mip_level_count));
        }
        if view.array_layer_count != 1 && !features.contains(Features::MULTIVIEW) {
            break 'error Err(TextureViewNotRenderableReason::ArrayLayerCount(
                view.array_layer_count,
            ));
        }
        if !texture.format.is_multi_planar_format() && aspects != texture.format.aspects() {
            break 'error Err(TextureViewNotRenderableReason::Aspects(aspects));
        }
        Ok(texture.compute_render_extent(view.base_mip_level, view.aspect.to_plane()))
    }
}
