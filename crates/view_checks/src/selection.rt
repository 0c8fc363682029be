// Whether two views select the same of a texture.
ghost use Rattle.std.specs.Prelude.{ℕ, ◌↔◌, IsTrue};
ghost use Rattle.types.specs.declared.texture.Texture.{Texture};
ghost use Rattle.view_checks.specs.Selection.{SameParts, SameTriples, ViewOf};

use types::view::TextureView;

// Whether the level ranges, the layer ranges and the aspect sets are equal. For two accepted views of one texture that is
// whether they select the same triples of a level, a layer and an aspect.
pub fn select_alike(a: &TextureView, b: &TextureView) -> bool
    ensures parts { IsTrue result ↔ SameParts a.now b.now }
    ensures triples { (features others : ℕ) (t : Texture) → ViewOf features t a.now → ViewOf others t b.now → IsTrue result ↔ SameTriples a.now b.now }
{
    same_parts(a, b)
}

fn same_parts(a: &TextureView, b: &TextureView) -> bool
    ensures { IsTrue result ↔ SameParts a.now b.now }
{
    a.mips == b.mips && a.layers == b.layers && a.aspects == b.aspects
}
