// Hulls with the body sizes that a hall brings in place of the built-in ones.
#![tactic(auto)]

ghost use Rattle.std.specs.Prelude.{◌≡◌};
ghost use Rattle.format.specs.Answers.{answer_of};
ghost use Rattle.sized_hulls.specs.Sized as Sized;

use format::refusal::Answer;
use format::section::BspData;
use hull::collision::BspCollisionHull;
use math::Vector3;
use sizes::{BodySizes, Bounds};

// The sizes that `hull` gives to hulls 1 and 2.
pub fn built_in() -> BodySizes
    ensures { result ≡ Sized.built_in_sizes }
{
    BodySizes {
        hull_1: Bounds {
            mins: Vector3::new(-16.0, -16.0, -24.0),
            maxs: Vector3::new(16.0, 16.0, 32.0),
        },
        hull_2: Bounds {
            mins: Vector3::new(-32.0, -32.0, -24.0),
            maxs: Vector3::new(32.0, 32.0, 64.0),
        },
    }
}

// The hull with other bounds. (`with_surface` of `faces` has its shape: a literal, and nothing to share.)
fn with_bounds(hull: BspCollisionHull, body: Bounds) -> BspCollisionHull
    ensures { result ≡ Sized.with_bounds hull body }
{
    BspCollisionHull {
        mins: body.mins,
        maxs: body.maxs,
        ..hull
    }
}

// The hull of an index with the bounds of its body. Hull 0 keeps its zeros.
#[tactic(auto, unfolding(crate::specs::Sized::with_body))]
fn with_body(hull: BspCollisionHull, sizes: BodySizes, index: usize) -> BspCollisionHull
    ensures { result ≡ Sized.with_body sizes index hull }
{
    match index {
        0 => hull,
        1 => with_bounds(hull, sizes.hull_1),
        _ => with_bounds(hull, sizes.hull_2),
    }
}

// The hull of the model of an index with these body sizes, refused as `hull` is. The sizes are taken as they are.
#[tactic(auto, unfolding(crate::specs::Sized::hull_sized))]
pub fn hull_sized(
    s: &[u8],
    map: BspData,
    sizes: BodySizes,
    model: usize,
    index: usize,
) -> Answer<BspCollisionHull>
    ensures { answer_of result ≡ Sized.hull_sized s.now map sizes model index }
{
    let own = hull::collision::hull(s, map, model, index)?;
    Ok(with_body(own, sizes, index))
}
