// The planes: one is given by its kind (0, 1, 2 an axis, any other a normal), the normal's floats and
// the distance, and answered, as a crossing is, by its word number `word`.
// Each exported name is a function of its own with a parameter for each number: the interface for C asks it.
ghost use Rattle.std.specs.Prelude.{◌≡◌, get_or};
ghost use Rattle.math.specs.Vector as Vec;
ghost use Rattle.math.specs.Plane as Pl;
ghost use Rattle.ffi_math.specs.FloatWords as FloatWords;

use math::{Alignment, Hyperplane, HyperplaneSide, LinePlaneIntersect, PointIntersection, Vector3};
use words::kind_number;

#[tactic(auto, unfolding(crate::specs::FloatWords::axis_plane))]
fn axis_plane(axis: u32, dist: f32) -> Hyperplane
    ensures { result ≡ FloatWords.axis_plane axis dist }
{
    if axis == 0 {
        return Hyperplane::axis_x(dist);
    }
    if axis == 1 {
        return Hyperplane::axis_y(dist);
    }
    Hyperplane::axis_z(dist)
}

#[tactic(auto, unfolding(crate::specs::FloatWords::plane_given))]
pub fn plane_given(kind: u32, nx: f32, ny: f32, nz: f32, dist: f32) -> Hyperplane
    ensures { result ≡ FloatWords.plane_given kind nx ny nz dist }
{
    if kind == 0 {
        return Hyperplane::axis_x(dist);
    }
    if kind == 1 {
        return Hyperplane::axis_y(dist);
    }
    if kind == 2 {
        return Hyperplane::axis_z(dist);
    }
    let normal = Vector3 {
        x: nx,
        y: ny,
        z: nz,
    };
    Hyperplane {
        alignment: Alignment::Normal(normal),
        dist,
    }
}

fn side_word(side: HyperplaneSide) -> u32
    ensures { result ≡ FloatWords.side_word side }
{
    side as u32
}

// Word number `word` of a plane.
#[tactic(auto, unfolding(crate::specs::FloatWords::plane_words))]
pub fn plane_word(plane: Hyperplane, word: u32) -> u32
    ensures { result ≡ get_or (FloatWords.plane_words plane) word 0 }
{
    let alignment = plane.alignment;
    let normal = plane.normal();
    match word {
        0 => kind_number(alignment),
        1 => float::num::to_bits(normal.x),
        2 => float::num::to_bits(normal.y),
        3 => float::num::to_bits(normal.z),
        4 => float::num::to_bits(plane.dist),
        _ => 0,
    }
}

// Word number `word` of a crossing at a point.
#[tactic(auto, unfolding(crate::specs::FloatWords::point_words))]
fn point_word(crossing: PointIntersection, word: u32) -> u32
    ensures { result ≡ get_or (FloatWords.point_words crossing) word 0 }
{
    let plane = crossing.plane;
    match word {
        0 => 1,
        1 => float::num::to_bits(crossing.ratio),
        2 => float::num::to_bits(crossing.point.x),
        3 => float::num::to_bits(crossing.point.y),
        4 => float::num::to_bits(crossing.point.z),
        _ => plane_word(plane, word - 5),
    }
}

// Word number `word` of what a segment does.
fn crossing_word(crossing: LinePlaneIntersect, word: u32) -> u32
    ensures { result ≡ get_or (FloatWords.crossing_words crossing) word 0 }
{
    match crossing {
        LinePlaneIntersect::NoIntersection(side) => { if word == 1 { side_word(side) } else { 0 } }
        LinePlaneIntersect::PointIntersection(point) => point_word(point, word),
    }
}

#[unsafe(no_mangle)]
pub extern "C" fn plane_axis_word(axis: u32, dist: f32, word: u32) -> u32
    ensures { result ≡ get_or (FloatWords.plane_words (FloatWords.axis_plane axis dist)) word 0 }
{
    plane_word(axis_plane(axis, dist), word)
}

#[unsafe(no_mangle)]
pub extern "C" fn plane_new_word(nx: f32, ny: f32, nz: f32, dist: f32, word: u32) -> u32
    ensures { result ≡ get_or (FloatWords.plane_words (Pl.new_plane (Vec.vector nx ny nz) dist)) word 0 }
{
    plane_word(
        Hyperplane::new(
            Vector3 {
                x: nx,
                y: ny,
                z: nz,
            },
            dist,
        ),
        word,
    )
}

#[unsafe(no_mangle)]
pub extern "C" fn plane_from_normal_word(nx: f32, ny: f32, nz: f32, dist: f32, word: u32) -> u32
    ensures { result ≡ get_or (FloatWords.plane_words (Pl.from_normal (Vec.vector nx ny nz) dist)) word 0 }
{
    plane_word(
        Hyperplane::from_normal(
            Vector3 {
                x: nx,
                y: ny,
                z: nz,
            },
            dist,
        ),
        word,
    )
}

#[unsafe(no_mangle)]
pub extern "C" fn plane_negate_word(
    kind: u32,
    nx: f32,
    ny: f32,
    nz: f32,
    dist: f32,
    word: u32,
) -> u32
    ensures { result ≡ get_or (FloatWords.plane_words (Pl.negated (FloatWords.plane_given kind nx ny nz dist))) word 0 }
{
    plane_word(plane_given(kind, nx, ny, nz, dist).negate(), word)
}

#[unsafe(no_mangle)]
pub extern "C" fn plane_point_dist(
    kind: u32,
    nx: f32,
    ny: f32,
    nz: f32,
    dist: f32,
    px: f32,
    py: f32,
    pz: f32,
) -> f32
    ensures { result ≡ Pl.point_dist (FloatWords.plane_given kind nx ny nz dist) (Vec.vector px py pz) }
{
    plane_given(kind, nx, ny, nz, dist).point_dist(Vector3 {
        x: px,
        y: py,
        z: pz,
    })
}

#[unsafe(no_mangle)]
pub extern "C" fn plane_point_side(
    kind: u32,
    nx: f32,
    ny: f32,
    nz: f32,
    dist: f32,
    px: f32,
    py: f32,
    pz: f32,
) -> u32
    ensures { result ≡ FloatWords.side_word (Pl.point_side (FloatWords.plane_given kind nx ny nz dist) (Vec.vector px py pz)) }
{
    side_word(plane_given(kind, nx, ny, nz, dist).point_side(Vector3 {
        x: px,
        y: py,
        z: pz,
    }))
}

#[unsafe(no_mangle)]
pub extern "C" fn plane_crossing_word(
    kind: u32,
    nx: f32,
    ny: f32,
    nz: f32,
    dist: f32,
    sx: f32,
    sy: f32,
    sz: f32,
    ex: f32,
    ey: f32,
    ez: f32,
    word: u32,
) -> u32
    ensures { result ≡ get_or (FloatWords.crossing_words (Pl.line_segment (FloatWords.plane_given kind nx ny nz dist) (Vec.vector sx sy sz) (Vec.vector ex ey ez))) word 0 }
{
    let plane = plane_given(kind, nx, ny, nz, dist);
    let start = Vector3 {
        x: sx,
        y: sy,
        z: sz,
    };
    let end = Vector3 {
        x: ex,
        y: ey,
        z: ez,
    };
    crossing_word(plane.line_segment_intersection(start, end), word)
}
