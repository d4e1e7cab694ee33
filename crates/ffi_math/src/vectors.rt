// The vectors: each is three numbers, and a vector is answered by its coordinate `part`.
// Each exported name is a function of its own with a parameter for each number: the interface for C asks it.
ghost use Rattle.std.specs.Prelude.{◌≡◌};
ghost use Rattle.math.specs.Vector as Vec;
ghost use Rattle.ffi_math.specs.FloatWords.{coordinate_of};

use math::Vector3;

// The coordinate number `part`.
#[tactic(auto, unfolding(crate::specs::FloatWords::coordinate_of))]
pub fn part_of(v: Vector3, part: u32) -> f32
    ensures { result ≡ coordinate_of v part }
{
    match part {
        0 => v.x,
        1 => v.y,
        2 => v.z,
        _ => 0.0,
    }
}

#[unsafe(no_mangle)]
pub extern "C" fn vector_add(ax: f32, ay: f32, az: f32, bx: f32, by: f32, bz: f32, part: u32) -> f32
    ensures { result ≡ coordinate_of (Vec.sum (Vec.vector ax ay az) (Vec.vector bx by bz)) part }
{
    let a = Vector3 {
        x: ax,
        y: ay,
        z: az,
    };
    let b = Vector3 {
        x: bx,
        y: by,
        z: bz,
    };
    part_of(a.add(b), part)
}

#[unsafe(no_mangle)]
pub extern "C" fn vector_sub(ax: f32, ay: f32, az: f32, bx: f32, by: f32, bz: f32, part: u32) -> f32
    ensures { result ≡ coordinate_of (Vec.difference (Vec.vector ax ay az) (Vec.vector bx by bz)) part }
{
    let a = Vector3 {
        x: ax,
        y: ay,
        z: az,
    };
    let b = Vector3 {
        x: bx,
        y: by,
        z: bz,
    };
    part_of(a.sub(b), part)
}

#[unsafe(no_mangle)]
pub extern "C" fn vector_scale(k: f32, x: f32, y: f32, z: f32, part: u32) -> f32
    ensures { result ≡ coordinate_of (Vec.scaled k (Vec.vector x y z)) part }
{
    let v = Vector3 { x, y, z };
    part_of(v.scale(k), part)
}

#[unsafe(no_mangle)]
pub extern "C" fn vector_negate(x: f32, y: f32, z: f32, part: u32) -> f32
    ensures { result ≡ coordinate_of (Vec.negated (Vec.vector x y z)) part }
{
    let v = Vector3 { x, y, z };
    part_of(v.negate(), part)
}

#[unsafe(no_mangle)]
pub extern "C" fn vector_normalize(x: f32, y: f32, z: f32, part: u32) -> f32
    ensures { result ≡ coordinate_of (Vec.normalize (Vec.vector x y z)) part }
{
    let v = Vector3 { x, y, z };
    part_of(v.normalize(), part)
}

#[unsafe(no_mangle)]
pub extern "C" fn vector_dot(ax: f32, ay: f32, az: f32, bx: f32, by: f32, bz: f32) -> f32
    ensures { result ≡ Vec.dot (Vec.vector ax ay az) (Vec.vector bx by bz) }
{
    let a = Vector3 {
        x: ax,
        y: ay,
        z: az,
    };
    let b = Vector3 {
        x: bx,
        y: by,
        z: bz,
    };
    a.dot(b)
}

#[unsafe(no_mangle)]
pub extern "C" fn vector_magnitude(x: f32, y: f32, z: f32) -> f32
    ensures { result ≡ Vec.magnitude (Vec.vector x y z) }
{
    let v = Vector3 { x, y, z };
    v.magnitude()
}

#[unsafe(no_mangle)]
pub extern "C" fn vector_equals(ax: f32, ay: f32, az: f32, bx: f32, by: f32, bz: f32) -> bool
    ensures { result ≡ Vec.same (Vec.vector ax ay az) (Vec.vector bx by bz) }
{
    let a = Vector3 {
        x: ax,
        y: ay,
        z: az,
    };
    let b = Vector3 {
        x: bx,
        y: by,
        z: bz,
    };
    a == b
}
