// Vectors of three f32: cgmath's `Vector3<f32>`, as far as the map code uses it.
ghost use Rattle.std.specs.Prelude.{◌≡◌, true};
ghost use Rattle.std.specs.Float.{binary32};
ghost use Rattle.std.specs.Float.Ieee.{div};
ghost use Rattle.float.specs.Root.{sqrt};
ghost use Rattle.math.specs.Vector as Vec;

#[derive(Clone, Copy)]
pub enum Axis {
    X,
    Y,
    Z,
}

#[derive(Clone, Copy, PartialEq)]
pub struct Vector3 {
    pub x: f32,
    pub y: f32,
    pub z: f32,
}

// 1 / √x. The normals of a map are mostly of length 1, rounded: their square is one of the eight f32 next to 1, and there the number is
// known. A number goes in and out, so that it stays in a register. A call, since few planes are slanted: in line it takes the registers of
// what reads them, and a walk is a fifth slower.
#[inline(never)]
#[tactic(auto, using(crate::proofs::NearOne::inverse_below, crate::proofs::NearOne::inverse_at, crate::proofs::NearOne::inverse_above, float::proofs::Compare::T_of))]
pub(crate) fn inverse_root(x: f32) -> f32
    ensures { result ≡ div binary32 Vec.one32 (sqrt x) }
{
    let bits = float::num::to_bits(x);
    // the four f32 below 1, then 1 and the one above it, then the next two
    if 0x3f7f_fffc <= bits {
        if bits < 0x3f80_0000 {
            return 1.00000012;
        }
        if bits < 0x3f80_0002 {
            return 1.0;
        }
        if bits < 0x3f80_0004 {
            return 0.99999988;
        }
    }
    1.0 / float::root::sqrt(x)
}

impl Vector3 {
    // (The parameters are the fields: no struct but this one would hold the three.)
    pub fn new(x: f32, y: f32, z: f32) -> Vector3
        ensures { result ≡ Vec.vector x y z }
    {
        Vector3 { x, y, z }
    }

    pub fn unit_x() -> Vector3
        ensures { result ≡ Vec.unit_x }
    {
        Vector3 {
            x: 1.0,
            y: 0.0,
            z: 0.0,
        }
    }

    pub fn unit_y() -> Vector3
        ensures { result ≡ Vec.unit_y }
    {
        Vector3 {
            x: 0.0,
            y: 1.0,
            z: 0.0,
        }
    }

    pub fn unit_z() -> Vector3
        ensures { result ≡ Vec.unit_z }
    {
        Vector3 {
            x: 0.0,
            y: 0.0,
            z: 1.0,
        }
    }

    pub fn add(self, other: Vector3) -> Vector3
        ensures { result ≡ Vec.sum self other }
    {
        Vector3 {
            x: self.x + other.x,
            y: self.y + other.y,
            z: self.z + other.z,
        }
    }

    pub fn sub(self, other: Vector3) -> Vector3
        ensures { result ≡ Vec.difference self other }
    {
        Vector3 {
            x: self.x - other.x,
            y: self.y - other.y,
            z: self.z - other.z,
        }
    }

    pub fn scale(self, by: f32) -> Vector3
        ensures { result ≡ Vec.scaled by self }
    {
        Vector3 {
            x: by * self.x,
            y: by * self.y,
            z: by * self.z,
        }
    }

    pub fn negate(self) -> Vector3
        ensures { result ≡ Vec.negated self }
    {
        Vector3 {
            x: -self.x,
            y: -self.y,
            z: -self.z,
        }
    }

    pub fn dot(self, other: Vector3) -> f32
        ensures { result ≡ Vec.dot self other }
    {
        self.x * other.x + self.y * other.y + self.z * other.z
    }

    pub fn magnitude(self) -> f32
        ensures { result ≡ Vec.magnitude self }
    {
        float::root::sqrt(self.dot(self))
    }

    // Each coordinate times 1 / magnitude.
    #[tactic(auto, unfolding(crate::specs::Vector::normalize))]
    pub fn normalize(self) -> Vector3
        ensures { result ≡ Vec.normalize self }
    {
        self.scale(inverse_root(self.dot(self)))
    }

    // Whether the square is 1 or the f32 above 1: normalising leaves such a vector as it is.
    #[tactic(auto, using(crate::proofs::NearOne::normalize_at, crate::proofs::Fits::told_fits, float::proofs::Compare::T_of))]
    pub(crate) fn is_unit(self) -> bool
        ensures { result ≡ true → Vec.normalize self ≡ self }
    {
        let bits = float::num::to_bits(self.dot(self));
        if 0x3f80_0000 <= bits {
            bits < 0x3f80_0002
        } else {
            false
        }
    }

    // The coordinate along an axis.
    pub fn along(self, axis: Axis) -> f32
        ensures { result ≡ Vec.along self axis }
    {
        match axis {
            Axis::X => self.x,
            Axis::Y => self.y,
            Axis::Z => self.z,
        }
    }
}
