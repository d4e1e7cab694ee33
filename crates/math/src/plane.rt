// Planes in space: those of math.rs, their sides and distances, and where a segment crosses one.
ghost use Rattle.std.specs.Prelude.{◌≡◌};
ghost use Rattle.math.specs.Plane as Pl;

use crate::vector::{Axis, Vector3, inverse_root};

#[derive(Clone, Copy, PartialEq, Eq)]
pub enum HyperplaneSide {
    Positive,
    Negative,
}

impl HyperplaneSide {
    // The other side. (Of the shape of `side_word` of `ffi_math` by chance: two arms.)
    pub fn negate(self) -> HyperplaneSide
        ensures { result ≡ Pl.negated_side self }
    {
        match self {
            HyperplaneSide::Positive => HyperplaneSide::Negative,
            HyperplaneSide::Negative => HyperplaneSide::Positive,
        }
    }

    pub fn from_dist(dist: f32) -> HyperplaneSide
        ensures { result ≡ Pl.from_dist dist }
    {
        if dist >= 0.0 {
            HyperplaneSide::Positive
        } else {
            HyperplaneSide::Negative
        }
    }
}

#[derive(Clone, Copy)]
pub enum Alignment {
    Axis(Axis),
    Normal(Vector3),
}

impl Alignment {
    // The normal turned round: for an axis the zero vector with -1 along it.
    pub fn turned(self) -> Vector3
        ensures { result ≡ Pl.turned self }
    {
        match self {
            Alignment::Axis(a) => match a {
                Axis::X => Vector3 {
                    x: -1.0,
                    y: 0.0,
                    z: 0.0,
                },
                Axis::Y => Vector3 {
                    x: 0.0,
                    y: -1.0,
                    z: 0.0,
                },
                Axis::Z => Vector3 {
                    x: 0.0,
                    y: 0.0,
                    z: -1.0,
                },
            },
            Alignment::Normal(n) => n.negate(),
        }
    }
}

#[derive(Clone, Copy)]
pub struct Hyperplane {
    pub alignment: Alignment,
    pub dist: f32,
}

// Where a segment crosses a plane: how far along, the point, and the plane turned to the start's side.
#[derive(Clone, Copy)]
pub struct PointIntersection {
    pub ratio: f32,
    pub point: Vector3,
    pub plane: Hyperplane,
}

impl PointIntersection {
    pub fn ratio(self) -> f32
        ensures { result ≡ self.ratio }
    {
        self.ratio
    }

    pub fn point(self) -> Vector3
        ensures { result ≡ self.point }
    {
        self.point
    }

    pub fn plane(self) -> Hyperplane
        ensures { result ≡ self.plane }
    {
        self.plane
    }
}

// A segment that lies in the plane does not cross it: a distance of 0 is Positive.
#[derive(Clone, Copy)]
pub enum LinePlaneIntersect {
    NoIntersection(HyperplaneSide),
    PointIntersection(PointIntersection),
}

impl Hyperplane {
    // The plane along the given normal, `dist` units from the origin: an axis plane where the normal
    // equals a unit vector.
    #[tactic(auto, unfolding(crate::specs::Plane::new_plane, crate::specs::Vector::normalize))]
    pub fn new(normal: Vector3, dist: f32) -> Hyperplane
        ensures { result ≡ Pl.new_plane normal dist }
    {
        if normal == Vector3::unit_x() {
            return Hyperplane::axis_x(dist);
        }
        if normal == Vector3::unit_y() {
            return Hyperplane::axis_y(dist);
        }
        if normal == Vector3::unit_z() {
            return Hyperplane::axis_z(dist);
        }
        if normal.is_unit() {
            return Hyperplane {
                alignment: Alignment::Normal(normal),
                dist,
            };
        }
        // twice, as the published code does; by numbers, so that no vector is handed on
        let once = normal.scale(inverse_root(normal.dot(normal)));
        let unit = once.scale(inverse_root(once.dot(once)));
        Hyperplane {
            alignment: Alignment::Normal(unit),
            dist,
        }
    }

    // The Rust's three names for a plane across an axis: callers of the Rust know them, so one function of an axis could only stand beside them.
    pub fn axis_x(dist: f32) -> Hyperplane
        ensures { result ≡ Pl.axis_x dist }
    {
        Hyperplane {
            alignment: Alignment::Axis(Axis::X),
            dist,
        }
    }

    pub fn axis_y(dist: f32) -> Hyperplane
        ensures { result ≡ Pl.axis_y dist }
    {
        Hyperplane {
            alignment: Alignment::Axis(Axis::Y),
            dist,
        }
    }

    pub fn axis_z(dist: f32) -> Hyperplane
        ensures { result ≡ Pl.axis_z dist }
    {
        Hyperplane {
            alignment: Alignment::Axis(Axis::Z),
            dist,
        }
    }

    pub fn from_normal(normal: Vector3, dist: f32) -> Hyperplane
        ensures { result ≡ Pl.from_normal normal dist }
    {
        let unit = normal.normalize();
        Hyperplane {
            alignment: Alignment::Normal(unit),
            dist,
        }
    }

    // The plane's normal.
    pub fn normal(self) -> Vector3
        ensures { result ≡ Pl.normal_of self }
    {
        let alignment = self.alignment;
        match alignment {
            Alignment::Axis(a) => match a {
                Axis::X => Vector3::unit_x(),
                Axis::Y => Vector3::unit_y(),
                Axis::Z => Vector3::unit_z(),
            },
            Alignment::Normal(n) => n,
        }
    }

    pub fn point_dist(self, point: Vector3) -> f32
        ensures { result ≡ Pl.point_dist self point }
    {
        let alignment = self.alignment;
        match alignment {
            Alignment::Axis(a) => point.along(a) - self.dist,
            Alignment::Normal(n) => point.dot(n) - self.dist,
        }
    }

    pub fn point_side(self, point: Vector3) -> HyperplaneSide
        ensures { result ≡ Pl.point_side self point }
    {
        let alignment = self.alignment;
        match alignment {
            Alignment::Axis(a) => {
                if point.along(a) >= self.dist {
                    HyperplaneSide::Positive
                } else {
                    HyperplaneSide::Negative
                }
            }
            Alignment::Normal(n) => {
                if point.dot(n) - self.dist >= 0.0 {
                    HyperplaneSide::Positive
                } else {
                    HyperplaneSide::Negative
                }
            }
        }
    }

    pub fn negate(self) -> Hyperplane
        ensures { result ≡ Pl.negated self }
    {
        let alignment = self.alignment;
        Hyperplane::new(alignment.turned(), -self.dist)
    }

    // The plane that faces the given side.
    pub fn facing(self, side: HyperplaneSide) -> Hyperplane
        ensures { result ≡ Pl.facing side self }
    {
        match side {
            HyperplaneSide::Positive => self,
            HyperplaneSide::Negative => self.negate(),
        }
    }

    #[tactic(auto, using(crate::proofs::Same::equal_sides), unfolding(crate::specs::Plane::line_segment))]
    pub fn line_segment_intersection(self, start: Vector3, end: Vector3) -> LinePlaneIntersect
        ensures { result ≡ Pl.line_segment self start end }
    {
        let start_dist = self.point_dist(start);
        let end_dist = self.point_dist(end);
        let start_side = HyperplaneSide::from_dist(start_dist);
        let end_side = HyperplaneSide::from_dist(end_dist);
        if start_side == end_side {
            return LinePlaneIntersect::NoIntersection(start_side);
        }
        let ratio = start_dist / (start_dist - end_dist);
        let point = start.add(end.sub(start).scale(ratio));
        let plane = self.facing(start_side);
        LinePlaneIntersect::PointIntersection(PointIntersection {
            ratio,
            point,
            plane,
        })
    }
}
