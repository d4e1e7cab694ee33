// Planes and vertices.
ghost use Rattle.std.specs.Prelude.{◌≡◌};
ghost use Rattle.format.specs.Answers.{step_of, answer_of};
ghost use Rattle.records.specs.Plane.{file_plane, plane_at, plane_of, vertex_of};
ghost use Rattle.records.specs.Triple.{vector_at};

use crate::access::record;
use crate::triple::read_vector;
use format::field::{Read, read_f32, read_i32};
use format::reader::Reader;
use format::refusal::Answer;
use format::section::{BspData, BspFileSectionId};
use math::{Hyperplane, Vector3};

// The plane of a type, a normal and a distance, as a file has them: of type 0, 1 or 2 the normal is ignored. A match, since the last arm takes
// the normal too.
#[tactic(auto, unfolding(crate::specs::Plane::file_plane))]
fn file_plane(kind: i32, normal: Vector3, dist: f32) -> Hyperplane
    ensures { result ≡ file_plane kind normal dist }
{
    match kind {
        0 => Hyperplane::axis_x(dist),
        1 => Hyperplane::axis_y(dist),
        2 => Hyperplane::axis_z(dist),
        _ => Hyperplane::new(normal, dist),
    }
}

// `read_hyperplane`.
#[tactic(auto, unfolding(crate::specs::Plane::plane_at))]
fn read_plane(s: &[u8], at: usize) -> Read<Hyperplane>
    ensures { step_of result ≡ plane_at s.now at }
{
    let (normal, p) = read_vector(s, at)?;
    let (dist, q) = read_f32(s, p)?;
    let (kind, next) = read_i32(s, q)?;
    Ok((file_plane(kind, normal, dist), next))
}

// The reader of planes.
#[derive(Clone, Copy)]
struct PlaneReader;

impl Reader for PlaneReader {
    type Record = Hyperplane;

    ghost reads = { λ reader. plane_at };

    #[inline(always)]
    fn read(self, s: &[u8], at: usize) -> Read<Hyperplane> {
        read_plane(s, at)
    }
}

// The plane of an index.
pub fn plane(s: &[u8], map: BspData, index: usize) -> Answer<Hyperplane>
    ensures { answer_of result ≡ plane_of s.now map index }
{
    record(s, map, BspFileSectionId::Planes, index, PlaneReader)
}

// The reader of vertices.
#[derive(Clone, Copy)]
struct VertexReader;

impl Reader for VertexReader {
    type Record = Vector3;

    ghost reads = { λ reader. vector_at };

    #[inline(always)]
    fn read(self, s: &[u8], at: usize) -> Read<Vector3> {
        read_vector(s, at)
    }
}

// The vertex of an index.
pub fn vertex(s: &[u8], map: BspData, index: usize) -> Answer<Vector3>
    ensures { answer_of result ≡ vertex_of s.now map index }
{
    record(s, map, BspFileSectionId::Vertices, index, VertexReader)
}
