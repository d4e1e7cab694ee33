// Models.
ghost use Rattle.std.specs.Prelude.{◌≡◌};
ghost use Rattle.format.specs.Answers.{step_of, answer_of};
ghost use Rattle.models.specs.Model.{padded_bounds, bounds_at, roots_at, file_model_at, file_model_of, leaf_id_of, node_counts, with_rest, model_of, leaf_range};

use format::field::{Read, read_i32, read_index};
use format::reader::Reader;
use format::refusal::{Answer, Refusal};
use format::section::{BspData, BspFileSectionId};
use math::Vector3;
use records::access::record;
use records::triple::read_vector;

// Three fields, since specs name each hull; an array would be read by the same three numbers.
// The Rust's `[usize; MAX_HULLS]`.
#[derive(Clone, Copy)]
pub struct PerHull {
    pub hull_0: usize,
    pub hull_1: usize,
    pub hull_2: usize,
}

// The box of a model, one unit wider on each side than in the file, and its origin.
#[derive(Clone, Copy)]
pub struct ModelBounds {
    pub min: Vector3,
    pub max: Vector3,
    pub origin: Vector3,
}

// min less 1 and max plus 1 on each axis.
#[tactic(auto, unfolding(crate::specs::Model::padded_bounds))]
fn padded(min: Vector3, max: Vector3, origin: Vector3) -> ModelBounds
    ensures { result ≡ padded_bounds min max origin }
{
    ModelBounds {
        min: min.sub(Vector3::new(1.0, 1.0, 1.0)),
        max: max.add(Vector3::new(1.0, 1.0, 1.0)),
        origin,
    }
}

#[tactic(auto, unfolding(crate::specs::Model::bounds_at))]
fn read_bounds(s: &[u8], at: usize) -> Read<ModelBounds>
    ensures { step_of result ≡ bounds_at s.now at }
{
    let (min, p) = read_vector(s, at)?;
    let (max, q) = read_vector(s, p)?;
    let (origin, next) = read_vector(s, q)?;
    Ok((padded(min, max, origin), next))
}

// The roots of the three hulls.
#[tactic(auto, unfolding(crate::specs::Model::roots_at))]
fn read_hull_roots(s: &[u8], at: usize) -> Read<PerHull>
    ensures { step_of result ≡ roots_at s.now at }
{
    let (hull_0, p) = read_index(s, at, Refusal::InvalidField)?;
    let (hull_1, q) = read_index(s, p, Refusal::InvalidField)?;
    let (hull_2, next) = read_index(s, q, Refusal::InvalidField)?;
    Ok((
        PerHull {
            hull_0: hull_0 as usize,
            hull_1: hull_1 as usize,
            hull_2: hull_2 as usize,
        },
        next,
    ))
}

// A model's own record.
#[derive(Clone, Copy)]
pub struct BspFileModel {
    pub bounds: ModelBounds,
    pub collision_node_ids: PerHull,
    pub leaf_count: u32,
    pub face_id: usize,
    pub face_count: usize,
}

// A model's own record. The root of a fourth hull is read and not used.
// Inlined: loading needs the tests alone, and there the value is then not made.
#[inline(always)]
#[tactic(auto, unfolding(crate::specs::Model::file_model_at, crate::specs::Model::file_model_end_at))]
pub fn read_file_model(s: &[u8], at: usize) -> Read<BspFileModel>
    ensures { step_of result ≡ file_model_at s.now at }
{
    let (bounds, p) = read_bounds(s, at)?;
    let (collision_node_ids, q) = read_hull_roots(s, p)?;
    let (_, t) = read_i32(s, q)?;
    let (leaf_count, u) = read_index(s, t, Refusal::InvalidField)?;
    let (face_id, v) = read_index(s, u, Refusal::InvalidField)?;
    let (face_count, next) = read_index(s, v, Refusal::InvalidField)?;
    Ok((
        BspFileModel {
            bounds,
            collision_node_ids,
            leaf_count,
            face_id: face_id as usize,
            face_count: face_count as usize,
        },
        next,
    ))
}

// The reader of models' own records.
#[derive(Clone, Copy)]
pub struct FileModelReader;

impl Reader for FileModelReader {
    type Record = BspFileModel;

    ghost reads = { λ reader. file_model_at };

    #[inline(always)]
    fn read(self, s: &[u8], at: usize) -> Read<BspFileModel> {
        read_file_model(s, at)
    }
}

// A model's own record, by its index. One line over `record`, as the accessors of `records`.
pub fn file_model(s: &[u8], map: BspData, index: usize) -> Answer<BspFileModel>
    ensures { answer_of result ≡ file_model_of s.now map index }
{
    record(s, map, BspFileSectionId::Models, index, FileModelReader)
}

// The leaf counts of the models before an index, added up.
#[tactic(auto, using(crate::proofs::Models::few, crate::proofs::Models::step, crate::proofs::Models::stop), unfolding(crate::specs::Model::leaf_id_of))]
fn leaf_id(s: &[u8], map: BspData, index: usize) -> Answer<usize>
    ensures { answer_of result ≡ leaf_id_of s.now map index }
{
    let mut total = 0;
    for i in 0..index {
        let model = file_model(s, map, i)?;
        total += model.leaf_count as usize;
    }
    Ok(total)
}

// A model. Its file is not held: it is named by argument.
#[derive(Clone, Copy)]
pub struct BspModel {
    pub min: Vector3,
    pub max: Vector3,
    pub origin: Vector3,
    pub collision_node_ids: PerHull,
    pub collision_node_counts: PerHull,
    pub leaf_id: usize,
    pub leaf_count: usize,
    pub face_id: usize,
    pub face_count: usize,
}

// The clip node total less each root, modulo 2^64.
pub fn node_counts(total: usize, roots: PerHull) -> PerHull
    ensures { result ≡ node_counts total roots }
{
    PerHull {
        hull_0: total.wrapping_sub(roots.hull_0),
        hull_1: total.wrapping_sub(roots.hull_1),
        hull_2: total.wrapping_sub(roots.hull_2),
    }
}

// The model of its own record, the clip node total and the leaves before it.
fn with_rest(total: usize, leaf_id: usize, model: BspFileModel) -> BspModel
    ensures { result ≡ with_rest total leaf_id model }
{
    BspModel {
        min: model.bounds.min,
        max: model.bounds.max,
        origin: model.bounds.origin,
        collision_node_ids: model.collision_node_ids,
        collision_node_counts: node_counts(total, model.collision_node_ids),
        leaf_id,
        leaf_count: model.leaf_count as usize,
        face_id: model.face_id,
        face_count: model.face_count,
    }
}

// The model of an index. Each model before it must be readable too, since its leaves come before.
#[tactic(auto, unfolding(crate::specs::Model::model_of))]
pub fn model(s: &[u8], map: BspData, index: usize) -> Answer<BspModel>
    ensures { answer_of result ≡ model_of s.now map index }
{
    let total = map
        .collision_nodes
        .record_count(BspFileSectionId::CollisionNodes) as usize;
    let own = file_model(s, map, index)?;
    let first = leaf_id(s, map, index)?;
    Ok(with_rest(total, first, own))
}

// The first and the last leaf of a range.
#[derive(Clone, Copy)]
pub struct LeafRange {
    pub first: usize,
    pub last: usize,
}

impl BspModel {
    // The leaves of a model, `iter_leaves`: from `leaf_id` to `leaf_id + leaf_count`, both included.
    pub fn leaves(self) -> LeafRange
        ensures { result ≡ leaf_range self }
    {
        LeafRange {
            first: self.leaf_id,
            last: self.leaf_id.wrapping_add(self.leaf_count),
        }
    }
}
