// The extents of the faces.
ghost use Rattle.std.specs.Prelude.{◌≡◌};
ghost use Rattle.format.specs.Answers.{step_of};
ghost use Rattle.sections.specs.Answers.{position_step};
ghost use Rattle.load.specs.Extents.{extents_at, face_extents};

use faces::extents::surface_of;
use faces::face::read_face;
use format::field::Read;
use format::reader::Reader;
use format::refusal::{Answer, Refusal};
use format::section::{BspData, BspFileSectionId};
use sections::row::read_records;

// A face, its texture info, edges and vertices, and its extents: at most 2,000, unless the texture info is special.
#[tactic(auto, unfolding(crate::specs::Extents::extents_at, crate::specs::Extents::is_bad))]
pub fn read_extents(s: &[u8], at: usize, map: BspData, planes: u32, infos: u32) -> Answer<usize>
    ensures { position_step result ≡ extents_at planes infos map s.now at }
{
    let (face, next) = read_face(s, at, planes, infos)?;
    let x = surface_of(s, map, face).map_err(|_| Refusal::InvalidIndex)?;
    if !x.special && (2000 < x.extents.s || 2000 < x.extents.t) {
        return Err(Refusal::BadExtents);
    }
    Ok(next)
}

// The reader of faces for their extents, in a map whose counts of planes and texture infos are told.
#[derive(Clone, Copy)]
struct ExtentsReader {
    map: BspData,
    planes: u32,
    infos: u32,
}

impl Reader for ExtentsReader {
    type Record = ();

    ghost reads = { λ reader. extents_at reader.planes reader.infos reader.map };

    #[inline(always)]
    fn read(self, s: &[u8], at: usize) -> Read<()> {
        read_extents(s, at, self.map, self.planes, self.infos).map(|next| ((), next))
    }
}

#[tactic(auto, unfolding(crate::specs::Extents::face_extents))]
pub fn check_extents(s: &[u8], map: BspData) -> Answer<usize>
    ensures { position_step result ≡ face_extents s.now map }
{
    let count = map.faces.record_count(BspFileSectionId::Faces);
    let reader = ExtentsReader {
        map,
        planes: map.planes.record_count(BspFileSectionId::Planes),
        infos: map.texinfo.record_count(BspFileSectionId::TextureInfo),
    };
    read_records(s, map.faces.offset as usize, count, reader)
}
