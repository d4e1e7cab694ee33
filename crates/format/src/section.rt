// The fifteen sections of a file, the sizes and limits of their records, the map record, and where a record lies.
ghost use Rattle.std.specs.Prelude.{◌≡◌};
ghost use Rattle.format.specs.Answers.{answer_of};
ghost use Rattle.format.specs.Section as Sec;

use crate::refusal::{Answer, Refusal};

// Where a section lies in the file, in bytes.
#[derive(Clone, Copy, Default)]
pub struct BspFileSection {
    pub offset: u32,
    pub size: u32,
}

// The sections, in the order in which the file lists them.
#[derive(Clone, Copy)]
pub enum BspFileSectionId {
    Entities,
    Planes,
    Textures,
    Vertices,
    Visibility,
    RenderNodes,
    TextureInfo,
    Faces,
    Lightmaps,
    CollisionNodes,
    Leaves,
    FaceList,
    Edges,
    EdgeList,
    Models,
}

// The map record: where each section lies, and the texture count. Loading makes one, and so may a caller.
#[derive(Clone, Copy)]
pub struct BspData {
    pub entities: BspFileSection,
    pub planes: BspFileSection,
    pub textures: BspFileSection,
    pub vertices: BspFileSection,
    pub visibility: BspFileSection,
    pub render_nodes: BspFileSection,
    pub texinfo: BspFileSection,
    pub faces: BspFileSection,
    pub lightmaps: BspFileSection,
    pub collision_nodes: BspFileSection,
    pub leaves: BspFileSection,
    pub facelist: BspFileSection,
    pub edges: BspFileSection,
    pub edgelist: BspFileSection,
    pub models: BspFileSection,
    pub texture_count: u32,
}

impl BspFileSectionId {
    // The section of a number, in the order of the file's header. (No `TryFrom`: that would name an error, and its two callers have none in
    // common: one refuses the number, the other takes `Models`.)
    #[tactic(auto, unfolding(crate::specs::Section::section_numbered))]
    pub fn numbered(n: u32) -> Option<BspFileSectionId>
        ensures { result ≡ Sec.section_numbered n }
    {
        match n {
            0 => Some(BspFileSectionId::Entities),
            1 => Some(BspFileSectionId::Planes),
            2 => Some(BspFileSectionId::Textures),
            3 => Some(BspFileSectionId::Vertices),
            4 => Some(BspFileSectionId::Visibility),
            5 => Some(BspFileSectionId::RenderNodes),
            6 => Some(BspFileSectionId::TextureInfo),
            7 => Some(BspFileSectionId::Faces),
            8 => Some(BspFileSectionId::Lightmaps),
            9 => Some(BspFileSectionId::CollisionNodes),
            10 => Some(BspFileSectionId::Leaves),
            11 => Some(BspFileSectionId::FaceList),
            12 => Some(BspFileSectionId::Edges),
            13 => Some(BspFileSectionId::EdgeList),
            14 => Some(BspFileSectionId::Models),
            _ => None,
        }
    }

    // The size on disk of one element of a section. (By a match: two variants cannot have one number, and sizes come more than once.)
    pub fn element_size(self) -> u32
        ensures { result ≡ Sec.element_size self }
    {
        match self {
            BspFileSectionId::Entities => 1,
            BspFileSectionId::Planes => 20,
            BspFileSectionId::Textures => 1,
            BspFileSectionId::Vertices => 12,
            BspFileSectionId::Visibility => 1,
            BspFileSectionId::RenderNodes => 24,
            BspFileSectionId::TextureInfo => 40,
            BspFileSectionId::Faces => 20,
            BspFileSectionId::Lightmaps => 1,
            BspFileSectionId::CollisionNodes => 8,
            BspFileSectionId::Leaves => 28,
            BspFileSectionId::FaceList => 2,
            BspFileSectionId::Edges => 4,
            BspFileSectionId::EdgeList => 4,
            BspFileSectionId::Models => 64,
        }
    }

    // Whether so many elements are within the section's limit. Some sections have none.
    pub fn within_limit(self, count: u32) -> bool
        ensures { result ≡ Sec.within_limit self count }
    {
        match self {
            BspFileSectionId::Entities => true,
            BspFileSectionId::Planes => count <= 8192,
            BspFileSectionId::Textures => true,
            BspFileSectionId::Vertices => count <= 65535,
            BspFileSectionId::Visibility => count <= 1048576,
            BspFileSectionId::RenderNodes => count <= 32767,
            BspFileSectionId::TextureInfo => true,
            BspFileSectionId::Faces => true,
            BspFileSectionId::Lightmaps => true,
            BspFileSectionId::CollisionNodes => count <= 32767,
            BspFileSectionId::Leaves => count <= 32767,
            BspFileSectionId::FaceList => true,
            BspFileSectionId::Edges => count <= 256000,
            BspFileSectionId::EdgeList => count <= 512000,
            BspFileSectionId::Models => count <= 256,
        }
    }
}

impl BspFileSection {
    // How many whole records of its kind the section has.
    #[tactic(auto, unfolding(crate::specs::Section::record_count))]
    pub fn record_count(self, id: BspFileSectionId) -> u32
        ensures { result ≡ Sec.record_count id self }
    {
        self.size / id.element_size()
    }

    // Where the record of an index lies in a file of `len` bytes.
    #[tactic(auto, unfolding(crate::specs::Section::place))]
    pub fn place(self, id: BspFileSectionId, len: usize, index: usize) -> Answer<usize>
        ensures { answer_of result ≡ Sec.place id self len index }
    {
        let count = self.record_count(id);
        if (count as usize) <= index {
            return Err(Refusal::NoSuchRecord);
        }
        if id.within_limit(count) {
            let size = id.element_size() as usize;
            let at = (self.offset as usize) + index * size;
            if at + size <= len {
                return Ok(at);
            }
        }
        Err(Refusal::Unreadable)
    }
}

// The map record of a file without sections and textures, to take the other fields from: `..BspData::default()`. By hand: what a derived one
// promises is that each field is its type's default, sixteen promises that each caller would put together; this is one equation.
impl Default for BspData {
    ghost is_default = { λ m. m ≡ Sec.no_map };

    fn default() -> BspData {
        let none = BspFileSection::default();
        BspData {
            entities: none,
            planes: none,
            textures: none,
            vertices: none,
            visibility: none,
            render_nodes: none,
            texinfo: none,
            faces: none,
            lightmaps: none,
            collision_nodes: none,
            leaves: none,
            facelist: none,
            edges: none,
            edgelist: none,
            models: none,
            texture_count: 0,
        }
    }
}

impl BspData {
    pub fn section(self, id: BspFileSectionId) -> BspFileSection
        ensures { result ≡ Sec.section_of id self }
    {
        match id {
            BspFileSectionId::Entities => self.entities,
            BspFileSectionId::Planes => self.planes,
            BspFileSectionId::Textures => self.textures,
            BspFileSectionId::Vertices => self.vertices,
            BspFileSectionId::Visibility => self.visibility,
            BspFileSectionId::RenderNodes => self.render_nodes,
            BspFileSectionId::TextureInfo => self.texinfo,
            BspFileSectionId::Faces => self.faces,
            BspFileSectionId::Lightmaps => self.lightmaps,
            BspFileSectionId::CollisionNodes => self.collision_nodes,
            BspFileSectionId::Leaves => self.leaves,
            BspFileSectionId::FaceList => self.facelist,
            BspFileSectionId::Edges => self.edges,
            BspFileSectionId::EdgeList => self.edgelist,
            BspFileSectionId::Models => self.models,
        }
    }
}
