// Which nodes a hull goes by, and where they lie in the file.
ghost use Rattle.std.specs.Prelude.{◌≡◌};
ghost use Rattle.format.specs.Answers.{answer_of};
ghost use Rattle.nodes.specs.Fast as Fast;
ghost use Rattle.nodes.specs.Quick as Quick;
ghost use Rattle.nodes.specs.Tables as Spec;

use format::refusal::{Answer, Refusal};
use format::section::{BspData, BspFileSection};
use math::Vector3;

// Hull 0 goes by the render nodes and the leaves' contents, hulls 1 and 2 by the clip nodes. A box has six nodes of its own. The numbers are those
// that the calls for C give.
#[derive(Clone, Copy)]
pub enum HullTable {
    Render = 0,
    Clip = 1,
    Box = 2,
}

impl HullTable {
    // The render nodes or the clip nodes. (A choice of two by a flag, as of a plane's two sides in `math`: one function for both would take the two,
    // and be the `if` itself.)
    pub fn of_nodes(render: bool) -> HullTable
        ensures { result ≡ Spec.file_table render }
    {
        if render {
            HullTable::Render
        } else {
            HullTable::Clip
        }
    }

    // The table of a number, as the calls for C give it: 0 the render nodes, 1 the clip nodes, 2 a box.
    #[tactic(auto, unfolding(crate::specs::Tables::table_numbered))]
    pub fn numbered(n: u64) -> Option<HullTable>
        ensures { result ≡ Spec.table_numbered n }
    {
        match n {
            0 => Some(HullTable::Render),
            1 => Some(HullTable::Clip),
            2 => Some(HullTable::Box),
            _ => None,
        }
    }

    pub fn is_render(self) -> bool
        ensures { result ≡ Fast.is_render self }
    {
        matches!(self, HullTable::Render)
    }

    pub fn is_box(self) -> bool
        ensures { result ≡ Spec.is_box self }
    {
        matches!(self, HullTable::Box)
    }
}

// Where the records of a section lie, how many there are, and how many of them can be read as far as the section's limit goes: all or none.
#[derive(Clone, Copy)]
pub struct Part {
    pub at: u32,
    pub count: u32,
    pub readable: u32,
}

// What a walk or a trace goes by. A box's planes are its bounds.
#[derive(Clone, Copy)]
pub struct Tables {
    pub table: HullTable,
    pub nodes: Part,
    pub planes: Part,
    pub leaves: Part,
    pub mins: Vector3,
    pub maxs: Vector3,
}

// So many records from a place on, of which the limit allows so many.
pub(crate) fn part_with(at: u32, count: u32, limit: u32) -> Part
    ensures { result ≡ Quick.part_with at count limit }
{
    if limit < count {
        return Part {
            at,
            count,
            readable: 0,
        };
    }
    Part {
        at,
        count,
        readable: count,
    }
}

// A section of records of the given size, of which the limit allows so many.
fn part_of(section: BspFileSection, size: u32, limit: u32) -> Part
    requires { Fast.Positive size }
    ensures { result ≡ Fast.part_of section size limit }
{
    part_with(section.offset, section.size / size, limit)
}

// As many records as a box has nodes, none of them in the file.
fn box_part(count: u32) -> Part
    ensures { result ≡ Fast.box_part count }
{
    Part {
        at: 0,
        count,
        readable: 0,
    }
}

pub fn tables_of(map: BspData, table: HullTable, mins: Vector3, maxs: Vector3) -> Tables
    ensures { result ≡ Fast.tables_of map table mins maxs }
{
    let planes = part_of(map.planes, 20, 8192);
    let leaves = part_of(map.leaves, 28, 32767);
    match table {
        HullTable::Render => Tables {
            table,
            nodes: part_of(map.render_nodes, 24, 32767),
            planes,
            leaves,
            mins,
            maxs,
        },
        HullTable::Clip => Tables {
            table,
            nodes: part_of(map.collision_nodes, 8, 32767),
            planes,
            leaves,
            mins,
            maxs,
        },
        HullTable::Box => Tables {
            table,
            nodes: box_part(6),
            planes: box_part(6),
            leaves: box_part(0),
            mins,
            maxs,
        },
    }
}

impl Part {
    // Where the record of an index lies in a file of `len` bytes.
    #[tactic(auto, unfolding(crate::specs::Fast::place_in, format::specs::Answers::answer_of))]
    pub fn place(self, size: u8, len: usize, index: usize) -> Answer<usize>
        ensures { answer_of result ≡ Fast.place_in self size len index }
    {
        if (self.count as usize) <= index {
            return Err(Refusal::NoSuchRecord);
        }
        if (self.readable as usize) <= index {
            return Err(Refusal::Unreadable);
        }
        let at = (self.at as usize) + index * (size as usize);
        if at + (size as usize) <= len {
            return Ok(at);
        }
        Err(Refusal::Unreadable)
    }
}
