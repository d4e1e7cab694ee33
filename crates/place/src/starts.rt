// Where reading the header stops, and where reading the texture section does.
ghost use Rattle.std.specs.Prelude.{◌≡◌};
ghost use Rattle.place.specs.Place as Spec;

use crate::part::{Part, Stop, stop_in};
use format::field::read_i32;
use format::section::BspData;
use load::with_texture_count;
use records::number::{read_number, read_offset};

// The version, or the first entry of the directory that is refused.
#[tactic(auto, using(sections::proofs::Version::yes_29, sections::proofs::Version::no_29), unfolding(crate::specs::Place::header_stop))]
pub fn header_stop(s: &[u8]) -> Stop
    ensures { result ≡ Spec.header_stop s.now }
{
    match read_i32(s, 0) {
        Ok((29, _)) => stop_in(s, Part::Directory, BspData::default()),
        _ => Stop { index: 0, byte: 0 },
    }
}

// Where the header of a texture starts whose offset stands at a position of the list; that position where it leads past the file. (The
// parameters of `section` of `texture_list`, which says why they are no struct.)
#[tactic(auto, unfolding(crate::specs::Place::start_at))]
fn start_of(s: &[u8], base: u32, at: usize) -> usize
    ensures { result ≡ Spec.start_at s.now base at }
{
    let Ok((Some(offset), _)) = read_offset(s, at) else {
        return at;
    };
    let start = (base as usize) + (offset as usize);
    if start < s.len() { start } else { at }
}

// The textures: the first offset that is refused, else the first header, else the section's end.
#[tactic(auto, unfolding(crate::specs::Place::list_stop))]
fn list_stop(s: &[u8], map: BspData) -> Stop
    ensures { result ≡ Spec.list_stop s.now map }
{
    let count = map.texture_count;
    let offset = stop_in(s, Part::Offsets, map);
    if offset.index < count {
        return offset;
    }
    let header = stop_in(s, Part::Textures, map);
    if header.index < count {
        let byte = start_of(s, map.textures.offset, header.byte);
        return Stop { byte, ..header };
    }
    let byte = map.textures.offset as usize + map.textures.size as usize;
    Stop { index: count, byte }
}

// The count of the textures, and then the textures.
#[tactic(auto, unfolding(crate::specs::Place::textures_stop))]
pub fn textures_stop(s: &[u8], map: BspData) -> Stop
    ensures { result ≡ Spec.textures_stop s.now map }
{
    let base = map.textures.offset as usize;
    match read_number(s, base, 2097152) {
        Ok((n, _)) => list_stop(s, with_texture_count(map, n)),
        Err(_) => Stop {
            index: 0,
            byte: base,
        },
    }
}
