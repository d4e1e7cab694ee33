// The records of a map, as words in a list that a caller lends.
#![tactic(auto)]

ghost use Rattle.std.specs.Prelude.{◌≡◌};
ghost use Rattle.words.specs.Words.{written};
ghost use Rattle.ffi_records.specs.Calls as Calls;

use faces::extents::face;
use models::model::model;
use record_words::{
    collision_node_words, edge_index_words, edge_words, face_words, leaf_words, model_words,
    render_node_words, texinfo_words, vector_words,
};
use records::edge::{edge, edgelist, facelist};
use records::leaf::leaf;
use records::node::{collision_node, render_node};
use records::plane::{plane, vertex};
use textures::access::texture_info;
use words::{
    LIST_TOO_SHORT, MAP_WORDS, NO_SUCH_RECORD, give_number, give_words, map_of, plane_words,
};

// The record of an index, in the words of its section. 22: a map of fewer than 31 words or a list of fewer than 20; 20: a section that has
// no records here.
#[tactic(auto, using(words::proofs::Giving::told_given), unfolding(crate::specs::Calls::record_in, crate::specs::Calls::bsp_record))]
pub fn record(file: &[u8], map: &[u32], section: u32, index: u64, out: &mut [u64]) -> u32
    ensures { written result out.new ≡ Calls.bsp_record file.now map.now section index out.old }
{
    if map.len() < MAP_WORDS {
        return LIST_TOO_SHORT;
    }
    if out.len() < 20 {
        return LIST_TOO_SHORT;
    }
    let data = map_of(map);
    let at = index as usize;
    // a section's number is C's, and each section has its own reader and words
    match section {
        1 => give_words(plane(file, data, at).map(plane_words), out),
        3 => give_words(vertex(file, data, at).map(vector_words), out),
        5 => give_words(render_node(file, data, at).map(render_node_words), out),
        6 => give_words(texture_info(file, data, at).map(texinfo_words), out),
        7 => give_words(face(file, data, at).map(face_words), out),
        9 => give_words(
            collision_node(file, data, at).map(collision_node_words),
            out,
        ),
        10 => give_words(leaf(file, data, at).map(leaf_words), out),
        11 => give_number(facelist(file, data, at), out),
        12 => give_words(edge(file, data, at).map(edge_words), out),
        13 => give_words(edgelist(file, data, at).map(edge_index_words), out),
        14 => give_words(model(file, data, at).map(model_words), out),
        _ => NO_SUCH_RECORD,
    }
}
