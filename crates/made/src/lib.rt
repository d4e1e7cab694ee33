// Made-up maps (Note 14): a BSP29 file from a seed and a node count, for load tests on maps that nobody drew.
#![tactic(auto)]

ghost use Rattle.std.specs.Prelude.{◌≡◌, ◌+◌, ◌*◌, ◌≤◌, ◌<◌, [], ◌∷◌, ◌++◌, length};
ghost use Rattle.format.specs.Answers.{answer_of};
ghost use Rattle.std.specs.Float.{binary32};
ghost use Rattle.std.specs.Float.Ieee.{to_bits};
ghost use Rattle.written.specs.Bytes.{u32, row};
ghost use Rattle.format.specs.Listed.{listed, into};
ghost use Rattle.made.specs.Map.{distance_of, front_of, back_of};
ghost use Rattle.made.specs.Map as Map;
ghost use Rattle.made.specs.File.{is_node_count, made_up, file_of, made_map, header};
ghost use Rattle.made.specs.Writing.{put_at, words_of, side_word, size_of, record_bytes, record_of_node};

use format::refusal::{Answer, Refusal};

// The number after the last one.
#[tactic(auto, unfolding(crate::specs::Map::next))]
fn next(last: u32) -> u32
    ensures { result ≡ Map.next last }
{
    last.wrapping_mul(1664525).wrapping_add(1013904223)
}

// Writes a number as four bytes at a place, the lowest first. (The room is a need: it is that of an index, which no struct would carry.)
fn put_word(n: u32, buffer: &mut [u8], at: usize)
    requires { at + 4 ≤ length buffer.old }
    ensures { buffer.new ≡ put_at at (u32 n) buffer.old }
{
    buffer[at..at + 4].copy_from_slice(&n.to_le_bytes());
}

// Writes numbers at a place, four bytes each. (They are no bytes, so `copy_from_slice` cannot take them.)
#[tactic(auto, using(crate::proofs::Writing::put_next))]
fn put_words(words: &[u32], buffer: &mut [u8], at: usize)
    requires { at + length words.now * 4 ≤ length buffer.old }
    ensures { buffer.new ≡ put_at at (words_of words.now) buffer.old }
{
    for (i, &word) in words.iter().enumerate() {
        put_word(word, buffer, at + i * 4);
    }
}

// The distance's bits.
#[tactic(auto, using(crate::proofs::Words::distance_fits, crate::proofs::Words::distance_is))]
fn distance_bits(number: u32) -> u32
    ensures { result ≡ to_bits binary32 (distance_of number) }
{
    float::num::to_bits(((number / 256 % 256) as i16 - 128) as f32)
}

// The front child's 16 bits, where those of a Solid and of an Empty leaf are given.
fn front_word(solid: u32, empty: u32, number: u32) -> u32
    ensures { result ≡ side_word solid empty (front_of number) }
{
    if number >= 2147483648 { solid } else { empty }
}

// What a made-up map is made of: a seed and so many nodes.
#[derive(Clone, Copy)]
struct MadeOf {
    seed: u32,
    nodes: usize,
    ghost few: { nodes ≤ 500 },
}

// A section with a record for each node, and how many bytes a record has.
#[derive(Clone, Copy)]
enum Part {
    Planes = 20,
    RenderNodes = 24,
    ClipNodes = 8,
}

fn size_of(part: Part) -> usize
    ensures { result ≡ size_of part }
{
    part as usize
}

impl MadeOf {
    // The back child's 16 bits.
    fn back_word(self, solid: u32, empty: u32, i: usize) -> u32
        requires { i < self.nodes }
        ensures { result ≡ side_word solid empty (back_of self.nodes i) }
    {
        if i + 1 == self.nodes {
            empty
        } else {
            (i + 1) as u32
        }
    }

    // Both children of node i as one number, the front one low.
    #[tactic(auto, using(crate::proofs::Words::front_small, crate::proofs::Words::back_small))]
    fn children(self, solid: u32, empty: u32, number: u32, i: usize) -> u32
        requires { (solid < 65536) × (empty < 65536) × (i < self.nodes) }
        ensures { result ≡ side_word solid empty (front_of number) + side_word solid empty (back_of self.nodes i) * 65536 }
    {
        front_word(solid, empty, number) + self.back_word(solid, empty, i) * 65536
    }

    // Writes the record of node i at a place.
    #[tactic(auto, using(crate::proofs::Words::plane_words_lem, crate::proofs::Words::render_words, crate::proofs::Words::clip_words))]
    fn put_record(self, part: Part, number: u32, i: usize, buffer: &mut [u8], at: usize)
        requires { (i < self.nodes) × (at + size_of part ≤ length buffer.old) }
        ensures { buffer.new ≡ put_at at (record_bytes part self.nodes i number) buffer.old }
    {
        match part {
            Part::Planes => put_words(&[0, 0, 0, distance_bits(number), number % 3], buffer, at),
            Part::RenderNodes => put_words(
                &[i as u32, self.children(65535, 65534, number, i), 0, 0, 0, 0],
                buffer,
                at,
            ),
            Part::ClipNodes => put_words(
                &[i as u32, self.children(65534, 65535, number, i)],
                buffer,
                at,
            ),
        }
    }

    // Writes a section with a record for each node at a place.
    fn put_section(self, part: Part, buffer: &mut [u8], at: usize)
        requires { at + self.nodes * size_of part ≤ length buffer.old }
        ensures { buffer.new ≡ put_at at (row (record_of_node part self.seed self.nodes) self.nodes) buffer.old }
    {
        let size = size_of(part);
        let mut last = self.seed;
        for i in 0..self.nodes {
            last = next(last);
            self.put_record(part, last, i, buffer, at + i * size);
        }
    }

    // Writes the header and the entity text's zero.
    #[tactic(auto, using(crate::proofs::Whole::front_is))]
    fn put_front(self, buffer: &mut [u8])
        requires { 125 ≤ length buffer.old }
        ensures { buffer.new ≡ put_at 0 (header (made_map self.nodes) ++ (0 ∷ [])) buffer.old }
    {
        let n = self.nodes as u32;
        put_words(
            &[
                29,
                124,
                1,
                125,
                n * 20,
                125 + n * 20,
                4,
                0,
                0,
                0,
                0,
                129 + n * 20,
                n * 24,
            ],
            buffer,
            0,
        );
        put_words(
            &[0, 0, 0, 0, 0, 0, 129 + n * 44, n * 8, 129 + n * 52, 56],
            buffer,
            52,
        );
        put_words(&[0, 0, 0, 0, 0, 0, 185 + n * 52, 64], buffer, 92);
        buffer[124] = 0;
    }

    // Writes the file to the front of the buffer.
    fn put_file(self, buffer: &mut [u8])
        requires { 249 + self.nodes * 52 ≤ length buffer.old }
        ensures { buffer.new ≡ put_at 0 (file_of self.seed self.nodes) buffer.old }
    {
        let nodes = self.nodes;
        self.put_front(buffer);
        self.put_section(Part::Planes, buffer, 125);
        put_words(&[0], buffer, 125 + nodes * 20);
        self.put_section(Part::RenderNodes, buffer, 129 + nodes * 20);
        self.put_section(Part::ClipNodes, buffer, 129 + nodes * 44);
        put_words(
            &[
                0xffff_fffe,
                0xffff_ffff,
                0,
                0,
                0,
                0,
                0,
                0xffff_ffff,
                0xffff_ffff,
                0,
                0,
                0,
                0,
                0,
            ],
            buffer,
            129 + nodes * 52,
        );
        put_words(
            &[0, 0, 0, 0, 0, 0, 0, 0, 0, 0, 0, 0, 0, 1, 0, 0],
            buffer,
            185 + nodes * 52,
        );
    }
}

// Whether a made-up map may have so many nodes.
#[tactic(auto, unfolding(crate::specs::File::is_node_count))]
pub fn is_node_count(nodes: usize) -> bool
    ensures { result ≡ is_node_count nodes }
{
    1 <= nodes && nodes <= 500
}

// Writes the file of a made-up map to the front of the buffer, whose other bytes are kept. A refusal writes nothing.
#[tactic(auto, using(crate::proofs::Whole::count_within, crate::proofs::Whole::refuses, crate::proofs::Whole::short, crate::proofs::Whole::fits))]
pub fn made_up(seed: u32, nodes: usize, buffer: &mut [u8]) -> Answer<usize>
    ensures { listed (answer_of result) buffer.new ≡ into (made_up seed nodes) buffer.old }
{
    if !is_node_count(nodes) {
        return Err(Refusal::NodeCountOutside);
    }
    let length = 249 + nodes * 52;
    if buffer.len() < length {
        return Err(Refusal::ListTooShort);
    }
    MadeOf { seed, nodes }.put_file(buffer);
    Ok(length)
}
