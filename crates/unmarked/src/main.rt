// Document 01's unmarked trials, on the code: each prints what the code answers, and the file `stdout` has what the document says.
#![tactic(auto)]

use faces::extents::face;
use faces::face::BspFace;
use float::num::from_bits;
use format::contents::BspLeafContents;
use format::refusal::{Answer, Refusal};
use format::section::BspData;
use hull::collision::BspCollisionHull;
use hull::point::contents_at_point;
use load::load;
use math::Vector3;
use std::io;
use vis::get_pvs;

fn print_line(rt: &impl Print, name: &str, count: u64) -> io::Result<()> {
    println!(rt; "{name} {count}")
}

fn print_refusal(rt: &impl Print, refusal: Refusal) -> io::Result<()> {
    print_line(rt, "refused", refusal.number() as u64)
}

// The 193-byte map, with the given size of its models.
fn smallest(models: u8) -> [u8; 193] {
    let mut file = [0u8; 193];
    file[0] = 29;
    // entities at 124, textures at 125, models at 129
    file[4] = 124;
    file[8] = 1;
    file[20] = 125;
    file[24] = 4;
    file[116] = 129;
    file[120] = models;
    file
}

fn print_loaded(rt: &impl Print, file: &[u8]) -> io::Result<()> {
    match load(file) {
        Err(refusal) => print_refusal(rt, refusal),
        Ok(_) => println!(rt; "loaded"),
    }
}

// No model: 6.
fn no_model(rt: &impl Print) -> io::Result<()> {
    print!(rt; "no model: ")?;
    print_loaded(rt, &smallest(0))
}

fn print_contents(rt: &impl Print, contents: Answer<(BspLeafContents, u64)>) -> io::Result<()> {
    match contents {
        Err(refusal) => print_refusal(rt, refusal),
        Ok((c, _)) => print_line(rt, "contents", c.code() as u64),
    }
}

// The contents at a point of a hull, if there is the hull.
fn print_in_hull(
    rt: &impl Print,
    file: &[u8],
    map: BspData,
    hull: Answer<BspCollisionHull>,
    point: Vector3,
) -> io::Result<()> {
    match hull {
        Err(refusal) => print_refusal(rt, refusal),
        Ok(h) => print_contents(rt, contents_at_point(file, map, h, point)),
    }
}

// The 193-byte map, contents in hull 1: 30.
fn smallest_map(rt: &impl Print) -> io::Result<()> {
    print!(rt; "193-byte map, contents in hull 1: ")?;
    let file = smallest(64);
    let loaded = load(&file);
    let Ok(map) = loaded else {
        return println!(rt; "not loaded");
    };
    let hull = hull::collision::hull(&file, map, 0, 1);
    print_in_hull(rt, &file, map, hull, Vector3::new(0.0, 0.0, 0.0))
}

// The bytes of two leaves of contents -1, Empty; the row of each starts at 0.
fn two_leaves() -> [u8; 56] {
    let mut file = [0u8; 56];
    file[0] = 255;
    file[1] = 255;
    file[2] = 255;
    file[3] = 255;
    file[28] = 255;
    file[29] = 255;
    file[30] = 255;
    file[31] = 255;
    file
}

// The row of leaf 1 where there is no visibility data, so that it starts at the data's end and a byte read is refused (33).
fn print_row(rt: &impl Print, leaf_count: usize) -> io::Result<()> {
    let file = two_leaves();
    let mut words = [0u32; 31];
    words[21] = 56;
    let mut list = [7u32; 4];
    match get_pvs(&file, words::map_of(&words), 1, leaf_count, &mut list) {
        Err(refusal) => print_refusal(rt, refusal),
        Ok(n) => print_line(rt, "length", n as u64),
    }
}

// Count 1: empty, nothing read; a count of 2 reads there.
fn count_one(rt: &impl Print) -> io::Result<()> {
    print!(rt; "row at the data's end, count 1: ")?;
    print_row(rt, 1)?;
    print!(rt; "row at the data's end, count 2: ")?;
    print_row(rt, 2)
}

// The contents at a point of the box from -1 to 1 on each axis.
fn print_in_box(rt: &impl Print, point: Vector3) -> io::Result<()> {
    let mins = Vector3::new(-1.0, -1.0, -1.0);
    let maxs = Vector3::new(1.0, 1.0, 1.0);
    let hull = BspCollisionHull::for_bounds(mins, maxs);
    print_in_hull(rt, b"", words::map_of(&[0; 31]), hull, point)
}

// Box -1 to 1 on each axis: a NaN coordinate Empty, which is contents 1.
fn nan_in_box(rt: &impl Print) -> io::Result<()> {
    let nan = from_bits(0x7fc0_0000);
    print!(rt; "box, x is NaN: ")?;
    print_in_box(rt, Vector3::new(nan, 0.0, 0.0))?;
    print!(rt; "box, y is NaN: ")?;
    print_in_box(rt, Vector3::new(0.0, nan, 0.0))?;
    print!(rt; "box, z is NaN: ")?;
    print_in_box(rt, Vector3::new(0.0, 0.0, nan))
}

// A map with one face, whose s runs from 0 to a float of these two high bytes. After the 193 bytes: two vertices at 193, a texture info at
// 217, the face at 257, two edges at 277, three entries of the edge list at 285, and an absent texture at 297.
fn one_face(high: u8, highest: u8) -> [u8; 305] {
    let mut file = [0u8; 305];
    file[0] = 29;
    file[4] = 124;
    file[8] = 1;
    file[20] = 41;
    file[21] = 1;
    file[24] = 8;
    file[28] = 193;
    file[32] = 24;
    file[52] = 217;
    file[56] = 40;
    file[60] = 1;
    file[61] = 1;
    file[64] = 20;
    file[100] = 21;
    file[101] = 1;
    file[104] = 8;
    file[108] = 29;
    file[109] = 1;
    file[112] = 12;
    file[116] = 129;
    file[120] = 64;
    // one texture; the second vertex's x; s is x
    file[297] = 1;
    file[207] = high;
    file[208] = highest;
    file[219] = 128;
    file[220] = 63;
    // three edges of the face; the edges 0, 1 and 1, 0; the entries 0, 1, 0
    file[265] = 3;
    file[279] = 1;
    file[281] = 1;
    file[289] = 1;
    file
}

// The file with the offset of its texture, -1.
fn with_offset(made: [u8; 305]) -> [u8; 305] {
    let mut file = made;
    file[301] = 255;
    file[302] = 255;
    file[303] = 255;
    file[304] = 255;
    file
}

fn print_extent(rt: &impl Print, face: Answer<BspFace>) -> io::Result<()> {
    match face {
        Err(refusal) => print_refusal(rt, refusal),
        Ok(f) => print_line(rt, "extent", words::signed_word(f.extents.s)),
    }
}

fn print_one_face(rt: &impl Print, high: u8, highest: u8) -> io::Result<()> {
    let file = with_offset(one_face(high, highest));
    match load(&file) {
        Err(refusal) => print_refusal(rt, refusal),
        Ok(map) => print_extent(rt, face(&file, map, 0)),
    }
}

// Cast difference 125 (s up to 2,000): extent 2,000, accepted; 126 (2,016): 12.
fn cast_differences(rt: &impl Print) -> io::Result<()> {
    print!(rt; "cast difference 125: ")?;
    print_one_face(rt, 250, 68)?;
    print!(rt; "cast difference 126: ")?;
    print_one_face(rt, 252, 68)
}

fn main(rt: HostRuntime) -> io::Result<()> {
    no_model(&rt)?;
    smallest_map(&rt)?;
    count_one(&rt)?;
    nan_in_box(&rt)?;
    cast_differences(&rt)
}
