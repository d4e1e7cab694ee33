// The report program: it reads a map from standard input, at most 65,536 bytes, loads it, and prints how many records it has.
#![tactic(auto)]

ghost use Rattle.std.specs.Prelude.{◌≡◌, ◌+◌, ◌≤◌, length};
ghost use Rattle.report.specs.Text.{line, pushed};
ghost use Rattle.report.specs.Report.{count_line, count_lines, report_text};

use arrayvec::ArrayVec;
use format::section::{BspData, BspFileSectionId};
use itoa::Buffer;
use load::load;
use std::io;
use std::io::{Read, Write};

// No longer input is loaded.
const MOST_BYTES: usize = 65536;

// A text in a value of a fixed size. No report is longer: seven names of 52 bytes together, and after each at most ten digits and a newline.
type Text = ArrayVec<u8, 129>;

// Puts a piece after the text, as much of it as has room.
#[tactic(auto, using(crate::proofs::Lines::all_put, crate::proofs::Lines::part_put))]
fn put_piece(text: &mut Text, piece: &[u8])
    ensures { text.new.items ≡ pushed text.old.items piece.now }
{
    let room = text.remaining_capacity();
    if piece.len() <= room {
        let _ = text.try_extend_from_slice(piece);
    } else {
        let _ = text.try_extend_from_slice(&piece[..room]);
    }
}

// The same for a line: a name and a number. (`itoa` writes the number, since `write!` answers a `Result` that no contract says is `Ok`.)
#[tactic(auto, using(crate::proofs::Lines::line_length, crate::proofs::Lines::line_put))]
pub fn put_line(text: &mut Text, name: &str, number: u32)
    ensures put { text.new.items ≡ pushed text.old.items (line name.now number) }
    ensures short { length (line name.now number) ≤ length name.now + 11 }
{
    put_piece(text, name.as_bytes());
    put_piece(text, Buffer::new().format(number).as_bytes());
    put_piece(text, b"\n");
}

// Puts the line of a section: a name and how many records it has.
#[tactic(auto, unfolding(crate::specs::Report::count_line))]
fn put_count(text: &mut Text, name: &str, map: BspData, id: BspFileSectionId)
    ensures put { text.new.items ≡ pushed text.old.items (count_line name.now id map) }
    ensures short { length (count_line name.now id map) ≤ length name.now + 11 }
{
    put_line(text, name, map.section(id).record_count(id));
}

// A text of document 01's seven lines, each of which has room.
fn put_counts(map: BspData) -> Text
    ensures { result.items ≡ count_lines map }
{
    let mut text = Text::new();
    put_count(&mut text, "planes ", map, BspFileSectionId::Planes);
    put_count(&mut text, "nodes ", map, BspFileSectionId::RenderNodes);
    put_count(
        &mut text,
        "clipnodes ",
        map,
        BspFileSectionId::CollisionNodes,
    );
    put_count(&mut text, "leaves ", map, BspFileSectionId::Leaves);
    put_count(&mut text, "faces ", map, BspFileSectionId::Faces);
    put_count(&mut text, "models ", map, BspFileSectionId::Models);
    put_count(&mut text, "entities ", map, BspFileSectionId::Entities);
    text
}

// The report on what was read.
pub fn report(input: &[u8]) -> Text
    ensures { result.items ≡ report_text input.now }
{
    let mut text = Text::new();
    if MOST_BYTES < input.len() {
        put_piece(&mut text, b"too long\n");
        return text;
    }
    match load(input) {
        Err(refusal) => put_line(&mut text, "refused ", refusal.number()),
        Ok(map) => text = put_counts(map),
    }
    text
}

// One byte more than a map may have is read, so that an input which is too long is seen to be.
fn main(rt: HostRuntime) -> io::Result<()> {
    let mut input = Vec::new(rt.alloc());
    rt.stdin()
        .take(MOST_BYTES as u64 + 1)
        .read_to_end(&mut input)?;
    rt.stdout().write_all(report(&input).as_slice())
}
