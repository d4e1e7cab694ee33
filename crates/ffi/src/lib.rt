// The map core for C and Rust: numbers and lists of numbers alone. A slice is a pointer and then a length. Each call answers 0, or the
// number of a refusal of document 01; what it answers goes to the front of a list that the caller lends. A refusal writes nothing.
// What travels together (a file, its map record, a hull) stands as lists one by one, since the interface has no records.
// Each hands its arguments on: the calls themselves stand in the crates `ffi_..`, since a static library has the exported functions of one
// crate alone.
#![tactic(auto)]

ghost use Rattle.std.specs.Prelude.{◌≡◌};
ghost use Rattle.words.specs.Words.{written, left};
ghost use Rattle.ffi.specs.Calls as Calls;

// Loads a file: the 31 words of its map record.
#[unsafe(no_mangle)]
pub extern "C" fn bsp_load(file: &[u8], map: &mut [u32]) -> u32
    ensures { written result map.new ≡ Calls.bsp_load file.now map.old }
{
    ffi_load::load(file, map)
}

// Where loading refuses a file: the refusal's number, the section, the record and the byte; zeros where it loads.
#[unsafe(no_mangle)]
pub extern "C" fn bsp_load_place(file: &[u8], out: &mut [u64]) -> u32
    ensures { written result out.new ≡ Calls.bsp_load_place file.now out.old }
{
    ffi_place::place(file, out)
}

// The record of an index, in the words of its section.
#[unsafe(no_mangle)]
pub extern "C" fn bsp_record(
    file: &[u8],
    map: &[u32],
    section: u32,
    index: u64,
    out: &mut [u64],
) -> u32
    ensures { written result out.new ≡ Calls.bsp_record file.now map.now section index out.old }
{
    ffi_records::record(file, map, section, index, out)
}

// How many records a section has.
#[unsafe(no_mangle)]
pub extern "C" fn bsp_count(map: &[u32], section: u32, out: &mut [u64]) -> u32
    ensures { written result out.new ≡ Calls.bsp_count map.now section out.old }
{
    ffi_counts::count(map, section, out)
}

// Offset and length of the entity text.
#[unsafe(no_mangle)]
pub extern "C" fn bsp_entities(file: &[u8], map: &[u32], out: &mut [u64]) -> u32
    ensures { written result out.new ≡ Calls.bsp_entities file.now map.now out.old }
{
    ffi_counts::entities(file, map, out)
}

// The hull of a model: 11 words.
#[unsafe(no_mangle)]
pub extern "C" fn bsp_hull(
    file: &[u8],
    map: &[u32],
    model: u64,
    index: u64,
    hull: &mut [u64],
) -> u32
    ensures { written result hull.new ≡ Calls.bsp_hull file.now map.now model index hull.old }
{
    ffi_hull::hull_of_model(file, map, model, index, hull)
}

// The body sizes of a file, in a list.
#[unsafe(no_mangle)]
pub extern "C" fn bsp_body_sizes(bytes: &[u8], sizes: &mut [u64]) -> u32
    ensures { written result sizes.new ≡ Calls.bsp_body_sizes bytes.now sizes.old }
{
    ffi_sizes::body_sizes(bytes, sizes)
}

// The hull of a model with these body sizes.
#[unsafe(no_mangle)]
pub extern "C" fn bsp_hull_sized(
    file: &[u8],
    map: &[u32],
    sizes: &[u64],
    model: u64,
    index: u64,
    hull: &mut [u64],
) -> u32
    ensures { written result hull.new ≡ Calls.bsp_hull_sized file.now map.now sizes.now model index hull.old }
{
    ffi_sizes::hull_sized(file, map, sizes, model, index, hull)
}

// The hull of a box: 11 words.
#[unsafe(no_mangle)]
pub extern "C" fn bsp_box(bounds: &[f32], hull: &mut [u64]) -> u32
    ensures { written result hull.new ≡ Calls.bsp_box bounds.now hull.old }
{
    ffi_hull::hull_of_box(bounds, hull)
}

// The hull with its tree's number of nodes and height: 11 words.
#[unsafe(no_mangle)]
pub extern "C" fn bsp_hull_check(
    file: &[u8],
    map: &[u32],
    hull: &[u64],
    marks: &mut [u8],
    out: &mut [u64],
) -> u32
    ensures { left result marks.new out.new ≡ Calls.bsp_hull_check file.now map.now hull.now marks.old out.old }
{
    ffi_checked::hull_check(file, map, hull, marks, out)
}

// Contents code and visits.
#[unsafe(no_mangle)]
pub extern "C" fn bsp_contents(
    file: &[u8],
    map: &[u32],
    hull: &[u64],
    point: &[f32],
    out: &mut [u64],
) -> u32
    ensures { written result out.new ≡ Calls.bsp_contents file.now map.now hull.now point.now out.old }
{
    ffi_walks::contents(file, map, hull, point, out)
}

// Leaf and visits.
#[unsafe(no_mangle)]
pub extern "C" fn bsp_find_leaf(
    file: &[u8],
    map: &[u32],
    root: u64,
    point: &[f32],
    out: &mut [u64],
) -> u32
    ensures { written result out.new ≡ Calls.bsp_find_leaf file.now map.now root point.now out.old }
{
    ffi_walks::find_leaf(file, map, root, point, out)
}

// The trace of a segment: 17 words.
#[unsafe(no_mangle)]
pub extern "C" fn bsp_trace(
    file: &[u8],
    map: &[u32],
    hull: &[u64],
    segment: &[f32],
    out: &mut [u64],
) -> u32
    ensures { written result out.new ≡ Calls.bsp_trace file.now map.now hull.now segment.now out.old }
{
    ffi_traces::trace(file, map, hull, segment, out)
}

// The nodes that a call of `bsp_contents` enters, in order, at the front of `list`, and their count.
#[unsafe(no_mangle)]
pub extern "C" fn bsp_contents_nodes(
    file: &[u8],
    map: &[u32],
    hull: &[u64],
    point: &[f32],
    list: &mut [u32],
    out: &mut [u64],
) -> u32
    ensures { left result list.new out.new ≡ Calls.bsp_contents_nodes file.now map.now hull.now point.now list.old out.old }
{
    ffi_entered::contents_nodes(file, map, hull, point, list, out)
}

// The same for `bsp_find_leaf`.
#[unsafe(no_mangle)]
pub extern "C" fn bsp_find_leaf_nodes(
    file: &[u8],
    map: &[u32],
    root: u64,
    point: &[f32],
    list: &mut [u32],
    out: &mut [u64],
) -> u32
    ensures { left result list.new out.new ≡ Calls.bsp_find_leaf_nodes file.now map.now root point.now list.old out.old }
{
    ffi_entered::find_leaf_nodes(file, map, root, point, list, out)
}

// The same for `bsp_trace`.
#[unsafe(no_mangle)]
pub extern "C" fn bsp_trace_nodes(
    file: &[u8],
    map: &[u32],
    hull: &[u64],
    segment: &[f32],
    list: &mut [u32],
    out: &mut [u64],
) -> u32
    ensures { left result list.new out.new ≡ Calls.bsp_trace_nodes file.now map.now hull.now segment.now list.old out.old }
{
    ffi_entered::trace_nodes(file, map, hull, segment, list, out)
}

// What a whole shot meets: the trace of the line from start to end, by its fraction.
#[unsafe(no_mangle)]
pub extern "C" fn bsp_trace_line(
    file: &[u8],
    map: &[u32],
    hull: &[u64],
    segment: &[f32],
    out: &mut [u64],
) -> u32
    ensures { written result out.new ≡ Calls.bsp_trace_line file.now map.now hull.now segment.now out.old }
{
    ffi_line::trace_line(file, map, hull, segment, out)
}

// The set of contents that a box of points meets.
#[unsafe(no_mangle)]
pub extern "C" fn bsp_contents_box(
    file: &[u8],
    map: &[u32],
    hull: &[u64],
    bounds: &[f32],
    marks: &mut [u8],
    out: &mut [u64],
) -> u32
    ensures { left result marks.new out.new ≡ Calls.bsp_contents_box file.now map.now hull.now bounds.now marks.old out.old }
{
    ffi_boxes::contents_box(file, map, hull, bounds, marks, out)
}

// The contents codes of many points, a byte each, at the front of `list`, and how often a node was read.
#[unsafe(no_mangle)]
pub extern "C" fn bsp_contents_points(
    file: &[u8],
    map: &[u32],
    hull: &[u64],
    points: &[f32],
    list: &mut [u8],
    out: &mut [u64],
) -> u32
    ensures { left result list.new out.new ≡ Calls.bsp_contents_points file.now map.now hull.now points.now list.old out.old }
{
    ffi_points::contents_points(file, map, hull, points, list, out)
}

// The nodes of a root's tree in walking order, in `list`, and their number.
#[unsafe(no_mangle)]
pub extern "C" fn bsp_order(
    file: &[u8],
    map: &[u32],
    table: u32,
    root: u64,
    marks: &mut [u8],
    list: &mut [i32],
    out: &mut [u64],
) -> u32
    ensures { Calls.ordering result marks.new list.new out.new ≡ Calls.bsp_order file.now map.now table root marks.old list.old out.old }
{
    ffi_order::order(file, map, table, root, marks, list, out)
}

// The contents at a point, by a list of nodes in walking order.
#[unsafe(no_mangle)]
pub extern "C" fn bsp_order_contents(
    file: &[u8],
    map: &[u32],
    list: &[i32],
    root: u64,
    point: &[f32],
    out: &mut [u64],
) -> u32
    ensures { written result out.new ≡ Calls.bsp_order_contents file.now map.now list.now root point.now out.old }
{
    ffi_order::contents(file, map, list, root, point, out)
}

// The trace of a segment, by a list of nodes in walking order.
#[unsafe(no_mangle)]
pub extern "C" fn bsp_order_trace(
    file: &[u8],
    map: &[u32],
    list: &[i32],
    root: u64,
    segment: &[f32],
    out: &mut [u64],
) -> u32
    ensures { written result out.new ≡ Calls.bsp_order_trace file.now map.now list.now root segment.now out.old }
{
    ffi_order::trace(file, map, list, root, segment, out)
}

// The leaves that can be seen from a leaf, at the front of `list`, and their count.
#[unsafe(no_mangle)]
pub extern "C" fn bsp_pvs(
    file: &[u8],
    map: &[u32],
    leaf: u64,
    leaf_count: u64,
    list: &mut [u32],
    out: &mut [u64],
) -> u32
    ensures { left result list.new out.new ≡ Calls.bsp_pvs file.now map.now leaf leaf_count list.old out.old }
{
    ffi_vis::pvs(file, map, leaf, leaf_count, list, out)
}

// The leaves that one of up to 16 players sees, from their leaves, at the front of `list`, and their count.
#[unsafe(no_mangle)]
pub extern "C" fn bsp_pvs_team(
    file: &[u8],
    map: &[u32],
    leaves: &[u64],
    leaf_count: u64,
    list: &mut [u32],
    out: &mut [u64],
) -> u32
    ensures { left result list.new out.new ≡ Calls.bsp_pvs_team file.now map.now leaves.now leaf_count list.old out.old }
{
    ffi_team::pvs_team(file, map, leaves, leaf_count, list, out)
}

// The tree check from a root of a node table: the tree's height.
#[unsafe(no_mangle)]
pub extern "C" fn bsp_tree_check(
    file: &[u8],
    map: &[u32],
    table: u32,
    root: u64,
    marks: &mut [u8],
    out: &mut [u64],
) -> u32
    ensures { left result marks.new out.new ≡ Calls.bsp_tree_check file.now map.now table root marks.old out.old }
{
    ffi_tree::tree_check(file, map, table, root, marks, out)
}

// Whether a map may go on the rota: 0, or why not.
#[unsafe(no_mangle)]
pub extern "C" fn bsp_accept(file: &[u8], map: &[u32], marks: &mut [u8]) -> u32
    ensures { written result marks.new ≡ Calls.bsp_accept file.now map.now marks.old }
{
    ffi_accept::accept(file, map, marks)
}

// The number in the file of the frame at a place of a group of the texture of a new number.
#[unsafe(no_mangle)]
pub extern "C" fn bsp_texture_frame(
    file: &[u8],
    map: &[u32],
    number: u64,
    group: u32,
    place: u64,
    out: &mut [u64],
) -> u32
    ensures { written result out.new ≡ Calls.bsp_texture_frame file.now map.now number group place out.old }
{
    ffi_textures::frame(file, map, number, group, place, out)
}

// The number in the file of the static texture of a new number.
#[unsafe(no_mangle)]
pub extern "C" fn bsp_texture_static(file: &[u8], map: &[u32], number: u64, out: &mut [u64]) -> u32
    ensures { written result out.new ≡ Calls.bsp_texture_static file.now map.now number out.old }
{
    ffi_textures::static_number(file, map, number, out)
}

// The texture of a number in the file: 5 words.
#[unsafe(no_mangle)]
pub extern "C" fn bsp_texture(file: &[u8], map: &[u32], index: u64, out: &mut [u64]) -> u32
    ensures { written result out.new ≡ Calls.bsp_texture file.now map.now index out.old }
{
    ffi_textures::texture(file, map, index, out)
}

// The new numbers of all textures, by their numbers in the file, at the front of `list`, and their count.
#[unsafe(no_mangle)]
pub extern "C" fn bsp_texture_numbers(
    file: &[u8],
    map: &[u32],
    list: &mut [u32],
    out: &mut [u64],
) -> u32
    ensures { left result list.new out.new ≡ Calls.bsp_texture_numbers file.now map.now list.old out.old }
{
    ffi_textures::numbers(file, map, list, out)
}

// The file of a made-up map from a seed and a node count, at the front of `buffer`, and its length.
#[unsafe(no_mangle)]
pub extern "C" fn bsp_made_up(seed: u32, nodes: u64, buffer: &mut [u8], out: &mut [u64]) -> u32
    ensures { left result buffer.new out.new ≡ Calls.bsp_made_up seed nodes buffer.old out.old }
{
    ffi_made::made_up(seed, nodes, buffer, out)
}

// The library's version.
#[unsafe(no_mangle)]
pub extern "C" fn bsp_version() -> u32
    ensures { result ≡ Calls.bsp_version }
{
    ffi_place::version()
}
