// A stored sample of the Rust's answers, case by case, beside the calls that the crate `ffi` hands on. A case is its kind, how many
// arguments it has, the arguments, the number of a refusal (0 for an answer), how many words the answer has, and these words.
//
//     kind  call                  arguments                answer
//     1     bsp_load              the bytes of a file      the words of its map record
//     2     bsp_record            section, index           the words of the record
//     3     bsp_count             section                  the count
//     4     bsp_entities                                   offset and length
//     5     bsp_hull              model, index             the first nine words of the hull
//     6     bsp_box               mins, maxs               the first nine words of the hull
//     7     bsp_contents          point                    contents, visits
//     8     bsp_find_leaf         root, point              leaf, visits
//     9     bsp_trace             start, end               the words of the trace
//     10    bsp_pvs               leaf, leaf count         length, the leaves
//     11    bsp_contents_nodes    point                    length, the nodes entered
//     12    bsp_find_leaf_nodes   root, point              length, the nodes entered
//     13    bsp_trace_nodes       start, end               length, the nodes entered
//
// A file of kind 1, the map record that loading answers for it, and the hull that a case of kind 5 or 6 answers are the current ones: the
// cases after it go by them. A float is a word of its 32 bits. The Rust has no hull's last two words, the size of its tree.
ghost use Rattle.std.specs.Prelude.{◌+◌, ◌<◌, ◌≤◌, length};
ghost use Rattle.trials.specs.Prefix.{IsPrefixLen};
ghost use Rattle.trials.specs.Sample.{Lies};

use words::word_at_u64;

// What the lent lists hold before a call, so that a word written past the answer, or by a refusal, shows.
const UNTOUCHED: u64 = 0xfefe_fefe_fefe_fefe;

const UNTOUCHED_SHORT: u32 = 0xfefe_fefe;

// How many words of a hull the Rust has.
const RUST_WORDS: usize = 9;

// No case expects this number, so a kind that there is not differs.
const NO_KIND: u32 = 255;

// The low 32 bits of an argument.
fn short(args: &[u64], at: usize) -> u32 {
    (word_at_u64(args, at) % 4294967296) as u32
}

// The float of an argument's low 32 bits.
fn float(args: &[u64], at: usize) -> f32 {
    float::num::from_bits(short(args, at))
}

// Three floats from an argument on: a point.
fn point(args: &[u64], at: usize) -> [f32; 3]
    requires { at ≤ 1 }
{
    [float(args, at), float(args, at + 1), float(args, at + 2)]
}

// Six floats: two points.
fn segment(args: &[u64]) -> [f32; 6] {
    [
        float(args, 0),
        float(args, 1),
        float(args, 2),
        float(args, 3),
        float(args, 4),
        float(args, 5),
    ]
}

fn low_byte(word: u64) -> u8 {
    (word % 256) as u8
}

// The arguments as the bytes of a file, as many as there is room for; how many.
fn set_file(args: &[u64], file: &mut [u8]) -> usize
    ensures { IsPrefixLen result file.new }
{
    for (byte, &word) in file.iter_mut().zip(args) {
        *byte = low_byte(word);
    }
    args.len().min(file.len())
}

// What an entry of a list is beside the word before it: an entry that the call did not write leaves the word.
fn written(entry: u32, word: u64) -> u64 {
    if entry == UNTOUCHED_SHORT {
        word
    } else {
        entry as u64
    }
}

// The entries of a list at the front of the words, as far as there is room.
fn put_list(list: &[u32], out: &mut [u64]) {
    for (word, &entry) in out.iter_mut().zip(list) {
        *word = written(entry, *word);
    }
}

// What a case asks: its kind, its arguments, and the current file.
#[derive(Clone, Copy)]
pub struct Asked<'a> {
    pub kind: u64,
    pub args: &'a [u64],
    pub file: &'a [u8],
}

// The calls that leave a list beside its length. (A `match` here and in `ask`: the kind is a number of the sample, and each call takes other
// arguments, so a table of closures would say the same with a closure around each line.)
fn call_list(
    asked: Asked,
    map: &[u32; 31],
    hull: &[u64; 11],
    list: &mut [u32; 4096],
    out: &mut [u64; 4097],
) -> u32 {
    let Asked { kind, args, file } = asked;
    match kind {
        10 => ffi_vis::pvs(
            file,
            map,
            word_at_u64(args, 0),
            word_at_u64(args, 1),
            list,
            out,
        ),
        11 => ffi_entered::contents_nodes(file, map, hull, &point(args, 0), list, out),
        12 => ffi_entered::find_leaf_nodes(
            file,
            map,
            word_at_u64(args, 0),
            &point(args, 1),
            list,
            out,
        ),
        13 => ffi_entered::trace_nodes(file, map, hull, &segment(args), list, out),
        _ => NO_KIND,
    }
}

// The same with the list after its length.
fn ask_list(asked: Asked, map: &[u32; 31], hull: &[u64; 11], out: &mut [u64; 4097]) -> u32 {
    let mut list = [UNTOUCHED_SHORT; 4096];
    let refusal = call_list(asked, map, hull, &mut list, out);
    put_list(&list, &mut out[1..]);
    refusal
}

// The calls that answer words, and leave the current file, map and hull as they are.
fn ask(asked: Asked, map: &[u32; 31], hull: &[u64; 11], out: &mut [u64; 4097]) -> u32 {
    let Asked { kind, args, file } = asked;
    match kind {
        2 => ffi_records::record(file, map, short(args, 0), word_at_u64(args, 1), out),
        3 => ffi_counts::count(map, short(args, 0), out),
        4 => ffi_counts::entities(file, map, out),
        7 => ffi_walks::contents(file, map, hull, &point(args, 0), out),
        8 => ffi_walks::find_leaf(file, map, word_at_u64(args, 0), &point(args, 1), out),
        9 => ffi_traces::trace(file, map, hull, &segment(args), out),
        _ => ask_list(asked, map, hull, out),
    }
}

// Loads a file: its map record becomes the current one, and its words are the answer.
fn ask_load(file: &[u8], map: &mut [u32; 31], out: &mut [u64; 4097]) -> u32 {
    let refusal = ffi_load::load(file, map);
    if refusal == 0 {
        put_list(map, out);
    }
    refusal
}

// A hull, of a model or of a box, which becomes the current one.
fn ask_hull(asked: Asked, map: &[u32; 31], hull: &mut [u64; 11], out: &mut [u64; 4097]) -> u32 {
    let Asked { kind, args, file } = asked;
    let refusal = if kind == 5 {
        ffi_hull::hull_of_model(file, map, word_at_u64(args, 0), word_at_u64(args, 1), hull)
    } else {
        ffi_hull::hull_of_box(&segment(args), hull)
    };
    if refusal == 0 {
        words::give(&hull[..RUST_WORDS], out);
    }
    refusal
}

// One case: the number of its refusal, or 0, and its words in `out`.
fn answer(asked: Asked, map: &mut [u32; 31], hull: &mut [u64; 11], out: &mut [u64; 4097]) -> u32 {
    match asked.kind {
        1 => ask_load(asked.file, map, out),
        5 | 6 => ask_hull(asked, map, hull, out),
        _ => ask(asked, map, hull, out),
    }
}

// Where the number of a case's refusal stands, and where the next case starts.
#[derive(Clone, Copy)]
pub struct Case {
    pub refusal: usize,
    pub next: usize,
}

// The case that starts at a place, or none where the words end before it does.
fn case_at(words: &[u64], at: usize) -> Option<Case>
    requires { at < length words.now }
    ensures { Lies (length words.now) at result }
{
    let left = words.len() - at;
    if left < 4 {
        return None;
    }
    let arguments = words[at + 1] as usize;
    if left - 4 < arguments {
        return None;
    }
    let refusal = at + 2 + arguments;
    let answers = words[refusal + 1] as usize;
    if words.len() - refusal - 2 < answers {
        return None;
    }
    Some(Case {
        refusal,
        next: refusal + 2 + answers,
    })
}

// Whether the words are the expected ones, and all further words are untouched. (A beginning, and what is untouched after it: `==` of the
// lists would ask for as many words.)
fn same(expected: &[u64], out: &[u64]) -> bool {
    match out.split_at_checked(expected.len()) {
        Some((answer, rest)) => answer == expected && rest.iter().all(|word| *word == UNTOUCHED),
        None => false,
    }
}

// How many cases of each kind ran, how many in all, and how many of them agreed.
#[derive(Clone, Copy)]
pub struct Tally {
    pub ran: [u64; 16],
    pub all: u64,
    pub agreed: u64,
}

// A tally with one case more.
fn counted(tally: Tally, kind: u64, agrees: bool) -> Tally {
    let mut ran = tally.ran;
    let at = (kind % 16) as usize;
    ran[at] = ran[at].wrapping_add(1);
    Tally {
        ran,
        all: tally.all.wrapping_add(1),
        agreed: tally.agreed.wrapping_add(u64::from(agrees)),
    }
}

// Whether the refusal and the words are the expected ones.
fn agree(refusal: u32, expected_refusal: u64, expected: &[u64], out: &[u64; 4097]) -> bool {
    refusal as u64 == expected_refusal && same(expected, out)
}

// What is carried from case to case beside the lent lists: the size of the current file, and the tally.
#[derive(Clone, Copy)]
pub struct Replayed {
    pub size: usize,
    pub tally: Tally,
}

// One case, which starts at a place.
fn run_case(
    words: &[u64],
    at: usize,
    case: Case,
    file: &mut [u8],
    map: &mut [u32; 31],
    hull: &mut [u64; 11],
    before: Replayed,
) -> Replayed
    requires { (at + 2 ≤ case.refusal) × (case.refusal + 2 ≤ case.next) × (case.next ≤ length words.now) }
{
    let kind = words[at];
    let args = &words[at + 2..case.refusal];
    let size = match kind {
        // (A case of kind 1 has a file of its own.)
        1 => set_file(args, file),
        _ => before.size,
    };
    let mut out = [UNTOUCHED; 4097];
    let asked = Asked {
        kind,
        args,
        file: file.get(..size).unwrap_or(&[]),
    };
    let number = answer(asked, map, hull, &mut out);
    let expected = &words[case.refusal + 2..case.next];
    let agrees = agree(number, words[case.refusal], expected, &out);
    Replayed {
        size,
        tally: counted(before.tally, kind, agrees),
    }
}

// Runs every case. A case that is broken off counts as one of kind 0 that differs. (No `for`: each case says where the next one starts.)
pub fn replay(words: &[u64], file: &mut [u8]) -> Tally {
    let mut map = [0u32; 31];
    let mut hull = [0u64; 11];
    let mut state = Replayed {
        size: 0,
        tally: Tally {
            ran: [0; 16],
            all: 0,
            agreed: 0,
        },
    };
    let mut at = 0;
    while at < words.len() {
        let Some(case) = case_at(words, at) else {
            return counted(state.tally, 0, false);
        };
        state = run_case(words, at, case, file, &mut map, &mut hull, state);
        at = case.next;
    }
    state.tally
}
