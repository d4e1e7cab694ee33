// A stored sample of the Rust's answers beside the code's. Standard input is the sample, which `oracle/run sample` makes, at most 524,288
// bytes. What is printed says how many cases of each kind ran and how many of all differed: none, says the file `stdout`. (A difference does
// not change the exit status: it is 1 where reading, writing or allocating fails, and else 0.)
#![tactic(auto)]

mod replay;
mod text;

use replay::Tally;
use std::io;
use std::io::Read;

// The names of the kinds of cases, from kind 1 on.
const KINDS: [&str; 13] = [
    "loads",
    "records",
    "counts",
    "entity texts",
    "hulls",
    "boxes",
    "contents",
    "leaf lookups",
    "traces",
    "visibility lists",
    "nodes to contents",
    "nodes to leaves",
    "nodes of traces",
];

fn print_line(rt: &impl Print, name: &str, count: u64) -> io::Result<()> {
    println!(rt; "{name} {count}")
}

// How many cases of each kind ran, how many in all, and how many of them differed.
fn print_tally(rt: &impl Print, tally: Tally) -> io::Result<()> {
    for kind in 0..13 {
        print_line(rt, KINDS[kind], tally.ran[kind + 1])?;
    }
    print_line(rt, "cases", tally.all)?;
    print_line(rt, "differ", tally.all.wrapping_sub(tally.agreed))
}

fn main(rt: HostRuntime) -> io::Result<()> {
    let mut sample = Vec::new(rt.alloc());
    rt.stdin().take(524288).read_to_end(&mut sample)?;
    let mut words = vec![in rt.alloc(); 0u64; 262144]?;
    let count = text::words_of(&sample, &mut words);
    let mut file = vec![in rt.alloc(); 0u8; 65536]?;
    print_tally(&rt, replay::replay(&words[..count], &mut file))
}
