// The tree check of document 01: is what hangs below a root of a node table a tree, and how high is it? The file, its map record, the table's kind,
// the root and the lent marks are five things that the call for C has apart; a struct of them would be made for one call each time.
#![tactic(auto)]

ghost use Rattle.std.specs.Prelude.{◌≡◌, ◌≤◌, length};
ghost use Rattle.walk.specs.TreeCheck as Walk;
ghost use Rattle.walk.specs.Order as Order;
ghost use Rattle.walk.specs.Private as Private;
ghost use Rattle.nodes.specs.Tables.{leaf_in, nodes_of};
ghost use Rattle.nodes.specs.Fast as Fast;
ghost use Rattle.tree.specs.Check as Check;
ghost use Rattle.format.specs.Answers.{answer_of};

use format::refusal::{Answer, Refusal};
use format::section::BspData;
use math::Vector3;
use nodes::read::read_words;
use nodes::table::{HullTable, Tables, tables_of};

// The nodes that are checked, or written by `order`: those of a table, with the file that they lie in.
#[derive(Clone, Copy)]
pub struct Nodes<'a> {
    pub file: &'a [u8],
    pub tables: Tables,
}

// Whether the end that a word stands for is in range: a leaf's number may be outside its table, contents never are.
#[tactic(auto, using(crate::proofs::Laws::leaf_in_lem, crate::proofs::Laws::contents_in))]
fn end_in_range(t: Tables, word: u16) -> bool
    ensures { result ≡ leaf_in t.leaves.count (Fast.end_of t.table word) }
{
    let table = t.table;
    let leaves = t.leaves;
    if table.is_render() {
        return ((65535 - word) as u32) < leaves.count;
    }
    true
}

// How many marks are set.
#[tactic(auto, using(crate::proofs::Laws::marks_counted))]
fn marks_set(marks: &[u8]) -> usize
    ensures { result ≡ Private.marked marks.now }
{
    marks.iter().filter(|m| **m != 0).count()
}

impl Nodes<'_> {
    // A node with so many levels left, itself included: its index (30), reached before (34), too deep (32), its record (23), its plane's
    // number (30), then the front child and then the back child.
    #[cycle(check_child_check_node)]
    fn check_node(&self, node: usize, levels: u32, marks: &mut [u8]) -> Answer<u32>
        requires { self.now.tables.nodes.count ≤ length marks.old }
        ensures { Walk.checked (answer_of result) marks.new ≡ Walk.check_node (Fast.nodes self.now.file.now self.now.tables) levels node marks.old }
    {
        let nodes = self.tables.nodes;
        let planes = self.tables.planes;
        if (nodes.count as usize) <= node {
            return Err(Refusal::IndexOutsideTable);
        }
        let mark = marks[node];
        if mark != 0 {
            return Err(Refusal::ReachedTwice);
        }
        if levels == 0 {
            return Err(Refusal::TooDeep);
        }
        marks[node] = 1;
        let words = read_words(self.file, self.tables, node)?;
        if planes.count <= words.plane {
            return Err(Refusal::IndexOutsideTable);
        }
        let front = self.check_child(words.on(true), levels - 1, marks)?;
        let back = self.check_child(words.on(false), levels - 1, marks)?;
        Ok(front.max(back) + 1)
    }

    // A child, by its word, with so many levels left below its parent. An end has no height; a leaf's number is tested (30).
    #[cycle(check_child_check_node)]
    fn check_child(&self, word: u16, levels: u32, marks: &mut [u8]) -> Answer<u32>
        requires { self.now.tables.nodes.count ≤ length marks.old }
        ensures { Walk.checked (answer_of result) marks.new ≡ Check.check_word (Fast.nodes self.now.file.now self.now.tables) self.now.tables.table levels word marks.old }
    {
        if word < 32768 {
            return self.check_node(word as usize, levels, marks);
        }
        if end_in_range(self.tables, word) {
            Ok(0)
        } else {
            Err(Refusal::IndexOutsideTable)
        }
    }

    // The check with exactly one mark for each node. Where it passes, the marks set are as many as the tree has nodes.
    fn check_cleared(&self, root: usize, marks: &mut [u8]) -> Answer<(usize, u32)>
        requires { length marks.old ≡ self.now.tables.nodes.count }
        ensures { Order.sized (answer_of result) marks.new ≡ Check.sized_cleared (Fast.nodes self.now.file.now self.now.tables) root }
    {
        marks.fill(0);
        let checked = self.check_node(root, 512, marks);
        let n = marks_set(marks);
        marks.fill(0);
        let height = checked?;
        Ok((n, height))
    }
}

// The tree check from a root of the render nodes, the clip nodes or a box's six, with one lent mark for each node (else 22, and the marks
// stay as they were), and how many nodes the tree has. Whatever the marks hold before, the first ones, one for each node, are zero
// afterwards; later ones are kept.
#[tactic(auto, using(crate::proofs::Laws::few_marks, crate::proofs::Laws::marks_enough))]
pub fn tree_size(
    file: &[u8],
    map: BspData,
    table: HullTable,
    root: usize,
    marks: &mut [u8],
) -> Answer<(usize, u32)>
    ensures { Order.sized (answer_of result) marks.new ≡ Order.sized_check (nodes_of file.now map table) marks.old root }
{
    let none = Vector3::new(0.0, 0.0, 0.0);
    let tables = tables_of(map, table, none, none);
    let count = tables.nodes.count as usize;
    if marks.len() < count {
        return Err(Refusal::ListTooShort);
    }
    let nodes = Nodes { file, tables };
    nodes.check_cleared(root, &mut marks[..count])
}

// The tree check alone, `tree_size` without the number of nodes.
pub fn tree_check(
    file: &[u8],
    map: BspData,
    table: HullTable,
    root: usize,
    marks: &mut [u8],
) -> Answer<u32>
    ensures { Walk.checked (answer_of result) marks.new ≡ Walk.tree_check (nodes_of file.now map table) marks.old root }
{
    let (_, height) = tree_size(file, map, table, root, marks)?;
    Ok(height)
}
