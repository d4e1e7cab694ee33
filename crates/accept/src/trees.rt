// The tree checks of acceptance.
ghost use Rattle.std.specs.Prelude.{◌≡◌, ◌≤◌, length};
ghost use Rattle.nodes.specs.Tables.{nodes_of};
ghost use Rattle.nodes.specs.declared.table.HullTable.TheVariants as Table;
ghost use Rattle.format.specs.Section.{record_count};
ghost use Rattle.format.specs.declared.section.BspFileSectionId.TheVariants as Id;
ghost use Rattle.format.specs.Answers.{answer_of};
ghost use Rattle.accept.specs.Accept as Acc;
ghost use Rattle.accept.specs.Fast as Fast;

use format::refusal::Answer;
use format::section::{BspData, BspFileSectionId};
use models::model::{PerHull, file_model};
use nodes::table::HullTable;
use std::marker::Model;
use tree::tree_check;

// What the trees of one map are checked by: its file, its map record, one mark for each node of the larger node table, and the roots that passed,
// one byte for each number below 32,768, those of the render nodes and those of the clip nodes. A clause sees the file's bytes and the map record.
// That there are as many marks as the map asks for, and that each root remembered has passed, holds of every such value.
#[derive(Drop)]
struct Trees<'a> {
    file: &'a [u8],
    map: BspData,
    marks: &'a mut [u8],
    render: [u8; 32768],
    clip: [u8; 32768],
}

impl<'a> Model for Trees<'a> {
    ghost use Rattle.accept.specs.OfMap.{OfMap};

    ghost Value = { OfMap };

    ghost use Rattle.accept.specs.Trees.{of_map, AreTrees};

    ghost view = { of_map };

    ghost invariant = { AreTrees };
}

impl<'a> Trees<'a> {
    // The roots of hulls 0 to 2.
    fn check_roots(&mut self, roots: PerHull) -> Answer<()>
        ensures answer { answer_of result ≡ Acc.roots_check self.old.file self.old.map roots }
        ensures kept { self.new ≡ self.old }
    {
        let (file, map) = (self.file, self.map);
        let marks = &mut *self.marks;
        let render = &mut self.render;
        let clip = &mut self.clip;
        check_root(file, map, HullTable::Render, roots.hull_0, marks, render)?;
        check_root(file, map, HullTable::Clip, roots.hull_1, marks, clip)?;
        check_root(file, map, HullTable::Clip, roots.hull_2, marks, clip)
    }

    // The roots of a model.
    #[tactic(auto, unfolding(crate::specs::Accept::model_trees))]
    fn check_model(&mut self, model: usize) -> Answer<()>
        ensures answer { answer_of result ≡ Acc.model_trees self.old.file self.old.map model }
        ensures kept { self.new ≡ self.old }
    {
        let own = file_model(self.file, self.map, model)?;
        self.check_roots(own.collision_node_ids)
    }

    // The roots of every model.
    #[tactic(auto, using(crate::proofs::Checks::begins, crate::proofs::Checks::done, crate::proofs::Checks::more, crate::proofs::Checks::stop, format::proofs::Answers::handed_on))]
    fn check_models(&mut self) -> Answer<()>
        ensures answer { answer_of result ≡ Acc.each (Acc.model_trees self.old.file self.old.map) (record_count Id.Models self.old.map.models) 0 }
        ensures kept { self.new ≡ self.old }
    {
        let count = self.map.models.record_count(BspFileSectionId::Models) as usize;
        for i in 0..count {
            self.check_model(i)?;
        }
        Ok(())
    }

    // Render node 0.
    #[tactic(auto, using(crate::proofs::Ways::render_fits))]
    fn check_node_0(&mut self) -> Answer<()>
        ensures answer { answer_of result ≡ Acc.tree_from self.old.file self.old.map Table.Render 0 }
    {
        check_root(
            self.file,
            self.map,
            HullTable::Render,
            0,
            self.marks,
            &mut self.render,
        )
    }
}

// The tree check from a root. (The table, the root and the marks stand apart as in `tree_check`, which takes them.)
#[tactic(auto, unfolding(crate::specs::Accept::tree_from))]
fn check_tree(
    file: &[u8],
    map: BspData,
    table: HullTable,
    root: usize,
    marks: &mut [u8],
) -> Answer<()>
    requires { (nodes_of file.now map table).count ≤ length marks.old }
    ensures { answer_of result ≡ Acc.tree_from file.now map table root }
{
    tree_check(file, map, table, root, marks)?;
    Ok(())
}

// The same, where a root that is remembered as passed is not checked again. Node numbers from 32,768 on are in no table.
fn check_root(
    file: &[u8],
    map: BspData,
    table: HullTable,
    root: usize,
    marks: &mut [u8],
    passed: &mut [u8; 32768],
) -> Answer<()>
    requires { ((nodes_of file.now map table).count ≤ length marks.old) × Fast.Remembered file.now map table passed.old }
    ensures { (answer_of result ≡ Acc.tree_from file.now map table root) × Fast.Remembered file.now map table passed.new }
{
    if 32768 <= root {
        return check_tree(file, map, table, root, marks);
    }
    if passed[root] != 0 {
        return Ok(());
    }
    check_tree(file, map, table, root, marks)?;
    passed[root] = 1;
    Ok(())
}

// The roots of every model, then render node 0. What passed is remembered for each of the two tables.
#[tactic(auto, unfolding(crate::specs::Accept::trees))]
pub fn check_trees(file: &[u8], map: BspData, marks: &mut [u8]) -> Answer<()>
    requires { length marks.old ≡ Acc.marks_for map }
    ensures { answer_of result ≡ Acc.trees file.now map }
{
    let mut trees = Trees {
        file,
        map,
        marks,
        render: [0; 32768],
        clip: [0; 32768],
    };
    trees.check_models()?;
    trees.check_node_0()
}
