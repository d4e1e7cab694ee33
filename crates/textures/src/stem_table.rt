// What is lent for a table of stems: its words, and marks of its nodes, which are bytes or numbers of textures.
ghost use Rattle.std.specs.Prelude.{◌≡◌, ◌≤◌, ◌*◌, length};

// Four words for each node, two nodes at least, and one mark for each node. What the words and marks hold before and after is not said: each
// function that takes them fills them anew.
#[derive(Drop)]
pub struct StemTable<'a, M> {
    pub words: &'a mut [u64],
    pub marks: &'a mut [M],
    pub ghost two_nodes: { 8 ≤ length words.now },
    pub ghost four_words_each: { length words.now ≡ 4 * length marks.now },
}
