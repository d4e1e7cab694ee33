// The rows of a team, walked side by side, eight leaves at a time. A cursor for each row holds the position of the row's next byte and that
// byte's group, the leaves from 1 + 8 * group on. A byte of the pool is the union of the rows' bytes for one group, and the next group is the
// least that a cursor is at: groups that no row has a byte for are not looked at.
ghost use Rattle.std.specs.Prelude.{◌≡◌, ◌++◌, ◌+◌, ◌-◌, ◌*◌, ◌≤◌, ◌<◌, min, length, take, drop};
ghost use Rattle.format.specs.Answers.{answer_of};
ghost use Rattle.format.specs.Answer.{answer, refused};
ghost use Rattle.format.specs.Listed.{listed, into};
ghost use Rattle.vis.specs.Row.{before, row_from, byte_leaves};
ghost use Rattle.vis.specs.Pvs.{visibility_of};
ghost use Rattle.team.specs.Team.{pooled};
ghost use Rattle.team.specs.Starts.{data_of};
ghost use Rattle.team.specs.SideBySide.{kept_bits, rests_of, rows_at, Cursors, Starts, Together};

use format::list::copy_front;
use format::refusal::{Answer, Refusal};
use format::section::BspFileSection;
use vis::row::{kept_bits, put_leaves, visibility_of};

// The byte of a row for a group, and the cursor after it.
#[derive(Clone, Copy)]
struct Taken {
    at: usize,
    group: usize,
    byte: u8,
}

// Takes the byte of a row for the group `this` from a cursor that has not passed it, 0 where the row has none there. (No `for`: the position
// moves by one byte or by two.)
#[tactic(auto, using(crate::proofs::Cursors::group_byte, crate::proofs::Cursors::group_follower, crate::proofs::Cursors::taken_byte, crate::proofs::Cursors::passed_group, crate::proofs::Cursors::skipped_groups))]
fn row_byte(visibility: &[u8], at: usize, group: usize, this: usize, leaf_count: usize) -> Taken
    requires { (length visibility.now ≤ 1048576) × (at ≤ length visibility.now) × (group ≤ 255 * at) × (this ≤ group) × (1 + 8 * this < leaf_count) × (row_from leaf_count (1 + 8 * group) (drop at visibility.now) ≡ refused 33 → ⊥) }
    ensures { (result.at ≤ length visibility.now) × (result.group ≤ 255 * result.at) × (this < result.group) × (row_from leaf_count (1 + 8 * group) (drop at visibility.now) ≡ before (byte_leaves (1 + 8 * this) (kept_bits leaf_count (1 + 8 * this) result.byte)) (row_from leaf_count (1 + 8 * result.group) (drop result.at visibility.now))) }
{
    let mut next = at;
    let mut here = group;
    while here == this {
        let byte = visibility[next];
        next += 1;
        if byte != 0 {
            return Taken {
                at: next,
                group: here + 1,
                byte,
            };
        }
        here += visibility[next] as usize;
        next += 1;
    }
    Taken {
        at: next,
        group: here,
        byte: 0,
    }
}

// The union of the rows' bytes for a group, and the least group that a cursor is at after it.
#[derive(Clone, Copy)]
struct Union {
    byte: u8,
    next: usize,
}

// Takes the byte of each row for the group `this`, from cursors that have not passed it.
// The cursors are two lists: as one list of pairs, of two usize or of two u32, they make a call take up to 11 or 19 percent longer. (An index, and
// no `zip` of two `iter_mut`: the invariant is of both lists at one place, which the index names.)
fn pool_byte(
    visibility: &[u8],
    ats: &mut [usize],
    groups: &mut [usize],
    this: usize,
    leaf_count: usize,
) -> Union
    requires { (length visibility.now ≤ 1048576) × (length ats.old ≡ length groups.old) × (1 + 8 * this < leaf_count) × (this ≤ 267386880) × Cursors visibility.now leaf_count this ats.old groups.old }
    ensures { (this < result.next) × Cursors visibility.now leaf_count result.next ats.new groups.new × Together visibility.now leaf_count this ats.old groups.old result.byte ats.new groups.new }
{
    let mut pool = 0u8;
    let mut next: usize = 4294967295;
    for i in 0..ats.len() {
        let taken = row_byte(visibility, ats[i], groups[i], this, leaf_count);
        ats[i] = taken.at;
        groups[i] = taken.group;
        pool = pool | taken.byte;
        next = next.min(taken.group);
    }
    Union { byte: pool, next }
}

// How many leaves the rows list together, from cursors at their starts. There is a row. (No `for`, here and in `put_pool`: the group goes on
// to the least that a cursor is at.)
fn pool_length(
    visibility: &[u8],
    ats: &mut [usize],
    groups: &mut [usize],
    leaf_count: usize,
) -> usize
    requires { (length visibility.now ≤ 1048576) × (length ats.old ≡ length groups.old) × (0 < length ats.old) × Cursors visibility.now leaf_count 0 ats.old groups.old }
    ensures { result ≡ length (pooled (rests_of visibility.now leaf_count ats.old groups.old) 1 (leaf_count - 1)) }
{
    let mut this = 0;
    let mut leaf = 1;
    let mut count = 0;
    while leaf < leaf_count {
        let taken = pool_byte(visibility, ats, groups, this, leaf_count);
        count += kept_bits(taken.byte, leaf_count - leaf).count_ones() as usize;
        this = taken.next;
        leaf = 1 + 8 * this;
    }
    count
}

// Writes the leaves that the rows list together, which are as many as the list has entries. There is a row. (No `for`: see `pool_length`. One
// function for both would take what is done with a byte as a closure, which would hold the list and the count, and be no plainer.)
fn put_pool(
    visibility: &[u8],
    ats: &mut [usize],
    groups: &mut [usize],
    leaf_count: usize,
    list: &mut [u32],
)
    requires { (length visibility.now ≤ 1048576) × (length ats.old ≡ length groups.old) × (0 < length ats.old) × Cursors visibility.now leaf_count 0 ats.old groups.old × (length (pooled (rests_of visibility.now leaf_count ats.old groups.old) 1 (leaf_count - 1)) ≡ length list.old) }
    ensures { list.new ≡ pooled (rests_of visibility.now leaf_count ats.old groups.old) 1 (leaf_count - 1) }
{
    let mut this = 0;
    let mut leaf = 1;
    let mut count = 0;
    while leaf < leaf_count {
        let taken = pool_byte(visibility, ats, groups, this, leaf_count);
        let kept = kept_bits(taken.byte, leaf_count - leaf);
        count += put_leaves(kept, leaf as u32, &mut list[count..]);
        this = taken.next;
        leaf = 1 + 8 * this;
    }
}

// `copy_front` as a call: in line, where it is seen that the lists lie apart, the compiler makes it a call of `memcpy`.
#[inline(never)]
fn copy_apart(items: &[usize], list: &mut [usize])
    ensures { list.new ≡ take (length list.old) items.now ++ drop (length items.now) list.old }
{
    copy_front(items, list)
}

// Lists the leaves that the rows at the starts list together. There is a row, and at most 16. Each of the two
// passes moves its own copy of the starts.
fn list_pool(
    visibility: &[u8],
    starts: &[usize],
    leaf_count: usize,
    list: &mut [u32],
) -> Answer<usize>
    requires { (length visibility.now ≤ 1048576) × (0 < length starts.now) × (length starts.now ≤ 16) × Starts visibility.now leaf_count starts.now }
    ensures { listed (answer_of result) list.new ≡ into (answer (pooled (rows_at visibility.now leaf_count starts.now) 1 (leaf_count - 1))) list.old }
{
    let rows = starts.len();
    let mut ats = [0usize; 16];
    copy_apart(starts, &mut ats[..rows]);
    let mut again = ats;
    let mut groups = [0usize; 16];
    let count = pool_length(
        visibility,
        &mut ats[..rows],
        &mut groups[..rows],
        leaf_count,
    );
    if list.len() < count {
        return Err(Refusal::ListTooShort);
    }
    groups = [0usize; 16];
    put_pool(
        visibility,
        &mut again[..rows],
        &mut groups[..rows],
        leaf_count,
        &mut list[..count],
    );
    Ok(count)
}

// The same for rows of the visibility section, which lies in the file.
pub fn list_rows(
    file: &[u8],
    section: BspFileSection,
    starts: &[usize],
    leaf_count: usize,
    list: &mut [u32],
) -> Answer<usize>
    requires { (visibility_of file.now section ≡ answer (data_of file.now section)) × (0 < length starts.now) × (length starts.now ≤ 16) × Starts (data_of file.now section) leaf_count starts.now }
    ensures { listed (answer_of result) list.new ≡ into (answer (pooled (rows_at (data_of file.now section) leaf_count starts.now) 1 (leaf_count - 1))) list.old }
{
    let visibility = visibility_of(file, section)?;
    list_pool(visibility, starts, leaf_count, list)
}
