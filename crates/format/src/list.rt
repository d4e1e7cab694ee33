// What is written to the front of a lent list.
ghost use Rattle.std.specs.Prelude.{◌≡◌, ◌++◌, length, take, drop};

// Copies items to the front of a list, as many as it has room for; its later entries are kept. (One by one: for a number of them that is known only
// as the program runs the library's `copy_from_slice` is a call of `memcpy` or `memmove`, which the archives for C do not want from outside.)
#[inline(always)]
pub fn copy_front<T: Copy>(items: &[T], list: &mut [T])
    ensures { list.new ≡ take (length list.old) items.now ++ drop (length items.now) list.old }
{
    let count = items.len().min(list.len());
    for i in 0..count {
        list[i] = items[i];
    }
}
