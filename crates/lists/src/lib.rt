// Lists in slices that the caller lends: the first entries of the slice, up to a stated length.
#![tactic(auto)]

ghost use Rattle.std.specs.Prelude.{◌≡◌};
ghost use Rattle.lists.specs.Splices.{ended, splice_rule, copied, copy_rule};

pub mod growing;

// Lists here are a lent slice and a length, not a `Vec`: the memory is the lender's, and nothing is allocated.

// Replaces the entries from `start` up to `end` of the `length` entries in `list` by `inserted`, and answers the
// new length. The tail is moved once. None, with every entry as it was, where the places are out of order or the
// list would pass its slice.
pub fn splice<T: Copy>(
    list: &mut [T],
    length: usize,
    start: usize,
    end: usize,
    inserted: &[T],
) -> Option<usize>
    ensures { ended result list.new ≡ splice_rule list.old length start end inserted.now }
{
    if start > end || end > length || length > list.len() {
        return None;
    }
    // what is free behind the list, and what the deleted entries leave: no sum that could overflow
    let room = list.len() - length + (end - start);
    if inserted.len() > room {
        return None;
    }
    let middle = start + inserted.len();
    list.copy_within(end..length, middle);
    list[start..middle].copy_from_slice(inserted);
    Some(middle + (length - end))
}

// Writes all of `from` over the front of `list`, and answers how many entries that are. None, with every entry as it
// was, where they do not fit.
pub fn copy<T: Copy>(list: &mut [T], from: &[T]) -> Option<usize>
    ensures { copied result list.new ≡ copy_rule list.old from.now }
{
    let count = from.len();
    if count > list.len() {
        return None;
    }
    list[..count].copy_from_slice(from);
    Some(count)
}
