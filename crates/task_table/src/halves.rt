//! Counts of the places that are left, by halves of halves.
ghost use Rattle.std.specs.Prelude.{◌≡◌, ◌<◌, ◌≤◌, ◌+◌, ◌^◌, ◌⊎◌, ℕ, length, take};
ghost use Rattle.task_table.specs.Halves.{inner_nodes, places_by_counts, numbers, IsTree, Drawn};

// Takes the k-th place left of 2 to the depth from a base on.
pub(crate) fn draw(lefts: &mut [usize], depth: usize, base: usize, count: usize, k: usize) -> usize
    requires shape { length lefts.old ≡ inner_nodes depth }
    requires tree { IsTree depth lefts.old count }
    requires k { k < count }
    requires room { base + inner_nodes depth < 2 ^ 64 }
    ensures { Drawn depth base lefts.old count k lefts.new result }
{
    if depth == 0 {
        return base;
    }
    let half = lefts.len() / 2;
    let (first, rest) = lefts.split_at_mut(half);
    let Some((middle, last)) = rest.split_first_mut() else {
        unreachable!()
    };
    let in_first = *middle;
    if k < in_first {
        *middle = in_first - 1;
        draw(first, depth - 1, base, in_first, k)
    } else {
        draw(
            last,
            depth - 1,
            base + half + 1,
            count - in_first,
            k - in_first,
        )
    }
}

// Makes the first `count` places those that are left.
pub(crate) fn fill(lefts: &mut [usize], depth: usize, count: usize)
    requires shape { length lefts.old ≡ inner_nodes depth }
    requires count { count ≤ inner_nodes depth + 1 }
    requires room { inner_nodes depth < 2 ^ 64 }
    ensures tree { IsTree depth lefts.new count }
    ensures all { (base : ℕ) → places_by_counts depth base lefts.new count ≡ numbers base count }
{
    if depth == 0 {
        return;
    }
    let half = lefts.len() / 2;
    let in_first = in_first_of(count, half);
    let (first, rest) = lefts.split_at_mut(half);
    let Some((middle, last)) = rest.split_first_mut() else {
        unreachable!()
    };
    *middle = in_first;
    fill(first, depth - 1, in_first);
    fill(last, depth - 1, count - in_first);
}

// Takes the k-th place that is left, where the counts are at the front.
pub(crate) fn draw_front(
    counts: &mut [usize],
    span: usize,
    depth: usize,
    base: usize,
    count: usize,
    k: usize,
) -> usize
    requires span { span ≡ inner_nodes depth }
    requires fits { span ≤ length counts.old }
    requires tree { IsTree depth (take span counts.old) count }
    requires k { k < count }
    requires room { base + span < 2 ^ 64 }
    ensures { Drawn depth base (take span counts.old) count k (take span counts.new) result }
{
    let (lefts, _) = counts.split_at_mut(span);
    draw(lefts, depth, base, count, k)
}

// Makes the first `count` places those that are left, with the counts at the front.
pub(crate) fn fill_front(counts: &mut [usize], span: usize, depth: usize, count: usize)
    requires span { span ≡ inner_nodes depth }
    requires fits { span ≤ length counts.old }
    requires count { count ≤ span + 1 }
    ensures tree { IsTree depth (take span counts.new) count }
    ensures all { (base : ℕ) → places_by_counts depth base (take span counts.new) count ≡ numbers base count }
{
    let (lefts, _) = counts.split_at_mut(span);
    fill(lefts, depth, count);
}

// How many of `count` places are in the first half.
fn in_first_of(count: usize, half: usize) -> usize
    requires { half < 2 ^ 63 }
    ensures most { result ≤ count }
    ensures fits { result ≤ half + 1 }
    ensures all { (result ≡ half + 1) ⊎ (count ≡ result) }
{
    if count <= half { count } else { half + 1 }
}

// How deep the halves are for `count` places, and how many counts there are then.
pub(crate) fn shape_for(count: usize) -> (usize, usize)
    requires { count < 2 ^ 63 }
    ensures counts { result.1 ≡ inner_nodes result.0 }
    ensures enough { count ≤ result.1 + 1 }
    ensures not_many { result.1 ≤ count + count }
{
    let mut depth: usize = 0;
    let mut half: usize = 0;
    'depth: while half + 1 < count {
        half = half + 1 + half;
        depth += 1;
    }
    (depth, half)
}
