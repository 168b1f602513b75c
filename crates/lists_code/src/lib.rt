// Elements put into a list of fixed length.
#![tactic(auto)]

ghost use Rattle.std.specs.Prelude.{◌≡◌, ◌++◌, ◌+◌, ◌≤◌, length, take};
ghost use Rattle.lists.specs.Appending.{appended};

// Some items behind the first `from` of a list. What there is no room for is left out.
pub fn append<T: Copy, const N: usize>(list: [T; N], from: usize, items: &[T]) -> [T; N]
    ensures list { result ≡ appended list from items.now }
    ensures front { from + length items.now ≤ N → take (from + length items.now) result ≡ take from list ++ items.now }
{
    let from = from.min(N);
    let count = items.len().min(N - from);
    let mut next = list;
    let all = &mut next[..];
    all[from..from + count].copy_from_slice(&items[..count]);
    next
}
