//! Two elements of a slice at once.
ghost use Rattle.std.specs.Prelude.{◌≡◌, ◌≢◌, ◌<◌, length, set, get_or};
ghost use Rattle.std.specs.Borrow.{sem, LendsBoth, Array};

/// Two elements of a slice, at different places.
pub fn lend_two<T>(items: &mut [T], first: usize, second: usize) -> (&mut T, &mut T)
    requires first { first < length items.old }
    requires second { second < length items.old }
    requires apart { first ≢ second }
    ensures* writes_back { sem 𝓛 (LendsBoth (Array T.row 0) T.row T.row items.entry result
        (λ x y. set (set items.old first x) second y)) }
    ensures first { result.0.now ≡ get_or items.old first result.0.now }
    ensures second { result.1.now ≡ get_or items.old second result.1.now }
{
    if second < first {
        let (low, high) = items.split_at_mut(first);
        (&mut high[0], &mut low[second])
    } else {
        let (low, high) = items.split_at_mut(second);
        (&mut low[first], &mut high[0])
    }
}
