// Rows looked at in a plain loop, by halving: std's `partition_point` leaves open which rows it looks at, and
// counts nothing.
ghost use Rattle.std.specs.Prelude.{◌≡◌, ◌*◌, ◌+◌, ◌^◌, ◌≤◌, ℕ, true, false, length, slice_get};
ghost use Rattle.std.specs.Fn.{FnReturnsAt};

// What a halving came to: how many rows stand before the place, and the comparisons. Not the library's `Counted`, since a
// reader shares no code with what it is held against.
#[derive(Clone, Copy, PartialEq, Eq, Debug)]
pub struct Sought {
    pub place: usize,
    pub comparisons: u32,
}

// Halves the range that is left until nothing is, one comparison for each round.
pub fn halved<T, F: Fn(&T) -> bool>(rows: &[T], passes: F) -> Sought
    requires { F.IsAlwaysCallable passes }
    ensures place { result.place ≤ length rows.now }
    ensures before { (k : ℕ) (row : T) → k + 1 ≡ result.place → slice_get rows.now k ≡ Some row → FnReturnsAt F.Fn passes row true }
    ensures behind { (row : T) → slice_get rows.now result.place ≡ Some row → FnReturnsAt F.Fn passes row false }
    ensures most { 2 ^ result.comparisons ≤ 2 * length rows.now + 1 }
    ensures fewest { length rows.now + 2 ≤ 2 ^ result.comparisons * 2 }
{
    let mut lo = 0;
    let mut hi = rows.len();
    let mut comparisons = 0u32;
    while lo < hi {
        let middle = lo + (hi - lo) / 2;
        comparisons += 1;
        if passes(&rows[middle]) {
            lo = middle + 1;
        } else {
            hi = middle;
        }
    }
    Sought {
        place: lo,
        comparisons,
    }
}
