// Numbers that look random and are the same in every run.
ghost use Rattle.std.specs.Prelude.{◌≡◌, ◌==◌, ◌%◌, if◌then◌else◌, ◌<◌, ◌^◌, length, slice_get};
ghost use Rattle.trials.specs.Generator.{next_state, number_of};

// A xorshift generator. One that is seeded with 0 draws 0 for ever.
#[derive(PartialEq, Eq, Debug, Drop)]
pub struct Random {
    pub state: u64,
}

impl Random {
    pub fn seeded(seed: u64) -> Random
        ensures { result.state ≡ seed }
    {
        Random { state: seed }
    }

    // The next number, which may be any.
    pub fn next(&mut self) -> u32
        ensures moves { self.new.state ≡ next_state self.old.state }
        ensures number { result ≡ number_of self.new.state }
    {
        self.state ^= self.state << 13;
        self.state ^= self.state >> 7;
        self.state ^= self.state << 17;
        (self.state >> 32) as u32
    }

    // A number below the bound; 0 where that is 0.
    pub fn below(&mut self, bound: u32) -> u32
        ensures moves { self.new.state ≡ next_state self.old.state }
        ensures number { result ≡ (if bound == 0 then 0 else number_of self.new.state % bound) }
    {
        self.next().checked_rem(bound).unwrap_or(0)
    }

    // One of these items, of which there are some.
    pub fn one_of<T: Copy>(&mut self, items: &[T]) -> T
        requires some { 0 < length items.now }
        requires few { length items.now < 2 ^ 32 }
        ensures moves { self.new.state ≡ next_state self.old.state }
        ensures item { slice_get items.now (number_of self.new.state % length items.now) ≡ Some result }
    {
        items[self.below(items.len() as u32) as usize]
    }
}
