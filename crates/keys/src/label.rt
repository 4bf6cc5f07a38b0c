// A label of sixteen bytes, ordered by what its bytes weigh: the first place with different weights decides.
ghost use Rattle.std.specs.Prelude.{◌≡◌, ◌<◌, not, ◌==◌};
ghost use Rattle.keys.specs.Weights.{weight_of, weight_at_lem, lighter, FirstDifference, lighter_at};
ghost use Rattle.keys.specs.Weighing.{lawful_lighter};

use crate::Key;

#[derive(Clone, Copy, PartialEq, Eq, Debug)]
pub struct Label {
    pub bytes: [u8; 16],
}

impl From<[u8; 16]> for Label {
    ghost from_gives = { λ bytes key. key.bytes ≡ bytes };

    fn from(bytes: [u8; 16]) -> Label {
        Label { bytes }
    }
}

// What a byte weighs: a lowercase letter as its uppercase one, 32 less; any other byte its value. (Written out as the rule
// states it.)
pub fn weight(byte: u8) -> u8
    ensures { result ≡ weight_of byte }
{
    match byte {
        b'a'..=b'z' => byte - 32,
        _ => byte,
    }
}

impl Label {
    // What the byte at a place weighs.
    #[tactic(auto, unfolding(crate::specs::Weights::weight_at_lem))]
    fn weight_at(&self, place: usize) -> u8
        requires { place < 16 }
        ensures { result ≡ weight_at_lem self.now place }
    {
        weight(self.bytes[place])
    }

    // Do the two weigh differently at a place?
    fn differs_at(&self, other: &Label, place: usize) -> bool
        requires { place < 16 }
        ensures { result ≡ not (weight_at_lem self.now place == weight_at_lem other.now place) }
    {
        self.weight_at(place) != other.weight_at(place)
    }

    // The first place where the two weigh differently, which decides their order.
    pub fn first_difference(&self, other: &Label) -> Option<usize>
        ensures place { FirstDifference self.now other.now result }
        ensures decides { lighter self.now other.now ≡ lighter_at self.now other.now result }
    {
        (0..self.bytes.len()).find(|place| self.differs_at(other, *place))
    }
}

impl Key for Label {
    ghost before = { lighter };

    ghost lawful = { lawful_lighter };

    fn precedes(&self, other: &Label) -> bool {
        self.first_difference(other)
            .is_some_and(|place| self.weight_at(place) < other.weight_at(place))
    }
}
