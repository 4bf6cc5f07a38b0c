// What every decline is held to, and the layouts that are always declined.
use indexes::{Decline, Layout};

// The reasons that are tried, each with its number.
const NUMBERS: [(Decline, u8); 5] = [
    (Decline::NodeSize, 1),
    (Decline::TooManyRows, 2),
    (Decline::OutOfOrder, 3),
    (Decline::SlotCount, 4),
    (Decline::SlotDiffers, 5),
];

// Is the call declined for this reason, and is the reason's number the one that belongs to it?
pub fn is_declined(answer: Result<(), Decline>, why: Decline) -> bool {
    answer == Err(why) && NUMBERS.contains(&(why, why.number()))
}

// Node sizes that are not allowed: too small, too large, and for a level directory between the powers of two.
pub const NOT_ALLOWED: [Layout; 12] = [
    Layout::Full { slots: 0 },
    Layout::Full { slots: 1 },
    Layout::Full { slots: 65 },
    Layout::Full { slots: 255 },
    Layout::Level { slots: 0 },
    Layout::Level { slots: 1 },
    Layout::Level { slots: 3 },
    Layout::Level { slots: 6 },
    Layout::Level { slots: 63 },
    Layout::Level { slots: 65 },
    Layout::Level { slots: 128 },
    Layout::Level { slots: 255 },
];
