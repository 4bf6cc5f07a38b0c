// Strike lists over a column, over a reference to it, and over one another.
ghost use Rattle.layers.specs.Views.{Kept};

use crate::ranked::Ranked;
use crate::seen::{agrees, in_sight, ranks_of};
use directories::FrozenIndex;
use indexes::{Index, Layout};
use keys::Key;
use layers::StrikeList;
use std::alloc::{AllocError, Global};
use trials::Tally;

// Two strike lists above a column, over any kind of key: that a caller's own struct can hold them is tried, too.
#[derive(Drop)]
struct Pile<'a, K: Key> {
    top: StrikeList<K, StrikeList<K, FrozenIndex<'a, K>>>,
}

// A strike list above an index, with rows struck that are there, and the rows that it shows then.
fn above<K: Key + Ranked, I: Index<K>>(
    tally: &mut Tally,
    below: I,
    struck: &[u32],
    seen: &[i128],
    sought: &[K],
) -> StrikeList<K, I>
    requires { I.Index.opened below }
    ensures { Kept I.Index.opened I.Index.means result }
{
    let mut list = StrikeList::new(below);
    for row in struck {
        tally.note(list.strike(*row).is_ok());
    }
    agrees(tally, &list, seen, sought);
    list
}

// A column with one strike list and with two above it; `between` are keys that the column lacks.
pub fn piled<K: Key + Ranked>(
    heap: Global,
    column: &[K],
    between: &[K],
    first: &[u32],
    second: &[u32],
) -> Result<Tally, AllocError> {
    let mut tally = Tally::new();
    let all = ranks_of(heap, column)?;
    let some = in_sight(heap, all.as_slice(), first)?;
    let few = in_sight(heap, some.as_slice(), second)?;
    let mut sought = Vec::from_slice(heap, column)?;
    sought.extend_from_slice(between)?;
    let sought = sought.as_slice();
    let mut frozen = FrozenIndex::empty();
    tally.note(frozen.open(column, Layout::Bare, &[]).is_ok());
    agrees(&mut tally, &frozen, all.as_slice(), sought);
    let lent = above(&mut tally, &frozen, first, some.as_slice(), sought);
    drop(above(&mut tally, &lent, second, few.as_slice(), sought));
    let list = above(&mut tally, frozen, first, some.as_slice(), sought);
    let top = above(&mut tally, list, second, few.as_slice(), sought);
    drop(Pile { top });
    Ok(tally)
}
