// The numbers of a directory, computed once for its column.
ghost use Rattle.std.specs.Prelude.{◌≡◌};
ghost use Rattle.shapes.specs.Layouts.{allowed, shaping, counting_slots};
ghost use Rattle.shapes.specs.Numbers.{shape, one_chunk, Measurable};
ghost use Rattle.shapes.specs.Laws.{Shaped};

use indexes::{Decline, Layout, MAX_ROWS};

// A column is cut into chunks of as many rows as a node has slots. Nodes are numbered from 0, the root, and the children
// of a node stand side by side. The first nodes are internal, and the others are leaves, one to a chunk.
#[derive(Clone, Copy, PartialEq, Eq, Debug)]
pub struct Shape {
    // n: the rows of the column
    pub rows: usize,
    // m: the slots of a node, and the rows of a chunk
    pub slots: usize,
    // w: the children of a node, whose first w - 1 slots are looked at
    pub children: usize,
    // N: the chunks, of which the last may have fewer rows
    pub chunks: usize,
    // k: how many internal nodes a descent passes at most
    pub levels: usize,
    // U: the nodes above the deepest level
    pub upper: usize,
    // L: how many of these are leaves
    pub late: usize,
    // I: the internal nodes, which are those below this number
    pub internal: usize,
    // x: the chunks of the first part, whose leaves lie deepest
    pub first: usize,
}

// Is the node size one allowed for that directory?
fn is_allowed(layout: Layout) -> bool
    ensures { result ≡ allowed layout }
{
    match layout {
        Layout::Bare => true,
        Layout::Full { slots } => matches!(slots, 2..=64),
        Layout::Level { slots } => matches!(slots, 2 | 4 | 8 | 16 | 32 | 64),
    }
}

// A directory over a column of `rows` rows.
fn measured(rows: usize, slots: usize, children: usize) -> Shape
    requires { Measurable rows slots children }
    ensures { result ≡ shape rows slots children }
{
    let chunks = rows.div_ceil(slots);
    let mut levels = 0;
    let mut power = 1;
    // the least power that is enough: a chain over the powers would need a bound of its own, and be no plainer
    while power < chunks {
        power *= children;
        levels += 1;
    }
    let (upper, late) = if chunks <= 1 {
        (0, 0)
    } else {
        (
            (power - 1) / (children - 1),
            (power - chunks) / (children - 1),
        )
    };
    Shape {
        rows,
        slots,
        children,
        chunks,
        levels,
        upper,
        late,
        internal: upper - late,
        first: chunks - late,
    }
}

impl Shape {
    // The shape of a bare column: one chunk of all its rows, and no node is internal.
    pub fn bare(rows: usize) -> Shape
        ensures { result ≡ one_chunk rows }
    {
        let chunks = rows.min(1);
        Shape {
            rows,
            slots: rows,
            children: 2,
            chunks,
            levels: 0,
            upper: 0,
            late: 0,
            internal: 0,
            first: chunks,
        }
    }

    // The shape of what is built over a column of so many rows.
    pub fn of(layout: Layout, rows: usize) -> Result<Shape, Decline>
        ensures answers { result ≡ shaping layout rows }
        ensures laws { Shaped layout result }
    {
        if !is_allowed(layout) {
            return Err(Decline::NodeSize);
        }
        if rows > MAX_ROWS {
            return Err(Decline::TooManyRows);
        }
        match layout {
            Layout::Bare => Ok(Shape::bare(rows)),
            Layout::Full { slots } => {
                let slots = usize::from(slots);
                Ok(measured(rows, slots, slots + 1))
            }
            Layout::Level { slots } => {
                let slots = usize::from(slots);
                Ok(measured(rows, slots, slots))
            }
        }
    }
}

// How many slots a directory over so many rows has; none over a bare column.
pub fn slot_count(layout: Layout, rows: usize) -> Result<usize, Decline>
    ensures { result ≡ counting_slots layout rows }
{
    let shape = Shape::of(layout, rows)?;
    Ok(shape.internal * shape.slots)
}
