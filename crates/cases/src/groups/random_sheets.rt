// Random sheets: columns with many equal rows, a few of them out of order, and random calls.
use crate::draws::Draws;
use crate::question::{Kind, Question};
use crate::sorted::sorted;
use crate::trial::Trial;
use std::alloc::AllocError;
use trials::Random;

// One sheet, with up to `calls` calls; one column in twenty is left as it was drawn.
fn sheet(trial: &mut Trial, draws: &mut Draws, calls: u32) -> Result<(), AllocError> {
    let spread = draws.spread();
    let drawn = draws.keys(trial.heap, spread)?;
    let in_order = sorted(trial.heap, drawn.as_slice())?;
    let asks = draws.asks(trial.heap, spread.saturating_add(2), calls)?;
    let rows = if draws.random.below(20) == 0 {
        drawn
    } else {
        in_order
    };
    trial.question(&Question {
        kind: draws.kind,
        rows: rows.as_slice(),
        asks: asks.as_slice(),
    });
    Ok(())
}

// So many sheets, each with up to `calls` calls.
pub fn tried(trial: &mut Trial, kind: Kind, sheets: u32, calls: u32) {
    let mut draws = Draws {
        random: Random::seeded(0x2545_F491_4F6C_DD1D),
        kind,
    };
    for _ in 0..sheets {
        let done = sheet(trial, &mut draws, calls);
        trial.settle(done);
    }
}
