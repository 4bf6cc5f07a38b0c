// The columns worked by hand, and one theorem with all that was worked out over them.
//
// `worked_columns` gives the columns of docs/DIRECTORIES.md. Its contract says of them, jointly and of the definitions
// themselves, most of the shapes, slots, places, comparisons and ceilings that the rules give as examples: whoever
// doubts that a definition says what the rules do finds here what it comes to. Nothing else stands on this crate.
// It stands on the definitions of shapes (crate `shapes`) and of frozen columns (`directories`).

#![tactic(auto)]

ghost use Rattle.std.specs.Prelude.{◌≡◌};
ghost use Rattle.worked.specs.Cases.{Worked, column_a, one_to_40};

use keys::Account;
use std::array;

#[derive(Clone, Copy, PartialEq, Eq, Debug)]
pub struct Columns {
    // column A: with equal rows
    pub equal: [Account; 9],
    // the numbers from 1 to 40
    pub rising: [Account; 40],
}

// Written out key by key, so that the check computes them and a wrong one is refused here.
fn equal_rows() -> [Account; 9]
    ensures { result ≡ column_a }
{
    [
        Account { number: 10 },
        Account { number: 20 },
        Account { number: 20 },
        Account { number: 30 },
        Account { number: 40 },
        Account { number: 50 },
        Account { number: 50 },
        Account { number: 50 },
        Account { number: 60 },
    ]
}

fn rising_rows() -> [Account; 40]
    ensures { result ≡ one_to_40 }
{
    array::from_fn(|place| Account {
        number: place as u32 + 1,
    })
}

// The columns worked by hand.
pub fn worked_columns() -> Columns
    ensures { Worked result.equal result.rising }
{
    Columns {
        equal: equal_rows(),
        rising: rising_rows(),
    }
}
