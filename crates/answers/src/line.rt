// What a line tells behind its letter.
ghost use Rattle.std.specs.Prelude.{Some};
ghost use Rattle.answers.specs.Text.{told, spaced};

use indexes::Decline;
use layers::Answer;
use std::fmt;

// What stands in place of a decline's number where there is none.
const ACCEPTED: u8 = 0;

// The number of a call's decline, or 0 and the answer's values: each in decimal, behind a space.
#[derive(Clone, Copy)]
pub(crate) struct Told<'a, K>(pub(crate) &'a Result<Answer<K>, Decline>);

impl<K> fmt::Display for Told<'_, K> {
    ghost output = { λ t. Some (spaced (told t.0.now)) };

    #[tactic(auto, using(crate::proofs::Lines::spaced_last))]
    fn fmt<W: fmt::Write>(&self, f: &mut fmt::Formatter<W>) -> fmt::Result {
        match self.0 {
            Err(why) => write!(f, " {}", why.number()),
            Ok(Answer::Done) | Ok(Answer::Key(_)) => write!(f, " {ACCEPTED}"),
            Ok(Answer::Rows(count)) => write!(f, " {ACCEPTED} {count}"),
            Ok(Answer::Place(found)) => write!(
                f,
                " {ACCEPTED} {} {}",
                found.answer, found.comparisons
            ),
        }
    }
}
