// The answers that C is handed and no crate below has: a point by its coordinates, and a number alone.
ghost use Rattle.std.specs.Prelude.{◌≡◌};
ghost use Rattle.refusals.specs.Refusal.{as_number};
ghost use Rattle.line.specs.Answer.{as_step};
ghost use Rattle.beamacorn.specs.Plain.{plain_step};

use crate::Step;
use geometry::Point;
use refusals::Refusal;

impl From<Result<Point, Refusal>> for Step {
    ghost from_gives = { λ answer s. s ≡ plain_step (as_step answer) };

    fn from(answer: Result<Point, Refusal>) -> Self {
        match answer {
            Ok(point) => Step {
                number: 0,
                x: point.0,
                y: point.1,
            },
            Err(refusal) => Step {
                number: refusal.number(),
                x: 0,
                y: 0,
            },
        }
    }
}

// The number of an answer that has no value beside it.
pub(crate) fn number(answer: Result<(), Refusal>) -> u32
    ensures { result ≡ as_number answer }
{
    match answer {
        Ok(()) => 0,
        Err(refusal) => refusal.number(),
    }
}
