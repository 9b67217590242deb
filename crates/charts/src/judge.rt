// Whether an input is drawn: what `minutes` counts of it.
ghost use Rattle.std.specs.Prelude.{◌≡◌};
ghost use Rattle.reports.specs.Minutes.{minutes};

use crate::lines::Lines;
use reports::{Count, Tally};

// Inside the library: the count of a whole input, as `minutes` has it.
pub fn count(input: &[u8]) -> Count
    ensures { result ≡ minutes input.now }
{
    let mut tally = Tally::Fresh;
    for line in Lines(input) {
        tally = tally.take_line(line);
    }
    tally.count()
}
