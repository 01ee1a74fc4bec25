// The twelve rows of a year, one a month, each of the same numbers as an account's sums.
#![tactic(auto)]

ghost use Rattle.std.specs.Prelude.{◌≡◌, ◌≤◌, length};
ghost use Rattle.sums.specs.Sums.{◌⊞◌};
ghost use Rattle.sums.specs.scaffold.Fits.{Fits};
ghost use Rattle.rows.specs.Rows.{month_count, no_rows, row_of, with_in};

use sums::Sums;

// A row for each month.
pub const MONTHS: usize = 12;

// Rows of no minute.
pub fn none() -> [Sums; MONTHS]
    ensures { result ≡ no_rows }
{
    [Sums::none(); MONTHS]
}

// One more in the row of a month, if there is one of that number: January is month 1.
// Each row stands at a place that the compiler knows, so that a program that prints none keeps none (docs/BENCH.md).
#[tactic(auto, unfolding(crate::specs::Rows::with_in))]
pub fn add_in(rows: &mut [Sums; MONTHS], month: u8, one: Sums)
    requires rows_len { (length rows.old ≡ month_count) × (1 ≤ month) }
    requires fits { Fits (row_of rows.old month ⊞ one) }
    ensures { rows.new ≡ with_in rows.old month one }
{
    match month {
        1 => rows[0] = rows[0].plus(one),
        2 => rows[1] = rows[1].plus(one),
        3 => rows[2] = rows[2].plus(one),
        4 => rows[3] = rows[3].plus(one),
        5 => rows[4] = rows[4].plus(one),
        6 => rows[5] = rows[5].plus(one),
        7 => rows[6] = rows[6].plus(one),
        8 => rows[7] = rows[7].plus(one),
        9 => rows[8] = rows[8].plus(one),
        10 => rows[9] = rows[9].plus(one),
        11 => rows[10] = rows[10].plus(one),
        12 => rows[11] = rows[11].plus(one),
        _ => {}
    }
}
