// The dates of the worked cases of the handbook, with what is computed of them.
ghost use Rattle.std.specs.Prelude.{◌≡◌, [], ◌∷◌};
ghost use Rattle.calendar.specs.Worked.{october_day, march_day, december_day, WorkedCases};

use crate::Date;

pub fn worked_dates() -> [Date; 3]
    ensures dates { result ≡ october_day ∷ march_day ∷ december_day ∷ [] }
    ensures cases { WorkedCases }
{
    [
        Date {
            year: 2017,
            month: 10,
            day: 29,
        },
        Date {
            year: 2017,
            month: 3,
            day: 26,
        },
        Date {
            year: 2017,
            month: 12,
            day: 20,
        },
    ]
}
