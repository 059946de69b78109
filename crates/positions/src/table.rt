// The table: for each hour, a record of each party.
ghost use Rattle.std.specs.Prelude.{◌≡◌, length, vec_len, All};
ghost use Rattle.market.specs.Figures.{most_hours, most_parties};

use crate::record::PositionRecord;
use market::figures::MOST_PARTIES;

#[derive(Drop)]
pub struct PositionTable {
    pub(crate) hours: Vec<[PositionRecord; MOST_PARTIES]>,
    ghost full: { vec_len hours ≡ most_hours },
    ghost even: { All (λ parties. length parties ≡ most_parties) hours.items },
}
