// The table of notices, with room for as many as a day may keep.
ghost use Rattle.std.specs.Prelude.{◌≡◌, true};
ghost use Rattle.ordered.specs.Listed.{items, space_of};
ghost use Rattle.ordered.specs.Order.{rises};
ghost use Rattle.market.specs.Figures.{most_notices};
ghost use Rattle.notices.specs.Order.{notice_before};

use crate::notice::Notice;
use ordered::OrderedList;

#[derive(Drop)]
pub struct NoticeTable {
    pub(crate) notices: OrderedList<Notice>,
    ghost rising: { rises notice_before (items notices) ≡ true },
    ghost room: { space_of notices ≡ most_notices },
}
