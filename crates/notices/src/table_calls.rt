// What a table of notices does.
ghost use Rattle.std.specs.Prelude.{◌≡◌, [], length, IfOk};
ghost use Rattle.refusal.specs.Outcome.{Outcome};
ghost use Rattle.notices.specs.Kept.{kept, with_notice, notice_row, place_for, energy_like, Replaces};

use crate::notice::Notice;
use crate::table::NoticeTable;
use market::figures::MOST_NOTICES;
use ordered::OrderedList;
use refusal::Refusal;
use std::alloc::{AllocError, Global};
use units::KilowattHours;

impl NoticeTable {
    // An empty table. Its memory is reserved here, so nothing later can want for it.
    pub fn new(heap: Global) -> Result<NoticeTable, AllocError>
        ensures { IfOk result (λ table. kept table ≡ []) }
    {
        let notices = OrderedList::new(heap, MOST_NOTICES)?;
        Ok(NoticeTable { notices })
    }

    // Whether there is a place for the notice: a zero needs none, and a replacement has one.
    pub fn has_place_for(&self, notice: &Notice) -> bool
        ensures { result ≡ place_for notice.now (kept self.now) }
    {
        notice.is_zero() || self.len() < MOST_NOTICES || self.notices.find(notice).is_some()
    }

    // Takes a notice: it replaces the earlier one of its sender for that counterparty and hour, and a zero removes it.
    pub fn take(&mut self, notice: Notice) -> Result<(), Refusal>
        ensures outcome { Outcome (notice_row notice (kept self.old)) result (kept self.new ≡ kept self.old) (λ _. kept self.new ≡ with_notice notice (kept self.old)) }
        ensures replaces { Replaces notice (kept self.old) }
    {
        if notice.is_zero() {
            if let Some(place) = self.notices.find(&notice) {
                let _ = self.notices.take(place);
            }
            return Ok(());
        }
        self.notices.put(notice).map_err(|_| Refusal::NoRoom)
    }

    // The energy of the kept notice of the same sender, counterparty and hour; 0 where none is kept.
    pub fn energy_like(&self, like: &Notice) -> KilowattHours
        ensures { result.0 ≡ energy_like like.now (kept self.now) }
    {
        self.notices
            .find(like)
            .and_then(|place| self.notices.get(place))
            .map(|notice| notice.energy)
            .unwrap_or_default()
    }

    // How many are kept.
    pub fn len(&self) -> usize
        ensures { result ≡ length (kept self.now) }
    {
        self.notices.len()
    }
}
