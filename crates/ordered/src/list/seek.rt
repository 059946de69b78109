// Where a record stands, or would stand, in a list that rises.
ghost use Rattle.ordered.specs.Order.{Sought};

use crate::rank::Ranked;

pub(super) fn seek<T: Ranked>(records: &[T], like: &T) -> Result<usize, usize>
    ensures { Sought T.before T.same records.now like.now result }
{
    records.binary_search_by(|record| record.compare(like))
}
