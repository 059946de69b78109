// The notices of a day: what each sender last said of its trade with a counterparty in an hour.
#![tactic(auto)]

mod notice;
mod table;
mod table_calls;

pub use notice::Notice;
pub use table::NoticeTable;
