//! What is shown of a script beside what it prints. Watchers of its run show it.
#![tactic(auto)]

mod copiers;
mod differences;
mod effect_objects;
mod follows;
mod page_text;
mod picture_sinks;
mod ran_lines;
mod row_counts;
mod timelines;

pub use acc_explain::warnings_of;
pub use acc_log::{LogForm, RowCounts};
pub use acc_read::Page;
pub use copiers::{Copier, RunSink};
pub use differences::{Difference, first_difference};
pub use follows::{Beside, Follower, Setting, Views, follow};
pub use picture_sinks::{Frame, PictureSink, Stop, Unkept};
pub use ran_lines::RanLine;
pub use row_counts::count_rows;
