//! Audits of collections of Sokoban levels, certificates made for them, and maps of their dead squares.
//!
//! Contracts see a text as the list of its bytes. The report is a relation between the levels text, the answers text and
//! the text of the report. Each of its lines depends on the rows of one level and on the answer to it, and on nothing
//! else. Made answers and maps are relations between a levels text and the text that is written.
//!
//! Read `specs/Means.antt` for what a line of a report means; then `specs/Report.antt`, `specs/Status.antt` and
//! `specs/Words.antt` for the report, its cases and their words; and `specs/Audit.antt` for the errors.
//! `specs/MadeAnswers.antt` has made answers, and `specs/DeadMap.antt` the map.
#![tactic(auto)]

mod fault;
mod input;
mod jobs;
mod judging;
mod laws;
mod line;
mod making;
mod map;
mod report;
mod status;
mod summary;
mod texts;

pub use answers::Why;
pub use devices::{Device, DeviceFault, Sink, Source};
pub use fault::{AuditError, DeadError, Which};
pub use jobs::audit;
pub use judging::{Scratch, judge};
pub use laws::{
    collections_have_one_made_text, good_answers_are_never_refused, levels_are_made_or_not,
    levels_have_one_map, levels_have_one_status, lines_mean_what_they_say,
    made_answers_are_accepted, reports_can_be_read_back, reports_refuse_no_good_answer,
    texts_have_one_report,
};
pub use making::make_answers;
pub use map::dead_map;
pub use status::{Refusal, Status};
pub use summary::Summary;
pub use texts::{audit_texts, judge_texts};
