//! What a caller asks of a schedule, and what it is answered.
use crate::asked::acts::{Act, Call};
use crate::asked::refusals::Refusal;
use crate::asked::summaries::Summaries;
use crate::rows::bookings::Receipt;
use crate::search::results::{Cursor, Options, Page};
use crate::values::ids::GroupId;

/// A question, which changes nothing.
#[derive(Debug, Drop)]
pub enum Query {
    /// A page of a group's rows: at most `limit` of them, of those whose start is within the options, and of those only the
    /// ones that come after a cursor, where one is given. A cursor of another revision is gone on from where `latest` is true.
    Rows {
        group: GroupId,
        options: Options,
        after: Option<Cursor>,
        latest: bool,
        limit: u32,
    },
    /// The first entries of the journal whose revision is above this one.
    Journal {
        from: u64,
    },
    /// The revision alone.
    Revision,
}

/// What is asked of the schedule.
#[derive(Debug, Drop)]
pub enum Command {
    /// A change, with who asks for it.
    Change(Call, Act),
    /// A question.
    Ask(Query),
}

/// What a command gave.
#[derive(Debug, Drop)]
pub enum Reply {
    /// A change was accepted.
    Change(Receipt),
    /// A page of a group's rows.
    Rows(Page),
    /// Entries of the journal.
    Journal(Summaries),
    /// The revision, which every answer carries.
    Revision,
}

/// What became of a command.
#[derive(Debug, Drop)]
pub enum Outcome {
    /// The command was carried out.
    Done(Reply),
    /// The change has the number of the caller's last one, and gave this then. Nothing changed.
    Repeated(Receipt),
    /// The command was refused, and nothing changed.
    Refused(Refusal),
    /// Memory was not found. Everything is as before.
    NoMemory,
}

/// The outcome of a command, and the revision of the schedule after it.
#[derive(Debug, Drop)]
pub struct Answer {
    pub revision: u64,
    pub outcome: Outcome,
}
