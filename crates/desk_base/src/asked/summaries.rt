//! What the journal shows of an entry.
ghost use Rattle.std.specs.Prelude.{◌≡◌};
ghost use Rattle.desk_base.specs.asked.Summaries.{code_of, summary_of};

use crate::asked::acts::{Act, Entry};
use crate::rows::tables::Table;
use crate::values::ids::CallerId;
use crate::values::items::Items;
use crate::values::serials::CallNumber;

/// What kind of act an act is, without what it says.
#[derive(Clone, Copy, Debug, PartialEq, Eq)]
pub enum ActCode {
    /// A row of this table was put.
    Put(Table),
    /// A row of this table was taken out.
    Remove(Table),
    PutGroup,
    DropGroup,
    BookGroup,
    MoveGroup,
    CancelGroup,
}

/// An entry of the journal, without what its act said and gave.
#[derive(Clone, Copy, Debug)]
pub struct Summary {
    pub revision: u64,
    pub caller: CallerId,
    pub number: CallNumber,
    pub pass: u64,
    pub act: ActCode,
}

/// Entries of the journal, in order.
pub type Summaries = Items<Summary>;

impl Act {
    /// What kind of act it is.
    pub fn code(&self) -> ActCode
        ensures { result ≡ code_of self.now }
    {
        match self {
            Act::Put(row) => ActCode::Put(row.key().table),
            Act::Remove(key) => ActCode::Remove(key.table),
            Act::PutGroup(_) => ActCode::PutGroup,
            Act::DropGroup(_) => ActCode::DropGroup,
            Act::BookGroup { .. } => ActCode::BookGroup,
            Act::MoveGroup { .. } => ActCode::MoveGroup,
            Act::CancelGroup(_) => ActCode::CancelGroup,
        }
    }
}

impl Entry {
    /// What the journal shows of it.
    pub fn summary(&self) -> Summary
        ensures { result ≡ summary_of self.now }
    {
        Summary {
            revision: self.revision,
            caller: self.call.caller,
            number: self.call.number,
            pass: self.pass,
            act: self.act.code(),
        }
    }
}
