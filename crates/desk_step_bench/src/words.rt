//! The works, and their words.

/// What is done again and again.
#[derive(Clone, Copy, Debug, PartialEq, Eq)]
pub enum Work {
    /// Nothing: the schedule alone is made.
    Idle,
    /// A group of one leaf is moved from one free hour to another.
    Moved,
    /// A group of one leaf is refused at an hour that is taken.
    Conflict,
    /// A group of twelve leaves is moved from one free hour to another.
    Twelve,
    /// A unit is put.
    Unit,
    /// A time off is put over a free hour.
    Free,
    /// A time off is put over a booking, and refused.
    Off,
    /// The work of a calendar of fifty resources is taken out, and refused.
    Work,
    /// A role is given, and taken again.
    Role,
    /// A group is put, and dropped.
    Group,
    /// The first page of a group of one leaf.
    Page,
}

const WORDS: [(&str, Work); 11] = [
    ("idle", Work::Idle),
    ("moved", Work::Moved),
    ("conflict", Work::Conflict),
    ("twelve", Work::Twelve),
    ("unit", Work::Unit),
    ("free", Work::Free),
    ("off", Work::Off),
    ("work", Work::Work),
    ("role", Work::Role),
    ("group", Work::Group),
    ("page", Work::Page),
];

/// The work of a word.
pub fn work_of(text: &str) -> Option<Work> {
    for (word, work) in WORDS.iter() {
        if *word == text {
            return Some(*work);
        }
    }
    None
}
