//! The works, and their words.

/// What is done again and again.
#[derive(Clone, Copy, Debug, PartialEq, Eq)]
pub enum Work {
    /// Nothing: the schedule alone is made and judged, as it is for every work.
    Idle,
    /// The index is built.
    Index,
    /// A booking is prepared and given back.
    Book,
    /// A view is built, without the bookings of group 1.
    View,
    /// An hour is asked for, in turn one that is free and one that is not.
    Probe,
    /// A free hour is looked for, which comes after two full days.
    Fit,
    /// The case of group 1 is built.
    Case,
    /// The case of group 2 is built.
    Case12,
    /// Part-of-same is judged of twenty-four picks that are in one crew.
    Same,
    /// A booking is judged that has no room.
    Refusal,
    /// The first page of group 1.
    Page,
    /// Its second page.
    Resumed,
    /// The first row of group 2.
    Twelve,
    /// All pages of group 1.
    All,
}

const WORDS: [(&str, Work); 14] = [
    ("idle", Work::Idle),
    ("index", Work::Index),
    ("book", Work::Book),
    ("view", Work::View),
    ("probe", Work::Probe),
    ("fit", Work::Fit),
    ("case", Work::Case),
    ("case12", Work::Case12),
    ("same", Work::Same),
    ("refusal", Work::Refusal),
    ("page", Work::Page),
    ("resumed", Work::Resumed),
    ("twelve", Work::Twelve),
    ("all", Work::All),
];

/// The work of a word.
pub fn work_of(text: &str) -> Option<Work> {
    for (word, work) in WORDS.iter() {
        if *word == text {
            return Some(*work);
        }
    }
    None
}
