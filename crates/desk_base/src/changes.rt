//! Tables that change: a change is prepared with all memory that it wants, and then applied, or tried out and taken back.
pub mod formers;
pub mod lacking;
pub mod lookups;
pub mod open_tables;
pub mod prepared;
pub mod tried;
