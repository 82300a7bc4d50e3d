//! What is asked of a schedule and what it answers: commands, the changes among them, and refusals with the rules behind them.
pub mod acts;
pub mod answers;
mod copies;
pub mod refusals;
pub mod rules;
pub mod summaries;
