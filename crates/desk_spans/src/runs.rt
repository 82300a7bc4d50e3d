//! Sets of minutes, kept as the runs that they are made of.
ghost use Rattle.std.specs.Prelude.{◌≡◌, ℕ, ◌<◌, ◌≤◌, [], length, All, IfOk, OnOk, OnErr, ◌&&◌, ◌||◌};
ghost use Rattle.desk_spans.specs.Runs.{covers, has_minute, AreApart, IsAppended, without_ended};

use crate::memory::NoMemory;
use crate::run::Run;
use std::alloc::Global;
use std::marker::Model;

/// A set of minutes, as the runs that it is made of: they rise, none is empty, and no two touch.
#[derive(Debug, Drop)]
pub struct Runs {
    runs: Vec<Run>,
}

impl Model for Runs {
    ghost use Rattle.std.specs.Prelude.{List};
    ghost use Rattle.desk_spans.specs.declared.run.Run.{Run};
    ghost use Rattle.desk_spans.specs.Runs.{AreApart};

    ghost Value = { List Run };

    ghost view = { λ r. r.runs.items };

    ghost invariant = { λ r. AreApart 0 r.runs.items };
}

impl Runs {
    /// No minutes; this takes no memory.
    pub fn new(alloc: Global) -> Runs
        ensures { result ≡ [] }
    {
        Runs {
            runs: Vec::new(alloc),
        }
    }

    /// Puts a run behind those that are there. One that touches the last is joined with it, and an empty one adds
    /// nothing.
    pub fn push(&mut self, run: Run) -> Result<(), NoMemory>
        requires { All (λ r. r.to ≤ run.from) self.old }
        ensures minutes { OnOk result ((m : ℕ) → has_minute self.new m ≡ (has_minute self.old m || covers run m)) }
        ensures apart { AreApart 0 self.new }
        ensures ends { (bound : ℕ) → run.to ≤ bound → All (λ r. r.to ≤ bound) self.old → All (λ r. r.to ≤ bound) self.new }
        ensures err { OnErr result (self.new ≡ self.old) }
    {
        if run.from < run.to {
            append(&mut self.runs, run)?;
        }
        Ok(())
    }

    /// The runs, in order.
    pub fn as_slice(&self) -> &[Run]
        ensures value { result.now ≡ self.now }
        ensures apart { AreApart 0 self.now }
    {
        self.runs.as_slice()
    }
}

// Appends a run that is not empty, or joins it with the last where they touch.
fn append(runs: &mut Vec<Run>, run: Run) -> Result<(), NoMemory>
    requires not_empty { run.from < run.to }
    requires apart { AreApart 0 runs.old.items }
    requires behind { All (λ r. r.to ≤ run.from) runs.old.items }
    ensures ok { OnOk result (IsAppended runs.old.items run runs.new.items) }
    ensures err { OnErr result (runs.new.items ≡ runs.old.items) }
{
    let count = runs.len();
    if count > 0 && runs[count - 1].to == run.from {
        let from = runs[count - 1].from;
        runs[count - 1] = Run { from, to: run.to };
        return Ok(());
    }
    match runs.push(run) {
        Ok(()) => Ok(()),
        Err(_) => Err(NoMemory),
    }
}

/// The minutes that are in both.
pub fn intersect(alloc: Global, a: &Runs, b: &Runs) -> Result<Runs, NoMemory>
    ensures minutes { IfOk result (λ both. (m : ℕ) → has_minute both m ≡ (has_minute a.now m && has_minute b.now m)) }
    ensures apart { IfOk result (AreApart 0) }
{
    let mut both = Runs::new(alloc);
    let mut left = a.as_slice();
    let mut right = b.as_slice();
    while !left.is_empty() && !right.is_empty() {
        let x = left[0];
        let y = right[0];
        let from = x.from.max(y.from);
        let to = x.to.min(y.to);
        both.push(Run { from, to })?;
        left = behind(left, to);
        right = behind(right, to);
    }
    Ok(both)
}

// The runs without the first, where that ends at or before the minute.
fn behind(runs: &[Run], minute: u32) -> &[Run]
    requires { 0 < length runs.now }
    ensures { result.now ≡ without_ended runs.now minute }
{
    if runs[0].to <= minute {
        &runs[1..]
    } else {
        runs
    }
}
