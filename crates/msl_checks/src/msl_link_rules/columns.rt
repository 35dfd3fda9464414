ghost use Rattle.std.specs.Prelude.{◌≡◌, ◌↔◌, List, ℕ, IfOk, IsTrue, OnOk};
ghost use Rattle.std.specs.Str.{bytes_eq};
ghost use Rattle.msl_rules.specs.LinkRules.{IsWrittenAtEarlierEnd};

use emc_base::{Memory, Txt};
use msl_rules::{RawEndMapping, RawPair};
use std::alloc::Global;
use std::collections::BTreeMap;

/// The columns that the ends of a mapping write, each with the place of the first end that writes it.
#[derive(Drop)]
pub struct WrittenColumns {
    by_name: BTreeMap<String, usize>,
}

impl WrittenColumns {
    ghost use Rattle.msl_checks.specs.msl_link_rules.WrittenColumns.{end_in, first_writing, noted_where, writes};

    /// Those of some ends. `Memory` comes where memory ran out.
    pub fn of(alloc: Global, ends: &[RawEndMapping]) -> Result<WrittenColumns, Memory>
        ensures { IfOk result (λ columns. end_in columns ≡ first_writing ends.now) }
    {
        let mut columns = WrittenColumns {
            by_name: BTreeMap::new(alloc),
        };
        for (place, end) in ends.iter().enumerate() {
            columns.note_pairs(alloc, end.pairs.as_slice(), place)?;
        }
        Ok(columns)
    }

    /// Whether an end before this place writes the column of a pair, among any ends whose columns these are.
    pub fn is_written_before(&self, place: usize, pair: &RawPair) -> bool
        ensures { (ends : List RawEndMapping) → end_in self.now ≡ first_writing ends → (IsTrue result ↔ IsWrittenAtEarlierEnd ends place pair.now) }
    {
        self.end_of(pair.col.as_str())
            .is_some_and(|first| first < place)
    }

    // The first end that writes a column.
    fn end_of(&self, col: &str) -> Option<usize>
        ensures { result ≡ end_in self.now col.now }
    {
        self.by_name.get(col).copied()
    }

    // Notes the columns of some pairs, which stand at this end.
    fn note_pairs(&mut self, alloc: Global, pairs: &[RawPair], end: usize) -> Result<(), Memory>
        ensures { OnOk result ((col : List ℕ) → end_in self.new col ≡ noted_where (writes col pairs.now) end (end_in self.old col)) }
    {
        for pair in pairs {
            self.note(alloc, &pair.col, end)?;
        }
        Ok(())
    }

    // Notes the end of a column, unless the column has one.
    fn note(&mut self, alloc: Global, name: &Txt, end: usize) -> Result<(), Memory>
        ensures { OnOk result ((col : List ℕ) → end_in self.new col ≡ noted_where (bytes_eq col name.now) end (end_in self.old col)) }
    {
        let key = name.copy(alloc)?.into_string();
        self.by_name.entry(key)?.or_insert(end);
        Ok(())
    }
}
