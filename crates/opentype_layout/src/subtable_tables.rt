//! Tables of a lookup's subtables.
ghost use Rattle.std.specs.Prelude.{◌≡◌};
ghost use Rattle.opentype_layout.specs.PairTables.{ArePairTables};
ghost use Rattle.opentype_layout.specs.PositionTables.{ArePositions};
ghost use Rattle.opentype_layout.specs.SubstitutionTables.{AreSubtables};

use crate::pair_tables::{PairTable, tables_of_pairs};
use crate::position_tables::{PositionTable, tables_of_positions};
use crate::substitution_tables::{SubstitutionTable, tables_of_sets};
use std::alloc::Global;
use std::marker::Model;

/// Tables of a lookup's subtables; of GPOS those of pairs have their own.
#[derive(Debug, Drop)]
pub struct SubtableTables<'a> {
    lookup: &'a [u8],
    pairs: Vec<PairTable<'a>>,
    positions: Vec<PositionTable<'a>>,
    substitutions: Vec<SubstitutionTable<'a>>,
}

impl<'a> Model for SubtableTables<'a> {
    ghost use Rattle.std.specs.Prelude.{List, ℕ};
    ghost use Rattle.opentype_layout.specs.PairTables.{ArePairTables};
    ghost use Rattle.opentype_layout.specs.PositionTables.{ArePositions};
    ghost use Rattle.opentype_layout.specs.SubstitutionTables.{AreSubtables};

    ghost Value = { List ℕ };

    ghost view = { λ it. it.lookup.now };

    ghost invariant = { λ it. ArePairTables it.lookup.now it.pairs.items ×
        (ArePositions it.lookup.now it.positions.items ×
        AreSubtables it.lookup.now it.substitutions.items) };
}

impl<'a> SubtableTables<'a> {
    /// Makes the tables of a lookup of GSUB, or of GPOS. Where a budget in bytes or memory doesn't
    /// suffice, there are fewer.
    pub fn new(alloc: Global, of_gpos: bool, lookup: &'a [u8], budget: &mut usize) -> Self
        ensures { result ≡ lookup.now }
    {
        if of_gpos {
            let pairs = tables_of_pairs(alloc, lookup, budget);
            // (a lookup's subtables are of one type)
            let positions = if pairs.is_empty() {
                tables_of_positions(alloc, lookup, budget)
            } else {
                Vec::new(alloc)
            };
            return SubtableTables {
                lookup,
                pairs,
                positions,
                substitutions: Vec::new(alloc),
            };
        }
        SubtableTables {
            lookup,
            pairs: Vec::new(alloc),
            positions: Vec::new(alloc),
            substitutions: tables_of_sets(alloc, lookup, budget),
        }
    }

    /// The tables of the first subtables of pairs.
    #[inline]
    pub fn pairs(&self) -> &[PairTable<'a>]
        ensures { ArePairTables self.now result.now }
    {
        self.pairs.as_slice()
    }

    /// The tables of the first subtables of a lookup of GPOS whose first isn't of pairs.
    #[inline]
    pub fn positions(&self) -> &[PositionTable<'a>]
        ensures { ArePositions self.now result.now }
    {
        self.positions.as_slice()
    }

    /// The tables of the first subtables of a lookup of GSUB.
    #[inline]
    pub fn substitutions(&self) -> &[SubstitutionTable<'a>]
        ensures { AreSubtables self.now result.now }
    {
        self.substitutions.as_slice()
    }
}
