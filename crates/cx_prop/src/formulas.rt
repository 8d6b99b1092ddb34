ghost use Rattle.std.specs.Prelude.{◌≡◌, [], Ok, IsTrue, length, IsOk, OnOk, OnErr, IfOk, IsErrOf};
ghost use Rattle.cx_base.specs.declared.stop.Stop.TheVariants.{NoMemory};

use crate::counts::Counts;
use crate::part::Part;
use crate::placing::{counted, placed, placed_map};
use crate::shape::{Noted, Shape};
use cx_base::{FormulaId, NodeId, Stop, TermId};
use indexmap::{IndexMap, IndexSet};
use std::alloc::Global;
use std::marker::Model;

/// A table of formulas: equal formulas have one number.
#[derive(Drop)]
pub struct Formulas {
    alloc: Global,
    maps: IndexSet<Vec<(u32, TermId)>>,
    shapes: IndexMap<Shape, Noted>,
    atoms: usize,
}

impl Model for Formulas {
    ghost use Rattle.std.specs.Prelude.{List};
    ghost use Rattle.std.specs.Coded.{coded_list};
    ghost use Rattle.cx_prop.specs.Formula.{Formula};
    ghost use Rattle.cx_prop.specs.Interned.{Interned, formula_code};

    ghost Value = { List (Formula Interned) };

    ghost coded = { coded_list formula_code };

    ghost use Rattle.std.specs.Map.{keys_of};
    ghost use Rattle.cx_prop.specs.Kept.{mappings, formulas_of, IsTable};

    ghost view = { λ t. formulas_of (mappings t.maps.keys) (keys_of t.shapes.entries) };

    ghost invariant = { λ t. IsTable (mappings t.maps.keys) t.shapes.entries t.atoms };
}

impl Formulas {
    ghost use Rattle.cx_numbered.specs.Numbered.{HasEachOnce, Grows, IsNumberOf, is_among, put};
    ghost use Rattle.cx_prop.specs.Formula.{Atom, And, Or};
    ghost use Rattle.cx_prop.specs.Interned.{same_interned};
    ghost use Rattle.cx_prop.specs.Truth.{truth as truth_of, assigned};
    ghost use Rattle.cx_prop.specs.Counting.{counts_of};
    ghost use Rattle.cx_prop.specs.Table.{Has, IsTop, formula_at, atoms_of, same_stored};

    /// No formulas. It takes no memory.
    pub fn new(alloc: Global) -> Result<Formulas, Stop>
        ensures { result ≡ Ok [] }
    {
        Ok(Formulas {
            alloc,
            maps: IndexSet::new(alloc),
            shapes: IndexMap::new(alloc),
            atoms: 0,
        })
    }

    /// The number of an atom: its expression's node, and the terms that the template parameters of the mapping
    /// stand for. It refuses for want of memory alone, and not where the atom is there; the table is then as before.
    pub fn atom(&mut self, node: NodeId, map: &[(u32, TermId)]) -> Result<FormulaId, Stop>
        ensures number { IfOk result (λ f. IsNumberOf self.new f.0 (Atom (record { node = node; mapping = map.now }))) }
        ensures ok { OnOk result (self.new ≡ put same_stored self.old (Atom (record { node = node; mapping = map.now }))) }
        ensures there { IsTrue (is_among same_stored self.old (Atom (record { node = node; mapping = map.now }))) → IsOk result }
        ensures grows { Grows self.old self.new }
        ensures err { OnErr result (self.new ≡ self.old) }
        ensures only_memory { OnErr result (IsErrOf result NoMemory) }
    {
        let map = placed_map(self.alloc, &mut self.maps, map)?;
        let before = self.shapes.len();
        let noted = Noted {
            counts: Counts::ATOM,
            atoms: self.atoms,
        };
        let number = placed(&mut self.shapes, Shape::Atom(node, map), noted)?;
        self.atoms = counted(self.atoms, number, before);
        Ok(number)
    }

    /// The number of a conjunction. It refuses for want of memory alone, and not where the conjunction is there; the
    /// table is then as before.
    pub fn and(&mut self, p: FormulaId, q: FormulaId) -> Result<FormulaId, Stop>
        requires left { Has self.old p }
        requires right { Has self.old q }
        ensures number { IfOk result (λ f. IsNumberOf self.new f.0 (And (formula_at self.old p) (formula_at self.old q))) }
        ensures ok { OnOk result (self.new ≡ put same_stored self.old (And (formula_at self.old p) (formula_at self.old q))) }
        ensures there { IsTrue (is_among same_stored self.old (And (formula_at self.old p) (formula_at self.old q))) → IsOk result }
        ensures grows { Grows self.old self.new }
        ensures err { OnErr result (self.new ≡ self.old) }
        ensures only_memory { OnErr result (IsErrOf result NoMemory) }
    {
        let counts = self.counts(p).and(self.counts(q));
        let atoms = self.atoms;
        placed(
            &mut self.shapes,
            Shape::And(p.0, q.0),
            Noted { counts, atoms },
        )
    }

    /// The number of a disjunction. It refuses for want of memory alone, and not where the disjunction is there; the
    /// table is then as before.
    pub fn or(&mut self, p: FormulaId, q: FormulaId) -> Result<FormulaId, Stop>
        requires left { Has self.old p }
        requires right { Has self.old q }
        ensures number { IfOk result (λ f. IsNumberOf self.new f.0 (Or (formula_at self.old p) (formula_at self.old q))) }
        ensures ok { OnOk result (self.new ≡ put same_stored self.old (Or (formula_at self.old p) (formula_at self.old q))) }
        ensures there { IsTrue (is_among same_stored self.old (Or (formula_at self.old p) (formula_at self.old q))) → IsOk result }
        ensures grows { Grows self.old self.new }
        ensures err { OnErr result (self.new ≡ self.old) }
        ensures only_memory { OnErr result (IsErrOf result NoMemory) }
    {
        let counts = self.counts(p).or(self.counts(q));
        let atoms = self.atoms;
        placed(
            &mut self.shapes,
            Shape::Or(p.0, q.0),
            Noted { counts, atoms },
        )
    }

    /// The top of a formula. Takes no memory.
    pub fn part(&self, f: FormulaId) -> Part<'_>
        requires { Has self.now f }
        ensures top { IsTop self.now result (formula_at self.now f) }
        ensures number { IsNumberOf self.now f.0 (formula_at self.now f) }
    {
        let (shape, noted) = self.shapes.get_index(f.0).unwrap();
        match *shape {
            Shape::Atom(node, map) => Part::Atom(noted.atoms, node, &self.maps.as_slice()[map]),
            Shape::And(p, q) => Part::And(FormulaId(p), FormulaId(q)),
            Shape::Or(p, q) => Part::Or(FormulaId(p), FormulaId(q)),
        }
    }

    /// No formula has two numbers. Does nothing, and takes no memory.
    pub fn numbers_are_unique(&self)
        ensures { HasEachOnce self.now }
    {
        let _ = &self.alloc;
    }

    /// How many atoms there are; they are numbered from 0 in the order in which they were first made. Takes no
    /// memory.
    pub fn atom_count(&self) -> usize
        ensures { result ≡ length (atoms_of self.now) }
    {
        self.atoms
    }

    /// How many formulas there are: each smaller number is that of a formula. Takes no memory.
    pub fn len(&self) -> usize
        ensures { result ≡ length self.now }
    {
        self.shapes.len()
    }

    /// Whether a formula is true, where `truth` has the truth value of each atom at its number. Takes no memory.
    pub fn holds(&self, f: FormulaId, truth: &[bool]) -> bool
        requires formula { Has self.now f }
        requires atoms { length truth.now ≡ length (atoms_of self.now) }
        ensures { result ≡ truth_of (assigned same_interned (atoms_of self.now) truth.now) (formula_at self.now f) }
    {
        match self.part(f) {
            Part::Atom(number, _, _) => truth[number],
            Part::And(p, q) => self.holds(p, truth) && self.holds(q, truth),
            Part::Or(p, q) => self.holds(p, truth) || self.holds(q, truth),
        }
    }

    /// How many clauses and atoms a formula has. Takes no memory.
    pub fn counts(&self, f: FormulaId) -> Counts
        requires { Has self.now f }
        ensures { result ≡ counts_of (formula_at self.now f) }
    {
        let (_, noted) = self.shapes.get_index(f.0).unwrap();
        noted.counts
    }
}
