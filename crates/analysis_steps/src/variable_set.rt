// A set of variables.
ghost use Rattle.std.specs.Prelude.{◌≡◌, List, ℕ, ◌+◌, ◌*◌, ◌<◌, length};
ghost use Rattle.rules.specs.Bounds.{Fine};
ghost use Rattle.table.specs.Code.{kind_at, rows_of};
ghost use Rattle.table.specs.Shapes.{plain_of};
ghost use Rattle.analysis_steps.specs.Sets.{set_of, none, with_one, with_row, both_of};

use table::{assigns, variable_at};

// Which of the 16 variables are in the set.
#[derive(Clone, Copy, Debug, PartialEq, Eq)]
pub struct VariableSet {
    pub has: [bool; 16],
}

impl VariableSet {
    // No variable.
    #[tactic(auto, using(crate::proofs::Sets::no_set), unfolding(crate::proofs::Sets::clear))]
    pub fn new() -> VariableSet
        ensures { set_of result ≡ none }
    {
        VariableSet { has: [false; 16] }
    }

    // Is v in the set?
    #[tactic(auto, unfolding(crate::specs::Sets::set_of))]
    pub fn contains(&self, v: u8) -> bool
        requires { v < 16 }
        ensures { result ≡ set_of self.now v }
    {
        self.has[v as usize]
    }

    // Adds v.
    #[tactic(auto, using(crate::proofs::Sets::set_one))]
    fn insert(&mut self, v: u8)
        requires { v < 16 }
        ensures { set_of self.new ≡ with_one (set_of self.old) v }
    {
        self.has[v as usize] = true;
    }

    // Adds the variable that a plain row assigns, or a for's step row.
    pub fn insert_assigned(&mut self, rows: &[u32], i: usize)
        requires { (4 * i + 3 < length rows.now) × Fine (kind_at (rows_of rows.now) i) }
        ensures { (text : List ℕ) → set_of self.new ≡ with_row (set_of self.old) (plain_of text (kind_at (rows_of rows.now) i)) }
    {
        if assigns(rows, i) {
            self.insert(variable_at(rows, i));
        }
    }

    // Adds the variables of another set.
    pub fn extend(&mut self, more: VariableSet)
        ensures { set_of self.new ≡ both_of (set_of self.old) (set_of more) }
    {
        for i in 0..16 {
            self.has[i] |= more.has[i];
        }
    }
}
