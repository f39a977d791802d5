//! Laws of programmes and tableaux.

ghost use Rattle.std.specs.Prelude.{◌≡◌, ℕ, ℤ, pos, ◌<◌, ◌≤◌, ◌<ℤ◌};
ghost use Rattle.linear_program.specs.Tableaux.{TableauView, objective_column, IsPivoted, SameSolutions, IsCanonical, IsDerived, HasLeastRatio};
ghost use Rattle.linear_program.specs.Pivots.{Pivoted, pivoted};
ghost use Rattle.linear_program.specs.Programmes.{LpView, IsLp};
ghost use Rattle.linear_program.specs.Duality.{WeakDuality};
ghost use Rattle.linear_program.specs.Starts.{start_tableau};

/// Weak duality: in every programme no feasible point gains more than dual-feasible prices say.
pub fn prices_bound_gains()
    ensures { (p : LpView) → WeakDuality p }
{}

/// A pivot keeps the solutions of the rows, both ways.
pub fn pivots_keep_solutions()
    ensures { (t u : TableauView) (row column : ℕ) → row < t.constraints → pos 0 <ℤ t.cell row column → pivoted t row column ≡ Pivoted.tableau u
        → SameSolutions t u }
{}

/// The start tableau has what every tableau of a run keeps, and a pivot in a row of least ratio keeps it.
pub fn runs_keep_tableaux()
    ensures start { (p : LpView) → IsLp p → IsCanonical (start_tableau p) × IsDerived (start_tableau p) (start_tableau p) }
    ensures canonical { (t u : TableauView) (row column : ℕ) → IsCanonical t → IsPivoted t u row column → column < objective_column t
        → HasLeastRatio t column row → IsCanonical u }
    ensures derived { (s t u : TableauView) (row column : ℕ) → IsDerived s t → IsPivoted t u row column → row ≤ t.constraints → IsDerived s u }
{}
