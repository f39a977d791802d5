//! Laws of Bland's rule.

ghost use Rattle.std.specs.Prelude.{◌≡◌, ◌≢◌, ℕ, Some, Ok};
ghost use Rattle.linear_program.specs.Tableaux.{TableauView, IsCanonical};
ghost use Rattle.linear_program.specs.Programmes.{LpView, IsLp};
ghost use Rattle.linear_program.specs.Duality.{IsBounded};
ghost use Rattle.linear_program.specs.Starts.{start_tableau};
ghost use Rattle.linear_program.specs.declared.certificate.Optimum.{Optimum};
ghost use Rattle.exact_simplex.specs.Optima.{IsOptimal};
ghost use Rattle.exact_simplex.specs.Answers.{answer_of};
ghost use Rattle.exact_simplex.specs.Bland.{entering_column, leaving_row, IsEntering, IsLeaving, Run, bland_run};

/// The first column that would gain enters, and of the rows of least ratio the one of least basic column leaves.
pub fn choices_follow_bland()
    ensures entering { (t : TableauView) (column : ℕ) → entering_column t ≡ Some column → IsEntering t column }
    ensures leaving { (t : TableauView) (column row : ℕ) → IsCanonical t → leaving_row t column ≡ Some row → IsLeaving t column row }
{}

/// In a bounded programme a column that enters always has a row that leaves.
pub fn bounded_runs_find_rows()
    ensures { (p : LpView) → IsLp p → IsBounded p → (limit : ℕ) (t : TableauView) → bland_run limit (start_tableau p) ≢ Run.unlimited t }
{}

/// Where a run has ended, its answer is optimal: its values and its prices prove each other best.
pub fn ended_runs_are_optimal()
    ensures { (p : LpView) (limit : ℕ) (optimum : Optimum) → IsLp p → IsBounded p
        → answer_of limit (bland_run limit (start_tableau p)) ≡ Some (Ok optimum) → IsOptimal p optimum }
{}
