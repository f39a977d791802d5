//! What the texts of certificates are.

ghost use Rattle.std.specs.Prelude.{ℕ, ◌<◌, ◌^◌};
ghost use Rattle.schedule_model.specs.declared.schedule.Series.{Series};
ghost use Rattle.dual_checker.specs.Reading.{AreTexts};

/// The texts of certificates are read as what they print, and no other text is read.
pub fn texts_are_certificates()
    ensures { (series : Series) (rows : ℕ) → rows < 2 ^ 32 → AreTexts series rows }
{}
