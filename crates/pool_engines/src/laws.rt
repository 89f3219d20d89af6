//! Lemmas about the engines, without effect at run time.

ghost use Rattle.std.specs.Prelude.{ℕ, List};
ghost use Rattle.pool_settings.specs.declared.settings.Settings.{Settings};
ghost use Rattle.pool_engines.specs.Run.{HasOneRun};

/// Proves that the journal and the end of a run that isn't stopped from outside depend on the settings and the bytes
/// alone. A lemma without effect at run time.
pub fn runs_are_determined()
    ensures { (settings : Settings) (bytes : List ℕ) → HasOneRun settings bytes }
{}
