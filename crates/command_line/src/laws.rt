//! Laws of command lines, for any name of the program.
ghost use Rattle.std.specs.Prelude.{◌≡◌, ℕ, List, [], ◌∷◌, codes};
ghost use Rattle.clap.specs.declared.error.ErrorKind.TheVariants.{DisplayHelp, DisplayVersion};
ghost use Rattle.command_line.specs.Asked as spec;

/// `--help`, alone or after `format`, gives help and nothing else. `--version` alone gives the version.
pub fn flags()
    ensures help { (name : List ℕ) → spec.faults (name ∷ codes "--help" ∷ []) ≡ DisplayHelp ∷ [] }
    ensures version { (name : List ℕ) → spec.faults (name ∷ codes "--version" ∷ []) ≡ DisplayVersion ∷ [] }
    ensures format { (name : List ℕ) → spec.faults (name ∷ codes "format" ∷ codes "--help" ∷ []) ≡ DisplayHelp ∷ [] }
{}
