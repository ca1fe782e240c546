//! Laws of the definitions, each the contract of a function that does nothing.

ghost use Rattle.std.specs.Prelude.{◌≡◌, ℕ, List, Result};
ghost use Rattle.case_file.specs.declared.fault.CaseFault.{CaseFault as Fault};
ghost use Rattle.case_file.specs.Cases.{Content, IsCase};

/// Bytes are one case at most, or have one fault: their first.
pub fn case_is_one()
    ensures { (bytes : List ℕ) (a : Result Content Fault) (b : Result Content Fault)
        → IsCase bytes a → IsCase bytes b → a ≡ b }
{}
