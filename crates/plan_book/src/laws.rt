//! Laws of the definitions, each the contract of a function that does nothing.

ghost use Rattle.std.specs.Prelude.{◌≡◌, List, Result};
ghost use Rattle.plan_book.specs.declared.book.Entry as books;
ghost use Rattle.plan_book.specs.declared.fault.PlanFault as faults;
ghost use Rattle.plan_book.specs.PlanFile.{IsPlanFile};

use json_value::Json;

/// A value is one plan file at most, or has one fault: its first.
pub fn plan_file_is_one(value: &Json)
    ensures { (a : Result (List books.Entry) faults.PlanFault)
        → (b : Result (List books.Entry) faults.PlanFault)
        → IsPlanFile value.now a → IsPlanFile value.now b → a ≡ b }
{}
