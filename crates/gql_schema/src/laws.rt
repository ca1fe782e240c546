//! Laws of the definitions, each the contract of a function that does nothing.

ghost use Rattle.std.specs.Prelude.{◌≡◌, ◌≢◌, ℕ, List};
ghost use Rattle.token_read.specs.Exact.{IsExact};
ghost use Rattle.gql_types.specs.declared.definition.TypeDef.{TypeDef};
ghost use Rattle.gql_schema.specs.declared.fault.SdlFault.{SdlFault as SdlFault_};
ghost use Rattle.gql_schema.specs.declared.fault.SdlFault.TheVariants.{Memory};
ghost use Rattle.gql_schema.specs.Words.{IsMarked};
ghost use Rattle.gql_schema.specs.Grammar.{IsSchema, any};
ghost use Rattle.gql_schema.specs.Reading.{all};
ghost use Rattle.gql_schema.specs.Schemas.{IsSchemaText, Explains};

/// `all` reads exactly the schemas, and refuses the first token that no schema continues.
pub fn reads_exactly()
    ensures { IsExact IsMarked any all IsSchema }
{}

/// A text is one schema at most.
pub fn schema_is_one()
    ensures { (text : List ℕ) (s : List TypeDef) (t : List TypeDef) → IsSchemaText s text
        → IsSchemaText t text → s ≡ t }
{}

/// A text has one fault at most, want of memory apart: its first.
pub fn fault_is_one()
    ensures { (text : List ℕ) (f : SdlFault_) (g : SdlFault_) → f ≢ Memory → g ≢ Memory
        → Explains text f → Explains text g → f ≡ g }
{}

/// A text that is a schema has no fault, want of memory apart.
pub fn schema_has_no_fault()
    ensures { (text : List ℕ) (s : List TypeDef) (f : SdlFault_) → f ≢ Memory → IsSchemaText s text
        → Explains text f → ⊥ }
{}
