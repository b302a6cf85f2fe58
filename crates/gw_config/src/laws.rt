//! Laws of the definitions that the contracts cite. Each function does nothing: its contract is the law.
ghost use Rattle.std.specs.Prelude.{◌≡◌, ◌↔◌, ℕ, List, Some, None};
ghost use Rattle.toml.specs.Data.{Members};
ghost use Rattle.gw_config.specs.declared.fault.ConfigFault.{ConfigFault};
ghost use Rattle.gw_config.specs.Example.{ExampleFaults, ExampleLines, ExampleSetups, ExampleSizes, ExampleUnknownKeys};
ghost use Rattle.gw_config.specs.Faults.{fault_in, table_fault};
ghost use Rattle.gw_config.specs.FirstFault.{IsFaultlessDocument, IsFaultlessTable, IsFirstDocumentFault, IsFirstFault};

/// The fault that is reported is there, and nothing is wrong with what the format puts before it; none is reported exactly
/// where nothing is wrong.
pub fn law_first_fault()
    ensures document { (bytes : List ℕ) (fault : ConfigFault) → (fault_in bytes ≡ Some fault) ↔ IsFirstDocumentFault bytes fault }
    ensures table { (table : Members) (fault : ConfigFault) → (table_fault table ≡ Some fault) ↔ IsFirstFault table fault }
    ensures faultless { (table : Members) → (table_fault table ≡ None) ↔ IsFaultlessTable table }
    ensures faultless_document { (bytes : List ℕ) → (fault_in bytes ≡ None) ↔ IsFaultlessDocument bytes }
{}

/// Examples of the definitions, which are computed: two documents with what they give, a fault of each kind, and the lines.
pub fn law_examples()
    ensures setups { ExampleSetups }
    ensures first_faults { ExampleFaults }
    ensures unknown_keys { ExampleUnknownKeys }
    ensures sizes { ExampleSizes }
    ensures lines { ExampleLines }
{}
