//! Laws of the definitions that this crate's contracts cite.
ghost use Rattle.std.specs.Prelude.{◌≡◌, ℕ, List, Option, Some};
ghost use Rattle.base.specs.Elements.{IsCertificate};
ghost use Rattle.desk_types.specs.declared.command.Command.{Command};
ghost use Rattle.desk_inputs.specs.imports.FromCsv.{IsCsvImport};
ghost use Rattle.desk_inputs.specs.imports.FromLevel.{IsLevelImport};
ghost use Rattle.desk_inputs.specs.imports.FromLists.{IsDbxImport, tbs_of};

/// `tbs_of` returns the TBSCertificate of each certificate, and nothing for other bytes.
pub fn tbs_is_read()
    ensures found { (b t : List ℕ) → tbs_of b ≡ Some t → IsCertificate b t }
    ensures each { (b t : List ℕ) → IsCertificate b t → tbs_of b ≡ Some t }
{}

/// An input is at most one import.
pub fn import_is_one()
    ensures dbx { (bytes : List ℕ) (c d : Command)
        → IsDbxImport bytes c → IsDbxImport bytes d → c ≡ d }
    ensures csv { (text : List ℕ) (stamp : Option ℕ) (c d : Command)
        → IsCsvImport text stamp c → IsCsvImport text stamp d → c ≡ d }
    ensures level { (text : List ℕ) (c d : Command)
        → IsLevelImport text c → IsLevelImport text d → c ≡ d }
{}
