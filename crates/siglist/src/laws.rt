//! Laws of the definitions that this crate's contracts cite.
ghost use Rattle.std.specs.Prelude.{◌≡◌, ◌≤◌, ℕ, List, length};
ghost use Rattle.std.specs.List.{AllByRecursion};
ghost use Rattle.siglist.specs.ListsFaults.{IsRefused};
ghost use Rattle.siglist.specs.Packing.{Packs};
ghost use Rattle.siglist.specs.SignatureLists.{SignatureList, Spells, spelling};
ghost use Rattle.siglist.specs.Writing.{most_digests, sha256_parts, sha256_row, x509_row, x509_sha256_parts, x509_sha256_row};
ghost use Rattle.siglist.specs.declared.fault.ListsFault.{ListsFault};

/// Bytes spell at most one row of lists.
pub fn row_is_one()
    ensures { (ls ms : List SignatureList) (bytes : List ℕ)
        → Spells ls bytes → Spells ms bytes → ls ≡ ms }
{}

/// Bytes that spell a row of lists are never refused.
pub fn row_is_not_refused()
    ensures { (bytes : List ℕ) (ls : List SignatureList) (fault : ListsFault)
        → Spells ls bytes → IsRefused bytes fault → ⊥ }
{}

/// Bytes are refused at most at one place, and for one reason.
pub fn fault_is_one()
    ensures { (bytes : List ℕ) (f g : ListsFault) → IsRefused bytes f → IsRefused bytes g → f ≡ g }
{}

/// A list of up to a million digests, and one of a certificate of up to 65,536 bytes, has a
/// spelling: the bytes that are written.
pub fn row_is_spelt()
    ensures sha256 { (owner : List ℕ) (ds : List (List ℕ)) → length owner ≡ 16
        → AllByRecursion (λ d. length d ≡ 32) ds → length ds ≤ most_digests
        → Spells (sha256_row owner ds) (spelling (sha256_row owner ds)) }
    ensures x509_sha256 { (owner : List ℕ) (ds : List (List ℕ)) → length owner ≡ 16
        → AllByRecursion (λ d. length d ≡ 32) ds → length ds ≤ most_digests
        → Spells (x509_sha256_row owner ds) (spelling (x509_sha256_row owner ds)) }
    ensures x509 { (owner certificate : List ℕ) → length owner ≡ 16
        → 1 ≤ length certificate → length certificate ≤ 65536
        → Spells (x509_row owner certificate) (spelling (x509_row owner certificate)) }
{}

/// The spelling of a list is its head and then each of its entries, in order; a list of no digests
/// has no bytes.
pub fn list_is_its_parts()
    ensures sha256 { (owner : List ℕ) (ds : List (List ℕ))
        → spelling (sha256_row owner ds) ≡ sha256_parts owner ds }
    ensures x509_sha256 { (owner : List ℕ) (ds : List (List ℕ))
        → spelling (x509_sha256_row owner ds) ≡ x509_sha256_parts owner ds }
{}

/// A text packs into only one list.
pub fn packed_list_is_one()
    ensures { (text : List ℕ) (ds es : List (List ℕ)) → Packs text ds → Packs text es → ds ≡ es }
{}
