//! Laws of the definitions that this crate's contracts cite.
ghost use Rattle.std.specs.Prelude.{◌≡◌, ◌≤◌, ◌↔◌, ℕ, List, AllPairs, IsPermutation, Some, None};
ghost use Rattle.pe_image.specs.Checks.{checks, first_fault, IsLaid, IsRefused};
ghost use Rattle.pe_image.specs.Hashed.{HashesAllElse};
ghost use Rattle.pe_image.specs.Spans.{in_order};
ghost use Rattle.pe_image.specs.declared.fault.LayoutFault.{LayoutFault};
ghost use Rattle.pe_image.specs.declared.span.Span.{Span};

/// An image is accepted exactly if no check gives a fault.
pub fn none_fails_where_laid()
    ensures { (f : List ℕ) → IsLaid f ↔ (first_fault f ≡ None) }
{}

/// A source that never fails, such as a slice, is refused for its bytes and never for a read.
pub fn no_slice_fails()
    ensures first { (f : List ℕ) (fault : LayoutFault) →
        IsRefused (checks f) 0 0 fault → first_fault f ≡ Some fault }
    ensures never { (f : List ℕ) → IsRefused (checks f) 0 0 LayoutFault.Read → ⊥ }
{}

/// The sections are hashed in ascending order, each of them once.
pub fn sections_are_in_order()
    ensures ascending { (ss : List Span) → AllPairs (λ s t. s.from ≤ t.from) (in_order ss) }
    ensures each { (ss : List Span) → IsPermutation ss (in_order ss) }
{}

/// Without a gap, the hashed bytes are the file without CheckSum, the certificate table's entry and
/// the table.
pub fn hashes_all_else()
    ensures { HashesAllElse }
{}
