//! Laws of the definitions that this crate's contracts cite.
ghost use Rattle.std.specs.Prelude.{◌≡◌, ◌++◌, ℕ, List, Some, length};
ghost use Rattle.hex.specs.Hex.{IsBytes, encode_lower};
ghost use Rattle.base.specs.Digests.{digest_of, IsArranged};
ghost use Rattle.base.specs.Elements.{IsCertificate, IsElement};
ghost use Rattle.base.specs.Guids.{IsGuid, IsGuidText, text_of};
ghost use Rattle.base.specs.Parts.{element_of, Part};
ghost use Rattle.base.specs.Refusals.{number_of};
ghost use Rattle.base.specs.declared.refusal.Refusal.{Refusal};

/// No two refusals share a number.
pub fn refusal_numbers_differ()
    ensures { (r s : Refusal) → number_of r ≡ number_of s → r ≡ s }
{}

/// A text spells at most one GUID.
pub fn guid_text_is_one()
    ensures { (text g h : List ℕ) → IsGuidText text g → IsGuidText text h → g ≡ h }
{}

/// A GUID's text spells it, so no two GUIDs have one text.
pub fn guid_texts_differ()
    ensures spells { (g : List ℕ) → IsGuid g → IsGuidText (text_of g) g }
    ensures differ { (g h : List ℕ) → IsGuid g → IsGuid h → text_of g ≡ text_of h → g ≡ h }
{}

/// A digest's text reads back as that digest.
pub fn digest_text_reads_back()
    ensures { (d : List ℕ) → length d ≡ 32 → IsBytes d → digest_of (encode_lower d) ≡ Some d }
{}

/// Named digests have only one arrangement.
pub fn arranged_is_one()
    ensures { (named ds es : List (List ℕ)) → IsArranged named ds → IsArranged named es → ds ≡ es }
{}

/// `element_of` returns only elements, and returns each element that is at the front of the bytes.
pub fn element_is_read()
    ensures found { (b : List ℕ) (p : Part) → element_of b ≡ Some p
        → IsElement p.tag p.content p.whole × (b ≡ p.whole ++ p.rest) }
    ensures each { (b : List ℕ) (p : Part) → IsElement p.tag p.content p.whole
        → b ≡ p.whole ++ p.rest → element_of b ≡ Some p }
{}

/// At most one element begins a list of bytes.
pub fn element_is_one()
    ensures { (s t : ℕ) (c d v w x y : List ℕ) → IsElement s c v → IsElement t d w
        → v ++ x ≡ w ++ y → (s ≡ t) × (c ≡ d) × (v ≡ w) × (x ≡ y) }
{}

/// A certificate has one TBSCertificate.
pub fn tbs_is_one()
    ensures { (whole s t : List ℕ) → IsCertificate whole s → IsCertificate whole t → s ≡ t }
{}
