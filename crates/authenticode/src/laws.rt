//! Laws of the definitions that this crate's contracts cite.
ghost use Rattle.std.specs.Prelude.{◌≡◌, ◌≢◌, ◌+◌, ◌%◌, ◌≤◌, ℕ, List, Some};
ghost use Rattle.authenticode.specs.Carried.{IsCarried, IsFirstFault};
ghost use Rattle.authenticode.specs.Bodies.{HoldsCertificates};
ghost use Rattle.authenticode.specs.Hashing.{padding_of};
ghost use Rattle.authenticode.specs.SignedData.{certificates_of};
ghost use Rattle.authenticode.specs.declared.fault.CarriedFault.{CarriedFault};

/// A table carries at most one list of digests.
pub fn carried_is_one()
    ensures { (table : List ℕ) (ds es : List (List ℕ))
        → IsCarried table ds → IsCarried table es → ds ≡ es }
{}

/// A table is refused for at most one fault besides NoMemory.
pub fn fault_is_one()
    ensures { (table : List ℕ) (f g : CarriedFault) → f ≢ CarriedFault.NoMemory
        → g ≢ CarriedFault.NoMemory → IsFirstFault table f → IsFirstFault table g → f ≡ g }
{}

/// A table that carries a list of digests is refused only for NoMemory.
pub fn carried_is_not_refused()
    ensures { (table : List ℕ) (ds : List (List ℕ)) (fault : CarriedFault)
        → IsCarried table ds → IsFirstFault table fault → fault ≡ CarriedFault.NoMemory }
{}

/// The padding is the fewest bytes that bring a length to a multiple of 8.
pub fn padding_is_fewest()
    ensures enough { (n : ℕ) → (n + padding_of n) % 8 ≡ 0 }
    ensures fewest { (n more : ℕ) → (n + more) % 8 ≡ 0 → padding_of n ≤ more }
{}

/// Reading finds exactly the certificates that a body's nested elements hold.
pub fn certificates_are_nested()
    ensures found { (body row : List ℕ) → certificates_of body ≡ Some row
        → HoldsCertificates body row }
    ensures each { (body row : List ℕ) → HoldsCertificates body row
        → certificates_of body ≡ Some row }
{}
