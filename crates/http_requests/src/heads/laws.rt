//! Laws of the definitions that this crate's contracts cite.
ghost use Rattle.std.specs.Prelude.{◌≡◌, ◌≤◌, ◌++◌, ℕ, List, length, take};
ghost use Rattle.httparse.specs.Grammar.{RequestHead};
ghost use Rattle.http_requests.specs.heads.Heads.{HasHead};

/// No input begins with two heads.
pub fn head_is_one()
    ensures { (b : List ℕ) (h k : RequestHead) (rest others : List ℕ)
        → HasHead b h rest → HasHead b k others → (h ≡ k) × (rest ≡ others) }
{}

/// What follows a whole request changes neither its head nor its body.
pub fn what_follows_changes_nothing()
    ensures head { (b : List ℕ) (h : RequestHead) (rest more : List ℕ)
        → HasHead b h rest → HasHead (b ++ more) h (rest ++ more) }
    ensures body { (size : ℕ) (rest more : List ℕ)
        → size ≤ length rest → take size (rest ++ more) ≡ take size rest }
{}
