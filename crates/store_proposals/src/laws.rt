//! Laws of the tables of a history.
ghost use Rattle.std.specs.Prelude.{ℕ, List, IsTrue, flat_map};
ghost use Rattle.std.specs.List.{All};
ghost use Rattle.desk_history.specs.Calls.{History, are_apart};
ghost use Rattle.desk_history.specs.Formed.{IsHistory};
ghost use Rattle.desk_history.specs.Items.{item_rows};
ghost use Rattle.desk_history.specs.Runs.{is_legal};
ghost use Rattle.desk_history.specs.Tables.{tables};
ghost use Rattle.store_proposals.specs.Items.{is_item_key};
ghost use Rattle.store_proposals.specs.Listing.{AreListable};
ghost use Rattle.store_proposals.specs.Reading.{IsStamped};

/// No proposal of a desk's history has the stamp 0.
pub fn stamps_are_above_none()
    ensures { (owner : List ℕ) → (cs : History) → IsHistory cs
        → All IsStamped (tables owner cs).proposals }
{}

/// The proposals of a desk's history can be listed: no stamp is 0, no two have the same number, and
/// each names what its kind says: one digest, one certificate or one component, unless it is an
/// import.
pub fn proposals_are_listable()
    ensures { (owner : List ℕ) → (cs : History) → IsHistory cs
        → AreListable (tables owner cs).proposals }
{}

/// In the tables of a legal history no two items have the same proposal and place.
pub fn items_stand_once()
    ensures { (owner : List ℕ) → (cs : History) → IsTrue (is_legal cs)
        → IsTrue (are_apart is_item_key (flat_map item_rows (tables owner cs).proposals)) }
{}
