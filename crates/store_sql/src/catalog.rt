//! The law of the catalogue.
ghost use Rattle.std.specs.Prelude.{◌≡◌, List, []};
ghost use Rattle.sqlite_catalog.specs.Listing.{AreListed};
ghost use Rattle.sqlite_schema.specs.declared.schema.Schema.{Schema};
ghost use Rattle.sqlite_value.specs.Order.{Row};

/// The rows of `sqlite_schema` that list a schema without views list no other.
pub fn catalog_lists_one_schema()
    ensures { (objects : List Row) (one other : Schema) → one.views ≡ [] → AreListed objects one
        → AreListed objects other → one ≡ other }
{}
