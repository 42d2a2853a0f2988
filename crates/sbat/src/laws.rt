//! Laws of the definitions that this crate's contracts cite.
ghost use Rattle.std.specs.Prelude.{◌≡◌, ◌≤◌, ◌++◌, ℕ, List};
ghost use Rattle.std.specs.FinMap.{entries, get, len};
ghost use Rattle.std.specs.List.{flat_map};
ghost use Rattle.sbat.specs.Greatest.{IsGreatest};
ghost use Rattle.sbat.specs.Levels.{IsLevel, Stamped, generations_in};
ghost use Rattle.sbat.specs.Refusals.{IsLevelOf, most_names};
ghost use Rattle.sbat.specs.Rows.{Row};
ghost use Rattle.sbat.specs.Writing.{head_text, level_text, row_text};

/// The greatest of the generations that rows give a name counts.
pub fn greatest_counts()
    ensures { (rows : List Row) (name : List ℕ)
        → IsGreatest rows name (get (generations_in rows) name) }
{}

/// The text of a level is its first line and then the line of each name, in order.
pub fn level_is_its_lines()
    ensures { (l : Stamped) → level_text l ≡ head_text l.stamp
        ++ flat_map (λ e. row_text e.0 e.1) (entries l.generations) }
{}

/// The text of a level within the limit reads back as that level.
pub fn level_reads_back()
    ensures { (l : Stamped) → IsLevel l → len l.generations ≤ most_names
        → IsLevelOf (level_text l) l }
{}
