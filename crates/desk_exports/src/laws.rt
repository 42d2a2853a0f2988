//! Laws of the exports, and worked exports: the results that the definitions give, one in each
//! clause.
ghost use Rattle.std.specs.Prelude.{◌≡◌, ◌++◌, ℕ, List, filter, length, map};
ghost use Rattle.std.specs.List.{flat_map};
ghost use Rattle.sbat.specs.Writing.{head_text, row_text};
ghost use Rattle.siglist.specs.SignatureLists.{Spells, spelling};
ghost use Rattle.siglist.specs.Writing.{sha256_parts, x509_row, x509_sha256_parts};
ghost use Rattle.desk_types.specs.declared.kind.ListedKind.{ListedKind};
ghost use Rattle.desk_types.specs.declared.kind.ListedKind.TheVariants as kinds;
ghost use Rattle.desk_history.specs.Calls.{History, distinct, is_among, is_same_kind};
ghost use Rattle.desk_history.specs.Formed.{IsHistory};
ghost use Rattle.desk_history.specs.Level.{generations, stamp};
ghost use Rattle.desk_history.specs.Listing.{listed};
ghost use Rattle.desk_history.specs.Revocations.{is_revoked, revocations};
ghost use Rattle.desk_history.specs.Tables.{level_rows};
ghost use Rattle.desk_exports.specs.Changes as change;
ghost use Rattle.desk_exports.specs.Exports.{db, db_lists, dbx, dbx_lists, entries_of, level, level_components, revoked};
ghost use Rattle.desk_exports.specs.Exports.{revoked_bodies, revoked_bodiless, shim, shim_lists};
ghost use Rattle.desk_exports.specs.Laws as law;
ghost use Rattle.desk_exports.specs.ListParts as part;
ghost use Rattle.desk_exports.specs.MinutesShown as shown;
ghost use Rattle.desk_exports.specs.Orders.{IsInOrder};
ghost use Rattle.desk_exports.specs.Worked as worked;
ghost use Rattle.desk_exports.specs.Worked.DigestSearch.{TellsFound};
ghost use Rattle.desk_exports.specs.Worked.Waiting as waiting;

/// An export is its parts, one after another: of dbx, a head and its entries for each kind that is
/// revoked; of shim's form, a head and entries for the digests, a list for each body, and a head and
/// entries for the other certificates; of db, those of the listed digests and then a list for each
/// listed certificate; of the level, its first line and a line for each component.
pub fn exports_are_their_parts()
    ensures dbx { (owner : List ℕ) (cs : History) → dbx owner cs
        ≡ sha256_parts owner (revoked kinds.Digest cs)
        ++ x509_sha256_parts owner (revoked kinds.Certificate cs) }
    ensures shim { (owner : List ℕ) (cs : History) → shim owner cs
        ≡ sha256_parts owner (revoked kinds.Digest cs)
        ++ flat_map (λ body. spelling (x509_row owner body)) (revoked_bodies cs)
        ++ x509_sha256_parts owner (revoked_bodiless cs) }
    ensures db { (owner : List ℕ) (cs : History) → db owner cs
        ≡ sha256_parts owner (map (λ e. e.digest) (entries_of kinds.Digest cs))
        ++ flat_map (λ e. spelling (x509_row owner e.body)) (entries_of kinds.Certificate cs) }
    ensures level { (cs : History) → level cs
        ≡ head_text (stamp cs)
        ++ flat_map (λ x. row_text x.name x.generation) (level_components cs) }
{}

/// For a desk's history and an owner of 16 bytes, the bytes of dbx spell the lists of dbx, those of
/// shim's form its lists, and those of db the lists of db (UEFI 2.10, section 32.4.1): each size fits
/// its field, and the bytes spell no other lists.
pub fn exports_are_spelt()
    ensures dbx { (owner : List ℕ) (cs : History) → length owner ≡ 16 → IsHistory cs
        → Spells (dbx_lists owner cs) (dbx owner cs) }
    ensures shim { (owner : List ℕ) (cs : History) → length owner ≡ 16 → IsHistory cs
        → Spells (shim_lists owner cs) (shim owner cs) }
    ensures db { (owner : List ℕ) (cs : History) → length owner ≡ 16 → IsHistory cs
        → Spells (db_lists owner cs) (db owner cs) }
{}

/// Each export has its items in the order of their keys, each key once: dbx all digests of each
/// kind that are revoked and no others; db the listed entries of each kind, by their digests; the
/// level its components, by their names.
pub fn exports_are_in_order()
    ensures dbx { (kind : ListedKind) (cs : History)
        → IsInOrder (λ digest. digest) (distinct (revocations kind cs)) (revoked kind cs) }
    ensures all { (kind : ListedKind) (cs : History) (digest : List ℕ)
        → is_among (revoked kind cs) digest ≡ is_revoked kind cs digest }
    ensures db { (kind : ListedKind) (cs : History) → IsInOrder (λ e. e.digest)
        (filter (λ e. is_same_kind kind e.kind) (listed cs)) (entries_of kind cs) }
    ensures level { (cs : History)
        → IsInOrder (λ x. x.name) (level_rows (generations cs)) (level_components cs) }
{}

/// Shim's form of dbx revokes what dbx does. It has the same SHA256 list; its X509 lists have the
/// bodies that calls gave for revoked certificates, and its X509_SHA256 list the revoked
/// certificates of which no call gave one.
pub fn shim_revokes_the_same()
    ensures bodies { law.ShimHasBodies }
    ensures others { law.ShimHasOthers }
    ensures one { law.ShimHasOne }
{}

/// In bytes, dbx has the length that the numbers of revoked digests and certificates give it; after
/// a Confirm, the one that the impact of its proposal said.
pub fn lengths_come_true()
    ensures dbx { law.DbxHasLength }
    ensures confirmed { law.LengthComesTrue }
{}

/// The minutes of a later history begin with those of an earlier one.
pub fn minutes_go_on()
    ensures { law.MinutesGoOn }
{}

/// The minutes come in parts of at most 1,000 lines. Whoever holds their first lines and adds the
/// part after them holds the first lines again; where that part is empty, all of the minutes. As the
/// history goes on, the first lines stay.
pub fn minutes_come_in_parts()
    ensures joined { shown.PartsJoin }
    ensures all { shown.PartsEnd }
    ensures later { shown.FirstLinesStay }
{}

/// The requests, and the proposals, that a caller is shown are their parts, one after another.
pub fn lists_come_in_parts()
    ensures requests { part.RequestsComeInParts }
    ensures proposals { part.ProposalsComeInParts }
{}

/// What waits for people of each role, lists in parts, and the number that tells of changes are those
/// that were written by hand.
pub fn waiting_is_written()
    ensures waits { waiting.TellsWaiting }
    ensures parts { waiting.TellsParts }
    ensures changes { waiting.TellsChanges }
{}

/// The requests that people are shown by a digest are those that were written by hand.
pub fn found_is_written()
    ensures { TellsFound }
{}

/// While the number that tells of changes stays, a later history shows a submitter the same requests,
/// and to anybody else it is the same history.
pub fn numbers_tell_of_changes()
    ensures submitters { change.SubmittersNumbersTell }
    ensures others { change.OthersNumbersTell }
{}

/// Exports of worked histories are those that were written by hand.
pub fn exports_are_written()
    ensures nothing { worked.ExportsNothing }
    ensures db { worked.ExportsDb }
    ensures import { worked.ExportsImport }
    ensures shim { worked.ExportsShim }
    ensures proposals { worked.ExportsProposals }
    ensures impact { worked.ExportsImpact }
    ensures order { worked.ExportsInOrder }
    ensures levels { worked.ExportsLevels }
    ensures minutes { worked.ExportsMinutes }
    ensures reports { worked.ExportsReports }
{}
