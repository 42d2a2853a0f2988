//! The sizes of the counted tables, if they are known.
ghost use Rattle.std.specs.Prelude.{◌≡◌, ℕ, List, [], Some};
ghost use Rattle.desk_history.specs.Tables.{Tables, tables};
ghost use Rattle.store_decision_rows.specs.sizes.Sizes as spec;
ghost use Rattle.store_decision_rows.specs.sizes.Steps as steps;

use desk_history::Write;
use desk_rules::{LimitedTable, Sizes, count};
use desk_types::Command;

/// The number of rows of each table that a limit of the desk counts, or `None` if it isn't known.
#[derive(Clone, Copy, Debug, PartialEq, Eq)]
pub struct KnownSizes {
    people: Option<u64>,
    calls: Option<u64>,
    requests: Option<u64>,
    listed: Option<u64>,
    revoked_digests: Option<u64>,
    revoked_certificates: Option<u64>,
    components: Option<u64>,
    proposals: Option<u64>,
}

/// A size plus `count` rows; `None` if the size isn't known, or the sum isn't a u64.
fn more(size: Option<u64>, count: usize) -> Option<u64>
    ensures { result ≡ steps.more size count }
{
    size?.checked_add(count as u64)
}

/// A size less one row; `None` if the size isn't known, or is 0.
fn one_less(size: Option<u64>) -> Option<u64>
    ensures { result ≡ steps.one_less size }
{
    size?.checked_sub(1)
}

/// The number of listed entries after an accepted command.
fn listed_after(size: Option<u64>, command: &Command) -> Option<u64>
    ensures { result ≡ steps.listed_after size command.now }
{
    match command {
        Command::ListCertificate(_) | Command::ListDigest(_) => more(size, 1),
        Command::Unlist(_) => one_less(size),
        Command::AddPerson(_)
        | Command::Submit(_)
        | Command::Review(_)
        | Command::Withdraw(_)
        | Command::Return(_)
        | Command::RevokeDigest(_)
        | Command::RevokeCertificate(_)
        | Command::RaiseLevel(_)
        | Command::ImportRevocations(_)
        | Command::Confirm(_)
        | Command::Drop(_)
        | Command::Explain(_) => size,
    }
}

impl KnownSizes {
    /// No size is known.
    pub fn unknown() -> KnownSizes
        ensures { spec.IsUnknown result }
    {
        KnownSizes {
            people: None,
            calls: None,
            requests: None,
            listed: None,
            revoked_digests: None,
            revoked_certificates: None,
            components: None,
            proposals: None,
        }
    }

    /// Each size is known: those of a desk without calls.
    pub fn of_no_calls() -> KnownSizes
        ensures known { spec.AreAllKnown result }
        ensures right { (owner : List ℕ) → spec.AreRight result (tables owner []) }
    {
        let none = Some(0);
        KnownSizes {
            people: none,
            calls: none,
            requests: none,
            listed: none,
            revoked_digests: none,
            revoked_certificates: none,
            components: none,
            proposals: none,
        }
    }

    /// Each size is known: these.
    pub fn all(sizes: &Sizes) -> KnownSizes
        ensures known { spec.AreAllKnown result }
        ensures right { (t : Tables) → spec.AreSizesOf sizes.now t → spec.AreRight result t }
    {
        KnownSizes {
            people: Some(sizes.people),
            calls: Some(sizes.calls),
            requests: Some(sizes.requests),
            listed: Some(sizes.listed),
            revoked_digests: Some(sizes.revoked_digests),
            revoked_certificates: Some(sizes.revoked_certificates),
            components: Some(sizes.components),
            proposals: Some(sizes.proposals),
        }
    }

    /// The number of calls, if it is known.
    pub fn calls(&self) -> Option<u64>
        ensures { result ≡ self.now.calls }
    {
        self.calls
    }

    /// The number of rows of the table, if it is known.
    pub fn size(&self, table: LimitedTable) -> Option<u64>
        ensures { result ≡ spec.known self.now table }
    {
        match table {
            LimitedTable::People => self.people,
            LimitedTable::Requests => self.requests,
            LimitedTable::Listed => self.listed,
            LimitedTable::RevokedDigests => self.revoked_digests,
            LimitedTable::RevokedCertificates => self.revoked_certificates,
            LimitedTable::Components => self.components,
            LimitedTable::Proposals => self.proposals,
        }
    }

    /// These sizes, with `size` calls.
    pub fn with_calls(self, size: u64) -> KnownSizes
        ensures told { result.calls ≡ Some size }
        ensures others { spec.HaveSameRows self result }
    {
        KnownSizes {
            calls: Some(size),
            ..self
        }
    }

    /// These sizes, with `size` rows in the table.
    pub fn with_size(self, table: LimitedTable, size: u64) -> KnownSizes
        ensures told { spec.known result table ≡ Some size }
        ensures others { spec.HaveSameOthers table self result }
    {
        let size = Some(size);
        match table {
            LimitedTable::People => KnownSizes {
                people: size,
                ..self
            },
            LimitedTable::Requests => KnownSizes {
                requests: size,
                ..self
            },
            LimitedTable::Listed => KnownSizes {
                listed: size,
                ..self
            },
            LimitedTable::RevokedDigests => KnownSizes {
                revoked_digests: size,
                ..self
            },
            LimitedTable::RevokedCertificates => KnownSizes {
                revoked_certificates: size,
                ..self
            },
            LimitedTable::Components => KnownSizes {
                components: size,
                ..self
            },
            LimitedTable::Proposals => KnownSizes {
                proposals: size,
                ..self
            },
        }
    }

    /// The known sizes, and 0 for each of the others.
    pub fn sizes(&self) -> Sizes
        ensures { spec.TellWhatIsKnown self.now result }
    {
        Sizes {
            people: self.people.unwrap_or(0),
            calls: self.calls.unwrap_or(0),
            requests: self.requests.unwrap_or(0),
            listed: self.listed.unwrap_or(0),
            revoked_digests: self.revoked_digests.unwrap_or(0),
            revoked_certificates: self.revoked_certificates.unwrap_or(0),
            components: self.components.unwrap_or(0),
            proposals: self.proposals.unwrap_or(0),
        }
    }

    /// The sizes after an accepted command, from those before it and the command's writes.
    fn next(&self, command: &Command, writes: &[Write]) -> KnownSizes
        ensures { result ≡ steps.sizes_after self.now command.now writes.now }
    {
        KnownSizes {
            people: more(self.people, count(LimitedTable::People, writes)),
            calls: more(self.calls, 1),
            requests: more(self.requests, count(LimitedTable::Requests, writes)),
            listed: listed_after(self.listed, command),
            revoked_digests: more(
                self.revoked_digests,
                count(LimitedTable::RevokedDigests, writes),
            ),
            revoked_certificates: more(
                self.revoked_certificates,
                count(LimitedTable::RevokedCertificates, writes),
            ),
            components: more(self.components, count(LimitedTable::Components, writes)),
            proposals: more(self.proposals, count(LimitedTable::Proposals, writes)),
        }
    }

    /// The sizes after a command that either rules accept, from those before it and the command's
    /// writes: right if those were, and none is lost. It counts writes, never rows.
    pub fn after(&self, command: &Command, writes: &[Write]) -> KnownSizes
        ensures { spec.Follows self.now command.now writes.now result }
    {
        self.next(command, writes)
    }
}
