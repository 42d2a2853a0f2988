//! The tables whose sizes a command needs.
ghost use Rattle.std.specs.Prelude.{◌≡◌};
ghost use Rattle.desk_rules.specs.Shown as spec;

use desk_rules::LimitedTable;
use desk_types::Command;

/// Whether the command may insert rows into the table, so that its size is needed.
pub fn may_put(command: &Command, table: LimitedTable) -> bool
    ensures { result ≡ spec.may_put command.now table }
{
    match command {
        Command::AddPerson(_) => table == LimitedTable::People,
        Command::Submit(_) => table == LimitedTable::Requests,
        Command::ListCertificate(_) | Command::ListDigest(_) => table == LimitedTable::Listed,
        Command::RevokeDigest(_)
        | Command::RevokeCertificate(_)
        | Command::RaiseLevel(_)
        | Command::ImportRevocations(_) => table == LimitedTable::Proposals,
        Command::Confirm(_) => matches!(
            table,
            LimitedTable::RevokedDigests
                | LimitedTable::RevokedCertificates
                | LimitedTable::Components
        ),
        Command::Review(_)
        | Command::Withdraw(_)
        | Command::Return(_)
        | Command::Unlist(_)
        | Command::Drop(_)
        | Command::Explain(_) => false,
    }
}
