//! The bodies of revoked certificates, gathered in one pass over the calls.
ghost use Rattle.std.specs.Prelude.{◌≡◌, ◌++◌, ◌∷◌, [], ℕ, List, IfOk, None, OnOk, false, map, ⊤};
ghost use Rattle.std.specs.Cmp.Lexicographic.{slice_cmp};
ghost use Rattle.std.specs.List.Sorted.{IsStrictlySortedBy};
ghost use Rattle.std.specs.Ordering.{nat_cmp};
ghost use Rattle.desk_types.specs.Commands.{IsCommand};
ghost use Rattle.desk_types.specs.CommandTexts.{text_of};
ghost use Rattle.desk_types.specs.Formed.{IsWithin};
ghost use Rattle.desk_types.specs.declared.command.Command.{Command as Given};
ghost use Rattle.desk_types.specs.declared.kind.ListedKind.TheVariants as kinds;
ghost use Rattle.desk_types.specs.Naming.{certificate_listed};
ghost use Rattle.desk_exports.specs.Exports.{revoked};
ghost use Rattle.store_schema.specs.rows.Values.{digest_values};
ghost use Rattle.store_exports.specs.Gathering.{Gathers, TakesBody, gathered, unfound, with_certificate};

use crate::columns::text_at;
use crate::gathered::Gathered;
use base::Digest;
use desk_types::{Certificate, Command, command_texts_differ};
use sqlite::{Alter, Connection, Row};
use std::alloc::Global;
use store_reads::{FromRow, ReadFault};
use store_schema::{SELECT_CALLS, SELECT_REVOKED_CERTIFICATES};
use store_sql::{Halt, TakesRow, stream};

/// True if the text begins with the word of the command that lists a certificate.
fn lists(text: &[u8]) -> bool
    ensures { (c : Given) → text.now ≡ text_of c → result ≡ false → certificate_listed c ≡ None }
{
    text.starts_with(b"list-certificate ".as_slice())
}

/// The certificate that the command of this text lists, if it lists one. Only the text of such a
/// command is parsed, which takes memory for the body.
///
/// `Row`: the text begins like theirs and isn't a command's.
fn certificate_in(alloc: Global, text: &[u8]) -> Result<Option<Certificate>, ReadFault>
    ensures { IfOk result (λ listed. (c : Given) → IsCommand c → IsWithin c
        → text.now ≡ text_of c → listed ≡ certificate_listed c) }
{
    command_texts_differ();
    if !lists(text) {
        return Ok(None);
    }
    match Command::parse(alloc, text) {
        Ok(Some(command)) => Ok(command.into_certificate()),
        Ok(None) => Err(ReadFault::Row),
        Err(_) => Err(ReadFault::NoMemory),
    }
}

/// Adds the certificate's body to that of its digest, if it is among these, which ascend by their
/// digests.
fn add_to(gathered: &mut [Gathered], certificate: Certificate) -> Result<(), ReadFault>
    ensures { IsStrictlySortedBy (slice_cmp nat_cmp) (map (λ b. b.tbs) gathered.old)
        → OnOk result (gathered.new ≡ map (with_certificate certificate) gathered.old) }
{
    let tbs = certificate.tbs();
    match gathered.binary_search_by_key(&tbs, |one| one.tbs()) {
        Ok(place) => gathered[place].add(certificate),
        Err(_) => Ok(()),
    }
}

/// Takes the digests of revoked certificates.
#[derive(Drop)]
struct CertificateTaker {
    alloc: Global,
    gathered: Vec<Gathered>,
}

impl TakesRow for CertificateTaker {
    type Fault = ReadFault;

    ghost takes = { λ old row new. (tbs : List ℕ) → row ≡ digest_values tbs
        → new.gathered.items ≡ old.gathered.items ++ unfound tbs ∷ [] };

    ghost gives_up = { λ _ _ _. ⊤ };

    fn take(&mut self, row: &Row) -> Result<(), ReadFault> {
        let tbs = Digest::from_row(self.alloc, row)?;
        match self.gathered.push(Gathered::new(self.alloc, tbs)) {
            Ok(()) => Ok(()),
            Err(_) => Err(ReadFault::NoMemory),
        }
    }
}

/// Takes the bodies that calls give for these certificates.
#[derive(Drop)]
struct CallTaker {
    alloc: Global,
    gathered: Vec<Gathered>,
}

impl TakesRow for CallTaker {
    type Fault = ReadFault;

    ghost takes = { λ old row new.
        IsStrictlySortedBy (slice_cmp nat_cmp) (map (λ b. b.tbs) old.gathered.items)
        → TakesBody row old.gathered.items new.gathered.items };

    ghost gives_up = { λ _ _ _. ⊤ };

    fn take(&mut self, row: &Row) -> Result<(), ReadFault> {
        let text = text_at(row, 3)?;
        let Some(certificate) = certificate_in(self.alloc, text)? else {
            return Ok(());
        };
        add_to(&mut self.gathered, certificate)
    }
}

/// The revoked certificates without bodies, ascending by their digests.
fn certificates<S: Alter>(
    alloc: Global,
    conn: &mut Connection<S>,
) -> Result<Vec<Gathered>, ReadFault>
    ensures { Gathers S.Store conn.old conn.new result
        (λ found cs. found.items ≡ gathered [] (revoked kinds.Certificate cs)) }
{
    let mut taker = CertificateTaker {
        alloc,
        gathered: Vec::new(alloc),
    };
    match stream(conn, SELECT_REVOKED_CERTIFICATES, &[], &mut taker) {
        Ok(()) => Ok(taker.gathered),
        Err(Halt::Store(error)) => Err(ReadFault::from(error)),
        Err(Halt::Taker(fault)) => Err(fault),
    }
}

/// These with the bodies that the calls gave for them. Each call is read as the store gives it.
fn with_bodies<S: Alter>(
    alloc: Global,
    conn: &mut Connection<S>,
    certificates: Vec<Gathered>,
) -> Result<Vec<Gathered>, ReadFault>
    ensures { Gathers S.Store conn.old conn.new result (λ found cs. (ones : List (List ℕ))
        → IsStrictlySortedBy (slice_cmp nat_cmp) ones
        → certificates.items ≡ gathered [] ones → found.items ≡ gathered cs ones) }
{
    let mut taker = CallTaker {
        alloc,
        gathered: certificates,
    };
    match stream(conn, SELECT_CALLS, &[], &mut taker) {
        Ok(()) => Ok(taker.gathered),
        Err(Halt::Store(error)) => Err(ReadFault::from(error)),
        Err(Halt::Taker(fault)) => Err(fault),
    }
}

/// The revoked certificates, ascending by their digests, with the bodies that calls gave for them.
/// Takes memory for both.
pub(crate) fn gather<S: Alter>(
    alloc: Global,
    conn: &mut Connection<S>,
) -> Result<Vec<Gathered>, ReadFault>
    ensures { Gathers S.Store conn.old conn.new result
        (λ found cs. found.items ≡ gathered cs (revoked kinds.Certificate cs)) }
{
    let found = certificates(alloc, conn)?;
    with_bodies(alloc, conn, found)
}
