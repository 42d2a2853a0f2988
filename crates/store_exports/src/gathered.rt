//! A revoked certificate and its bodies, as shim's form of dbx has them.
ghost use Rattle.std.specs.Prelude.{◌≡◌, ◌++◌, ◌∷◌, [], OnErr, OnOk, bytes_eq, length, ◌==◌};
ghost use Rattle.std.specs.Io.KnownBytes.{Appends};
ghost use Rattle.std.specs.List.{flat_map, list_any};
ghost use Rattle.base.specs.Output.{AppendsBeginning};
ghost use Rattle.siglist.specs.SignatureLists.{spelling};
ghost use Rattle.siglist.specs.Writing.{x509_row};
ghost use Rattle.desk_history.specs.Calls.{is_among};
ghost use Rattle.store_exports.specs.Gathering.{bodies_text, bodiless, unfound, with_body};

use base::{Digest, Guid, WriteFailed};
use desk_types::Certificate;
use siglist::write_x509;
use std::alloc::Global;
use std::io::Write;
use std::marker::Model;
use store_reads::ReadFault;

/// A revoked certificate, by the SHA-256 of its TBSCertificate, and what calls gave for it: each
/// body once, in the order of the calls.
#[derive(Drop)]
pub(crate) struct Gathered {
    tbs: Digest,
    given: Vec<Certificate>,
}

impl Model for Gathered {
    ghost use Rattle.std.specs.Prelude.{map};
    ghost use Rattle.store_exports.specs.Gathering.{Bodies};

    ghost Value = { Bodies };

    ghost view = { λ g. record { tbs = g.tbs; bodies = map (λ c. c.body) g.given.items } };
}

/// True if one of these has this body.
fn gives(given: &[Certificate], body: &[u8]) -> bool
    ensures { result ≡ list_any (λ c. bytes_eq body.now c.body) given.now }
{
    given.iter().any(|one| body == one.body())
}

/// Writes an X509 list of each of these.
fn put_each<W: Write>(
    owner: &Guid,
    given: &[Certificate],
    writer: &mut W,
) -> Result<(), WriteFailed>
    ensures ok { OnOk result (Appends (W.contents writer.old) (W.contents writer.new)
        (flat_map (λ c. spelling (x509_row owner.now c.body)) given.now)) }
    ensures err { OnErr result (AppendsBeginning (W.contents writer.old) (W.contents writer.new)
        (flat_map (λ c. spelling (x509_row owner.now c.body)) given.now)) }
{
    for one in given {
        write_x509(owner, one.body(), writer)?;
    }
    Ok(())
}

impl Gathered {
    /// The certificate without a body.
    pub(crate) fn new(alloc: Global, tbs: Digest) -> Gathered
        ensures { result ≡ unfound tbs }
    {
        Gathered {
            tbs,
            given: Vec::new(alloc),
        }
    }

    /// Its digest.
    pub(crate) fn tbs(&self) -> Digest
        ensures { result ≡ self.now.tbs }
    {
        self.tbs
    }

    /// True if no call gave a body.
    fn is_bodiless(&self) -> bool
        ensures { result ≡ (length self.now.bodies == 0) }
    {
        self.given.is_empty()
    }

    /// True if a call gave this body.
    fn has(&self, body: &[u8]) -> bool
        ensures { result ≡ is_among self.now.bodies body.now }
    {
        gives(&self.given, body)
    }

    /// Adds the body of this certificate, unless it is there.
    pub(crate) fn add(&mut self, certificate: Certificate) -> Result<(), ReadFault>
        ensures { OnOk result (self.new ≡ with_body certificate.body self.old) }
    {
        if self.has(certificate.body()) {
            return Ok(());
        }
        match self.given.push(certificate) {
            Ok(()) => Ok(()),
            Err(_) => Err(ReadFault::NoMemory),
        }
    }

    /// Writes an X509 list for each body.
    pub(crate) fn put<W: Write>(&self, owner: &Guid, writer: &mut W) -> Result<(), WriteFailed>
        ensures ok { OnOk result (Appends (W.contents writer.old) (W.contents writer.new)
            (bodies_text owner.now self.now)) }
        ensures err { OnErr result (AppendsBeginning (W.contents writer.old)
            (W.contents writer.new) (bodies_text owner.now self.now)) }
    {
        put_each(owner, &self.given, writer)
    }

    /// Appends its digest to these, if no call gave a body.
    pub(crate) fn push_bodiless(&self, others: &mut Vec<Digest>) -> Result<(), ReadFault>
        ensures { OnOk result (others.new.items ≡ others.old.items ++ bodiless (self.now ∷ [])) }
    {
        if !self.is_bodiless() {
            return Ok(());
        }
        match others.push(self.tbs) {
            Ok(()) => Ok(()),
            Err(_) => Err(ReadFault::NoMemory),
        }
    }
}
