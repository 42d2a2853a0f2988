//! A day of a desk by the first rules: one officer alone revokes and raises.
use super::days::{Rules, play};
use super::*;

/// Each command that names entries puts them into force at once; there is no proposal.
const ALONE: &str = "\
console p1 add ann submitter 1 : added ann
console p2 add rita reviewer 2 : added rita
console p3 add olga officer 3 : added olga
eve e1 revoke 1 : UnknownCaller
ann a1 revoke 1 : NotYourRole
console a1 raise grub 3 2024010100 : NotYourRole
olga v1 list 32 : listed
olga v2 list-certificate 204 : listed
verdict 32 32 0 0 : Allowed
olga v3 revoke 32 : revoked
olga v3 revoke 32 : again revoked
olga v3 revoke 33 : KeyReused
olga v4 revoke 32 : AlreadyRevoked
verdict 32 32 0 0 : DbxDigest
verdict 160 160 1 204 0 : Allowed
olga v4 revoke-certificate 204 : revoked
olga v5 revoke-certificate 204 : AlreadyRevoked
verdict 160 160 1 204 0 : DbxCertificate
ann a1 submit shim 160 160 1 204 0 : Revoked
olga v5 raise grub 3 2024010100 : raised
olga v6 raise grub 3 2024010101 : NotHigher
olga v6 raise grub 4 2024010100 : StampNotLater
olga v6 raise sbat 2 2024010101 : NotHigher
olga v6 list 34 : listed
verdict 34 34 0 1 grub 2 : Sbat(Below { place: 0, needs: Generation(3) })
verdict 34 34 0 1 grub 3 : Allowed
olga v7 import 0 1 1 170 1 187 0 : imported 1 1 0 1
olga v7 import 0 1 1 170 1 187 0 : again imported 1 1 0 1
olga v8 import 0 0 2 170 171 0 0 : imported 1 0 0 0
olga v9 import 0 0 0 0 1 grub 4 : StampNotLater
olga v9 import 2024010100 0 0 0 1 grub 4 : StampNotLater
olga v9 import 2024010101 2 1 172 0 3 grub 4 shim 2 grub 5 : imported 1 0 2 2
olga v10 import 0 0 0 0 1 grub 5 : imported 0 0 0 0
olga v11 raise shim 3 2024010101 : StampNotLater
olga v11 raise shim 3 2024010102 : raised
verdict 34 34 0 2 shim 3 grub 4 : Sbat(Below { place: 1, needs: Generation(5) })
verdict 34 34 0 2 shim 3 grub 5 : Allowed
olga v12 confirm 1 : NoSuchProposal
olga v12 drop 1 : NoSuchProposal
olga v12 explain 1 lost : NoSuchProposal
rita r1 confirm 1 : NotYourRole
olga v12 unlist 34 : unlisted
ann a2 submit shim 160 160 0 0 : submitted 1
rita r1 yes 1 : reviewed 1 open
";

#[test]
fn a_day_by_the_first_rules(rt: HostRuntime) -> Result<(), Fail> {
    play(&rt, rt.alloc(), Rules::First, ALONE)
}
