//! Laws of proposals, one clause for each function.
ghost use Rattle.desk_history.specs.ProposalLaws as law;
ghost use Rattle.desk_history.specs.ProposalShown as shown;

/// By the second rules, one officer proposes the entries that are put into force, and another
/// confirms them.
pub fn two_officers_put_into_force()
    ensures { law.TwoOfficersPut }
{}

/// The first rules accept no Confirm and no Drop.
pub fn first_rules_close_none()
    ensures { law.FirstCloseNone }
{}

/// A proposal is closed once.
pub fn proposals_close_once()
    ensures { law.ClosedOnce }
{}

/// The next proposal is open.
pub fn next_proposal_is_open()
    ensures { law.NextIsOpen }
{}

/// A proposal is shown with all that its call names.
pub fn proposals_are_shown()
    ensures { shown.ShownAsProposed }
{}

/// No later call changes what a proposal names.
pub fn proposals_stay()
    ensures { shown.ProposalsStay }
{}

/// An Explain changes no row of a table: its minute joins the calls.
pub fn explanations_change_no_row()
    ensures { law.ExplainsAlone }
{}
