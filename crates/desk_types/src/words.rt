//! Words for roles, votes, states and kinds.
ghost use Rattle.std.specs.Prelude.{◌≡◌, ◌≢◌, IfSome, IfNone};
ghost use Rattle.desk_types.specs.Words as spec;
ghost use Rattle.desk_types.specs.declared.role.Role.{Role};
ghost use Rattle.desk_types.specs.declared.vote.Vote.{Vote};
ghost use Rattle.desk_types.specs.declared.state.State.{State};
ghost use Rattle.desk_types.specs.declared.kind.ListedKind.{ListedKind};
ghost use Rattle.desk_types.specs.declared.proposal.ItemKind.{ItemKind};
ghost use Rattle.desk_types.specs.declared.proposal.ProposalKind.{ProposalKind};
ghost use Rattle.desk_types.specs.declared.proposal.ProposalState.{ProposalState};

use crate::{ItemKind, ListedKind, ProposalKind, ProposalState, Role, State, Vote};

impl Role {
    /// Its word: `submitter`, `reviewer`, `officer` or `signer`.
    pub fn text(self) -> &'static str
        ensures { result.now ≡ spec.role_text self }
    {
        match self {
            Role::Submitter => "submitter",
            Role::Reviewer => "reviewer",
            Role::Officer => "officer",
            Role::Signer => "signer",
        }
    }

    /// The role whose word this is.
    pub fn parse(text: &[u8]) -> Option<Role>
        ensures found { IfSome result (λ role. text.now ≡ spec.role_text role) }
        ensures only { IfNone result ((role : Role) → text.now ≢ spec.role_text role) }
    {
        match text {
            b"submitter" => Some(Role::Submitter),
            b"reviewer" => Some(Role::Reviewer),
            b"officer" => Some(Role::Officer),
            b"signer" => Some(Role::Signer),
            _ => None,
        }
    }
}

impl Vote {
    /// Its word: `yes` or `no`.
    pub fn text(self) -> &'static str
        ensures { result.now ≡ spec.vote_text self }
    {
        match self {
            Vote::Yes => "yes",
            Vote::No => "no",
        }
    }

    /// The vote whose word this is.
    pub fn parse(text: &[u8]) -> Option<Vote>
        ensures found { IfSome result (λ vote. text.now ≡ spec.vote_text vote) }
        ensures only { IfNone result ((vote : Vote) → text.now ≢ spec.vote_text vote) }
    {
        match text {
            b"yes" => Some(Vote::Yes),
            b"no" => Some(Vote::No),
            _ => None,
        }
    }
}

impl State {
    /// Its word: `open`, `approved`, `rejected`, `withdrawn` or `signed`.
    pub fn text(self) -> &'static str
        ensures { result.now ≡ spec.state_text self }
    {
        match self {
            State::Open => "open",
            State::Approved => "approved",
            State::Rejected => "rejected",
            State::Withdrawn => "withdrawn",
            State::Signed => "signed",
        }
    }

    /// The state whose word this is.
    pub fn parse(text: &[u8]) -> Option<State>
        ensures found { IfSome result (λ state. text.now ≡ spec.state_text state) }
        ensures only { IfNone result ((state : State) → text.now ≢ spec.state_text state) }
    {
        match text {
            b"open" => Some(State::Open),
            b"approved" => Some(State::Approved),
            b"rejected" => Some(State::Rejected),
            b"withdrawn" => Some(State::Withdrawn),
            b"signed" => Some(State::Signed),
            _ => None,
        }
    }
}

impl ListedKind {
    /// Its word: `digest` or `certificate`.
    pub fn text(self) -> &'static str
        ensures { result.now ≡ spec.kind_text self }
    {
        match self {
            ListedKind::Digest => "digest",
            ListedKind::Certificate => "certificate",
        }
    }

    /// The kind whose word this is.
    pub fn parse(text: &[u8]) -> Option<ListedKind>
        ensures found { IfSome result (λ kind. text.now ≡ spec.kind_text kind) }
        ensures only { IfNone result ((kind : ListedKind) → text.now ≢ spec.kind_text kind) }
    {
        match text {
            b"digest" => Some(ListedKind::Digest),
            b"certificate" => Some(ListedKind::Certificate),
            _ => None,
        }
    }
}

impl ProposalKind {
    /// Its word: `digest`, `certificate`, `level` or `import`.
    pub fn text(self) -> &'static str
        ensures { result.now ≡ spec.proposal_kind_text self }
    {
        match self {
            ProposalKind::Digest => "digest",
            ProposalKind::Certificate => "certificate",
            ProposalKind::Level => "level",
            ProposalKind::Import => "import",
        }
    }

    /// The kind whose word this is.
    pub fn parse(text: &[u8]) -> Option<ProposalKind>
        ensures found { IfSome result (λ kind. text.now ≡ spec.proposal_kind_text kind) }
        ensures only { IfNone result ((kind : ProposalKind)
            → text.now ≢ spec.proposal_kind_text kind) }
    {
        match text {
            b"digest" => Some(ProposalKind::Digest),
            b"certificate" => Some(ProposalKind::Certificate),
            b"level" => Some(ProposalKind::Level),
            b"import" => Some(ProposalKind::Import),
            _ => None,
        }
    }
}

impl ProposalState {
    /// Its word: `open`, `confirmed` or `dropped`.
    pub fn text(self) -> &'static str
        ensures { result.now ≡ spec.proposal_state_text self }
    {
        match self {
            ProposalState::Open => "open",
            ProposalState::Confirmed => "confirmed",
            ProposalState::Dropped => "dropped",
        }
    }

    /// The state whose word this is.
    pub fn parse(text: &[u8]) -> Option<ProposalState>
        ensures found { IfSome result (λ state. text.now ≡ spec.proposal_state_text state) }
        ensures only { IfNone result ((state : ProposalState)
            → text.now ≢ spec.proposal_state_text state) }
    {
        match text {
            b"open" => Some(ProposalState::Open),
            b"confirmed" => Some(ProposalState::Confirmed),
            b"dropped" => Some(ProposalState::Dropped),
            _ => None,
        }
    }
}

impl ItemKind {
    /// Its word: `digest`, `certificate` or `component`.
    pub fn text(self) -> &'static str
        ensures { result.now ≡ spec.item_kind_text self }
    {
        match self {
            ItemKind::Digest => "digest",
            ItemKind::Certificate => "certificate",
            ItemKind::Component => "component",
        }
    }

    /// The kind whose word this is.
    pub fn parse(text: &[u8]) -> Option<ItemKind>
        ensures found { IfSome result (λ kind. text.now ≡ spec.item_kind_text kind) }
        ensures only { IfNone result ((kind : ItemKind) → text.now ≢ spec.item_kind_text kind) }
    {
        match text {
            b"digest" => Some(ItemKind::Digest),
            b"certificate" => Some(ItemKind::Certificate),
            b"component" => Some(ItemKind::Component),
            _ => None,
        }
    }
}
