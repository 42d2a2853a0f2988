//! Laws of the definitions that this crate's contracts cite.
ghost use Rattle.std.specs.Prelude.{◌≡◌, ◌++◌, ℕ, List};
ghost use Rattle.httparse.specs.Grammar.{RequestHead};
ghost use Rattle.desk_history.specs.Calls.{History};
ghost use Rattle.http_exchange.specs.Asked.{Asks, CallOrRefusal, HasRequest};
ghost use Rattle.http_exchange.specs.Matching.{MatchedInputsAreAboutTheirTag};

/// At a history an input is one call, or has one refusal, at most.
pub fn one_thing_is_asked()
    ensures { (cs : History) (b : List ℕ) (due other : CallOrRefusal)
        → Asks cs b due → Asks cs b other → due ≡ other }
{}

/// Bytes after a whole request don't change its call or its refusal.
pub fn what_follows_changes_nothing()
    ensures { (cs : History) (b : List ℕ) (h : RequestHead) (rest more : List ℕ)
        (due : CallOrRefusal)
        → HasRequest b h rest → Asks cs b due → Asks cs (b ++ more) due }
{}

/// An input with a tag whose answer changes the history is about what has that tag.
pub fn matched_inputs_are_about_their_tag()
    ensures { MatchedInputsAreAboutTheirTag }
{}
