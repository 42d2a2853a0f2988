//! Laws of answers, one clause for each function.
ghost use Rattle.http_calls.specs.Laws as law;

/// A refused call changes nothing.
pub fn refusals_change_nothing()
    ensures { law.RefusalsChangeNothing }
{}

/// A submitter's answer about requests is the same for all histories with the same requests of that
/// submitter.
pub fn submitters_are_answered_by_own()
    ensures { law.SubmittersAreAnsweredByOwn }
{}

/// No later call changes the tag of a request or of a proposal.
pub fn tags_stay()
    ensures { law.TagsStay }
{}

/// Whoever is shown a tag is shown it ever after.
pub fn shown_tags_stay()
    ensures { law.ShownTagsStay }
{}

/// A command with a tag that changes the history is about what has that tag.
pub fn matched_commands_are_about_their_tag()
    ensures { law.MatchedAreAboutTheirTag }
{}

/// A call that changed the history is never refused for its tag later.
pub fn repeats_match()
    ensures { law.RepeatsMatch }
{}
