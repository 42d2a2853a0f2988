//! Laws of impacts, one clause for each function.
ghost use Rattle.desk_history.specs.ImpactLaws as law;

/// A Confirm by an officer who didn't propose is answered as the impact of its proposal says.
pub fn confirms_are_foretold()
    ensures { law.AnswersAsForetold }
{}

/// An accepted Confirm does what the impact of its proposal said: its reply has those counts, and
/// an image is barred exactly where it was barred or is in the impact.
pub fn impacts_come_true()
    ensures { law.ImpactsComeTrue }
{}

/// Of the images that the desk knew when an impact was shown, a later Confirm bars those that were
/// in it, and no other that isn't barred anyhow.
pub fn impacts_last()
    ensures { law.ImpactsLast }
{}

/// What a Confirm would bar can be told from the proposal's entries and from what is barred: an
/// image that no entry bars isn't in the impact; another one is, unless it is barred already.
pub fn entries_bar_alone()
    ensures bars { law.EntriesBar }
    ensures rule { law.EntriesRule }
    ensures tell { law.EntriesTell }
    ensures miss { law.EntriesMiss }
{}

/// An image that isn't barred is allowed exactly where it is listed.
pub fn listed_is_allowed()
    ensures { law.ListedIsAllowed }
{}

/// Some rule bars an image exactly where it is barred.
pub fn each_rule_bars()
    ensures { law.RulesBar }
{}

/// The images of a history are those of its requests and of its returned files.
pub fn images_are_all()
    ensures { law.ImagesAreAll }
{}

/// In a legal history each image has its request.
pub fn images_have_requests()
    ensures { law.ImagesHaveRequests }
{}
