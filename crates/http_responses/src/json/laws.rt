//! Laws of the definitions.
ghost use Rattle.http_responses.specs.json.Verdicts.{EachVerdictIsSaid};

/// Each verdict on an image has a text: `verdict_json` answers `None` to no verdict on the image
/// whose facts it is given.
pub fn each_verdict_is_said()
    ensures { EachVerdictIsSaid }
{}
