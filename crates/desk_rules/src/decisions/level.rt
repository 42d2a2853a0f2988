//! Components of the SBAT level.
ghost use Rattle.std.specs.Prelude.{◌≡◌};
ghost use Rattle.desk_rules.specs.DecisionSteps.{put_of};

use desk_history::Write;
use sbat::{Component, Generation};

/// The write of the component, whose current generation is this.
pub(crate) fn put(present: Option<Generation>, component: Component) -> Write
    ensures { result ≡ put_of present component }
{
    match present {
        None => Write::Component(component),
        Some(_) => Write::Generation(component),
    }
}
