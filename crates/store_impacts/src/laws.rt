//! Laws of the crate's definitions.
ghost use Rattle.store_impacts.specs.Barring.{UntouchedBarsNone};
ghost use Rattle.store_impacts.specs.Touching.{BringsImages};

use desk_history::entries_bar_alone;

/// The images that the calls of a history bring are the images of the history.
pub fn images_are_brought()
    ensures { BringsImages }
{}

/// A Confirm of a proposal bars no image if the proposal's entries bar none by themselves.
pub fn untouched_bars_none()
    ensures { UntouchedBarsNone }
{
    entries_bar_alone();
}
