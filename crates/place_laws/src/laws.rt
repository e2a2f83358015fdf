// Laws of the syntax place, each on a function without a body.

ghost use Rattle.place_laws.specs.Laws.{PlaceIsFound, PlaceIsOne, QuickPlaceIsSame};

/// The place that the loop over items comes to is the syntax place, where the file's end stands among the tokens.
pub fn place_is_found()
    ensures { PlaceIsFound }
{}

/// There is one syntax place.
pub fn place_is_one()
    ensures { PlaceIsOne }
{}

/// The same place is found where each item whose braces nest too deep is opened at once, unread.
pub fn quick_place_is_same()
    ensures { QuickPlaceIsSame }
{}
