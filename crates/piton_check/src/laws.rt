//! A law of systems. The function does nothing: its clause holds of all systems.

ghost use Rattle.piton_check.specs.Places.{PlacesChangeNothing};

/// Systems that differ in places alone break the same rules, and their names resolve to the same system.
pub fn places_change_nothing()
    ensures { PlacesChangeNothing }
{}
