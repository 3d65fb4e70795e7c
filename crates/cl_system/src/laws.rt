//! What holds of the system. The function does nothing: its contract is a law of the definitions.
ghost use Rattle.cl_system.specs.Laws.{InPlaceAtFirst, EventsKeepPlaces};

/// Each message goes between the actors that its kind names, and each replica has its place.
pub fn all_is_in_place()
    ensures first { InPlaceAtFirst }
    ensures keeps { EventsKeepPlaces }
{}
