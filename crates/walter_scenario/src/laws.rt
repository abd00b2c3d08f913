//! The law that bytes spell one scenario or are refused at one place.
ghost use Rattle.std.specs.Prelude.{◌≡◌, ℕ, List};
ghost use Rattle.walter_scenario.specs.declared.place.Place.{Place};
ghost use Rattle.walter_scenario.specs.declared.scenario.Scenario.{Scenario};
ghost use Rattle.walter_scenario.specs.Scenarios.{IsReading, IsRefusedAt};

/// Bytes spell one scenario at most; bytes that spell one are refused nowhere; and no bytes are refused at two places.
/// So `read` answers a scenario, or the place, exactly where it should, unless memory runs out.
pub fn one_reading()
    ensures same { (bytes : List ℕ) (s t : Scenario) → IsReading bytes s → IsReading bytes t
        → s ≡ t }
    ensures refused { (bytes : List ℕ) (s : Scenario) (place : Place) → IsReading bytes s
        → ¬ IsRefusedAt bytes place }
    ensures first { (bytes : List ℕ) (place other : Place) → IsRefusedAt bytes place
        → IsRefusedAt bytes other → place ≡ other }
{}
