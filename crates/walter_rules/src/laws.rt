//! Laws of the rules: all that they say of an event is allowed.
ghost use Rattle.walter_base.specs.declared.catalog.Catalog.{Catalog};
ghost use Rattle.walter_base.specs.declared.format.Format.{Format};
ghost use Rattle.walter_base.specs.declared.names.SiteId.{SiteId};
ghost use Rattle.walter_base.specs.Sending.{AreInOrder};
ghost use Rattle.walter_rules.specs.declared.event.Event.{Event};
ghost use Rattle.walter_rules.specs.Allowed.{IsAllowed};
ghost use Rattle.walter_rules.specs.Rule.{rule};
ghost use Rattle.walter_rules.specs.Standing.{Standing};

/// What the rules say of an event is of one of the kinds, however the site stands; each packet that is to be put out
/// says what is so, and the packets are in order.
pub fn rules_are_allowed()
    ensures allowed { (header : Format) (catalog : Catalog) (i : SiteId) (S : Standing) (event : Event)
        → IsAllowed catalog i S event (rule header catalog i S event) }
    ensures order { (header : Format) (catalog : Catalog) (i : SiteId) (S : Standing) (event : Event)
        → AreInOrder (rule header catalog i S event).sends }
{}
