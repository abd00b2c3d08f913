//! Laws of the sites without disks: their trails are right and linked, whatever happens.
ghost use Rattle.std.specs.Prelude.{◌<◌, List};
ghost use Rattle.walter_base.specs.declared.catalog.Catalog.{Catalog};
ghost use Rattle.walter_base.specs.declared.format.Format.{Format};
ghost use Rattle.walter_linked.specs.Catalogs.{IsWhole};
ghost use Rattle.walter_rules.specs.declared.entry.Entry.{Entry};
ghost use Rattle.walter_world.specs.declared.events.WorldEvent.{WorldEvent};
ghost use Rattle.walter_world.specs.Worlds.{AreOpenings, AreRightWithPlace, HaveHappened, KeepPromises, StepsTo};

/// Where the trails of the sites are right and linked, they are so behind one more event, whatever it is, whatever its
/// fate and whichever format the headers of the journals name; and trails that are right and linked keep their
/// promises.
pub fn steps_keep_promises()
    ensures right { (format : Format) (catalog : Catalog) (old new : List (List Entry)) (e : WorldEvent)
        → e.site.0 < catalog.sites → AreRightWithPlace format catalog old → StepsTo format catalog old e new
        → AreRightWithPlace format catalog new }
    ensures promises { (format : Format) (catalog : Catalog) (trails : List (List Entry)) → IsWhole catalog
        → AreRightWithPlace format catalog trails → KeepPromises format catalog trails }
{}

/// Whatever list of events comes to the sites of a whole catalog, whatever their fates and whichever format the headers
/// of the journals name, from their openings on: the trails are right and linked and spell a legal history, and so on.
pub fn events_keep_promises()
    ensures { (format : Format) (catalog : Catalog) (first last : List (List Entry)) (events : List WorldEvent)
        → IsWhole catalog → AreOpenings format catalog first → HaveHappened format catalog first events last
        → KeepPromises format catalog last }
{}
