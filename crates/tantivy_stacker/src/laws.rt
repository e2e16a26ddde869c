// Laws of arenas, lists and maps, for the proofs of callers.
ghost use Rattle.tantivy_stacker.specs.Maps.{EmptyMapIsHeld, EmptyMapHasNone, EntriesAreOne, OtherMapsStay};
ghost use Rattle.tantivy_stacker.specs.Arena.{FullIsSpent};
ghost use Rattle.tantivy_stacker.specs.Tenants.{NoneAreTenants, EmptyJoins, WritesStayApart};
ghost use Rattle.tantivy_stacker.specs.Lists.{EmptyIsHeld, OthersStay, PlacesLie, LiesBeforeTop, RoomIsBounded, RoomGrows};
ghost use Rattle.tantivy_stacker.specs.Beside.{EmptyAreBeside, ListWritesBeside, MapWritesBeside};

use crate::ArenaItem;

/// What holds of the lists of an arena. It does nothing.
pub fn list_laws()
    ensures empty { EmptyIsHeld }
    ensures others { OthersStay }
    ensures places { PlacesLie }
    ensures top { LiesBeforeTop }
{}

/// What holds of lists that stand side by side in one arena. It does nothing.
pub fn tenant_laws()
    ensures none { NoneAreTenants }
    ensures empty { EmptyJoins }
    ensures writes { WritesStayApart }
{}

/// What holds of the room that a list takes. It does nothing.
pub fn room_laws()
    ensures bound { RoomIsBounded }
    ensures grows { RoomGrows }
{}

/// What holds of an arena that stands at its limit. It does nothing.
pub fn space_laws()
    ensures { FullIsSpent }
{}

/// What holds of maps of this type of values. It does nothing.
pub fn map_laws<V: ArenaItem>()
    ensures empty { EmptyMapIsHeld V.SIZE }
    ensures none { EmptyMapHasNone V.SIZE V.item }
    ensures one { EntriesAreOne V.SIZE V.item }
    ensures others { OtherMapsStay V.SIZE V.item }
{}

/// What holds of a list and a map in one arena. It does nothing.
pub fn beside_laws<V: ArenaItem>()
    ensures empty { EmptyAreBeside V.SIZE }
    ensures list { ListWritesBeside V.SIZE V.item }
    ensures map { MapWritesBeside V.SIZE }
{}
