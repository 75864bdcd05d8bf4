//! Laws of the definitions.
ghost use Rattle.std.specs.Prelude.{◌≡◌, List, ℕ};
ghost use Rattle.zone_lists.specs.declared.zones.ZoneRow.{ZoneRow};
ghost use Rattle.catalogue.specs.Content.{Content};
ghost use Rattle.verdicts.specs.Verdicts.{Judged, verdict_of};
ghost use Rattle.verdicts.specs.Worlds.{GoodIsPlanned, IsRightStatus, IsVerdict};

/// Plain search finds an id good exactly if some list of candidates that holds it is a plan: each need of each
/// member is there or is given by a member.
pub fn good_is_planned()
    ensures { GoodIsPlanned }
{}

/// A verdict is good exactly if a plan holds the SYSMOD, held exactly if it is a candidate that no plan holds,
/// and lack exactly if it is no candidate. Good comes with the chosen plan, ascending: the SYSMOD and all
/// SYSMODs to which a list of picks leads from it. Held comes with the blocked need: the least need that isn't
/// there and that no good SYSMOD gives. No other verdict comes with either.
pub fn verdicts_are_right()
    ensures status { (content : Content) (rows : List ZoneRow) (id : List ℕ) → IsRightStatus content rows id }
    ensures verdict { (content : Content) (rows : List ZoneRow) (id : List ℕ)
        → IsVerdict content rows id (verdict_of content rows id) }
    ensures alone { (content : Content) (rows : List ZoneRow) (id : List ℕ) (judged : Judged) →
        IsVerdict content rows id judged → judged ≡ verdict_of content rows id }
{}
