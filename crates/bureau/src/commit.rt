//! Making an accepted change. It takes no memory of the bureau's.
ghost use Rattle.catalogue.specs.Content.{Content, IsInOrder};
ghost use Rattle.bureau_store.specs.Effect.{content_after};
ghost use Rattle.bureau_store.specs.Store.{Makes};
ghost use Rattle.bureau.specs.Outcomes.{IsFitChange, TouchesNoMore, effect_as, update_of};

use crate::outcome::{AcceptedChange, Effect};
use bureau_store::{Store, StoreFault};
use verdicts::Judge;

/// Makes the change. Before that the judge forgets what it keeps of the SYSMODs that a publication touches,
/// so that it is right whether the change is made or not.
pub(crate) fn commit<S: Store, J: Judge<S>>(
    store: &mut S,
    judge: &mut J,
    change: &AcceptedChange,
) -> Result<(), StoreFault>
    requires { IsFitChange change.now }
    ensures makes { Makes S.tables_view S.outgrown (update_of change.now) store.old store.new result }
    ensures right { (content : Content) → J.is_right judge.old content → J.is_right judge.new content }
    ensures ready { (content : Content) →
        IsInOrder content → IsInOrder (content_after (effect_as change.now.effect) content) →
        TouchesNoMore change.now.effect content → J.is_right judge.old content →
        J.is_right judge.new (content_after (effect_as change.now.effect) content) }
{
    let number = change.number;
    let reply = change.reply.as_slice();
    match &change.effect {
        Effect::Publication { changes, touched } => {
            judge.drop_touched(touched);
            store.publish(number, reply, changes)
        }
        Effect::ZonePut { client, zone, rows } => store.put_zone(client, number, reply, zone, rows),
        Effect::ZoneDropped { client, zone } => store.drop_zone(client, number, reply, zone),
        Effect::ReceivedPut { client, ids } => store.put_received(client, number, reply, ids),
        Effect::PatternsPut {
            client,
            zone,
            patterns,
        } => store.put_patterns(client, number, reply, zone, patterns),
    }
}
