//! Judges, who give verdicts.
ghost use Rattle.std.specs.Prelude.{◌≡◌, IfOk, map, option_map};
ghost use Rattle.catalogue.specs.Content.{Content, IsInOrder};
ghost use Rattle.catalogue.specs.Ids.{Ascend};
ghost use Rattle.catalogue.specs.View.{MayAsk, Tells};
ghost use Rattle.catalogue.specs.declared.fault.SourceFault.TheVariants.{Device};
ghost use Rattle.catalogue.specs.Touched.{AgreeOutside};
ghost use Rattle.verdicts.specs.Candidates.{candidates_unless_there};
ghost use Rattle.verdicts.specs.Judge as judge;
ghost use Rattle.verdicts.specs.United.{united};
ghost use Rattle.verdicts.specs.Verdicts.{verdict_of};

use crate::united::{listed, put_plan};
use crate::{Status, Verdict};
use catalogue::{Published, SourceFault};
use mcs_reader::Id;
use std::alloc::Global;
use std::collections::BTreeSet;
use supersede::Zone;

/// Gives verdicts over a source of published content.
///
/// A judge may keep what it has found. It is right for a content if what it keeps is true of that content.
pub trait Judge<P: Published> {
    /// What it keeps is true of the content.
    ghost is_right: { Self → Content → Type 0 };

    /// Gives the verdict on a SYSMOD in a zone.
    ///
    /// # Errors
    ///
    /// `Memory` if memory ran out, `Device` if the source failed.
    fn verdict(
        &mut self,
        alloc: Global,
        source: &mut P,
        zone: &Zone,
        id: &Id,
    ) -> Result<Verdict, SourceFault>
        ensures asks { MayAsk P.content_view Device source.old source.new result }
        ensures verdict { IfOk result (λ verdict. Tells P.content_view source.old source.new
            (λ content. is_right self.old content
            → judge.judged_by verdict ≡ verdict_of content zone.now id.now)) }
        ensures right { Tells P.content_view source.old source.new
            (λ content. is_right self.old content → is_right self.new content) };

    /// Forgets what is kept of these SYSMODs. It takes no memory.
    ///
    /// If the judge was right for a content, it stays right for it. It is then right also for each content that says
    /// the same outside these ids, if both are in order: such as the content before a publication and after it.
    fn drop_touched(&mut self, ids: &[Id])
        ensures stays { (content : Content) → is_right self.old content → is_right self.new content }
        ensures right { (old new : Content) → IsInOrder old → IsInOrder new → is_right self.old old
            → AgreeOutside ids.now old new → is_right self.new new };

    /// Finds for each of some SYSMODs the candidates that give it, ascending, or `None` if it is there: the zone lists
    /// it, or an installed SYSMOD gives it (IBM z/OS SMP/E Reference, `++VER`, operands SUP and FMID).
    ///
    /// # Errors
    ///
    /// Those of [`Judge::verdict`].
    fn candidates(
        &mut self,
        alloc: Global,
        source: &mut P,
        zone: &Zone,
        ids: &[Id],
    ) -> Result<Vec<Option<Vec<Id>>>, SourceFault>
        ensures asks { MayAsk P.content_view Device source.old source.new result }
        ensures candidates { IfOk result (λ found. Tells P.content_view source.old source.new
            (λ content. is_right self.old content → map (option_map (λ ids. ids.items)) found.items
            ≡ map (candidates_unless_there content zone.now) ids.now)) }
        ensures right { Tells P.content_view source.old source.new
            (λ content. is_right self.old content → is_right self.new content) };

    /// Gives the status of each SYSMOD, in the order of the list. A judge that can answer many at once does so; any
    /// other gives one verdict after the other.
    ///
    /// # Errors
    ///
    /// Those of [`Judge::verdict`].
    fn statuses(
        &mut self,
        alloc: Global,
        source: &mut P,
        zone: &Zone,
        ids: &[Id],
    ) -> Result<Vec<Status>, SourceFault>
        ensures asks { MayAsk P.content_view Device source.old source.new result }
        ensures statuses { IfOk result (λ statuses. Tells P.content_view source.old source.new
            (λ content. is_right self.old content
            → statuses.items ≡ map (λ id. judge.status_of (verdict_of content zone.now id)) ids.now)) }
        ensures right { Tells P.content_view source.old source.new
            (λ content. is_right self.old content → is_right self.new content) }
    {
        let mut statuses = Vec::with_capacity(alloc, ids.len())?;
        for id in ids {
            statuses.push(self.verdict(alloc, source, zone, id)?.status())?;
        }
        Ok(statuses)
    }

    /// Finds all members of the chosen plans of some SYSMODs, ascending, each once. A judge that can look at many at
    /// once does so; any other gives one verdict after the other.
    ///
    /// # Errors
    ///
    /// Those of [`Judge::verdict`].
    fn united(
        &mut self,
        alloc: Global,
        source: &mut P,
        zone: &Zone,
        ids: &[Id],
    ) -> Result<Vec<Id>, SourceFault>
        ensures asks { MayAsk P.content_view Device source.old source.new result }
        ensures united { IfOk result (λ found. Tells P.content_view source.old source.new
            (λ content. is_right self.old content → found.items ≡ united content zone.now ids.now)) }
        ensures ascend { IfOk result (λ found. Ascend found.items) }
        ensures right { Tells P.content_view source.old source.new
            (λ content. is_right self.old content → is_right self.new content) }
    {
        let mut found = BTreeSet::new(alloc);
        for id in ids {
            let verdict = self.verdict(alloc, source, zone, id)?;
            put_plan(&mut found, &verdict)?;
        }
        Ok(listed(alloc, found)?)
    }
}
