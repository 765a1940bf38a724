// What a pin sees.
ghost use Rattle.std.specs.Prelude.{IfOk, OnOk, ◌≡◌, ◌++◌, ◌∷◌, []};
ghost use Rattle.table_core.specs.ViewTables.{IsViewIn, AreEntries, ArePartsIn, groups_among, completed_in, instant_in};

use crate::Control;
use crate::lists::parts_of;
use crate::slice_logs::SliceLogs;
use crate::times::{greatest, up_to};
use hudi_base::{InstantTime, Sequence, Target};
use std::alloc::{AllocError, Global};
use table_history::{GroupParts, View};

impl Control {
    // A group of the tiles with the files of its current slice, where it has some.
    fn push_group(
        &self,
        alloc: Global,
        slice: &Target,
        logs: &SliceLogs,
        groups: &mut Sequence<GroupParts>,
    ) -> Result<(), AllocError>
        ensures { OnOk result (groups.new
            ≡ groups.old ++ groups_among self.now.props.name self.now.buckets ((slice.now, logs.now) ∷ [])) }
    {
        let is_current = slice.slice == slice.group.born;
        if logs.logs().is_empty() || !is_current || !self.buckets.has(&slice.group) {
            return Ok(());
        }
        groups.push(GroupParts {
            group: slice.group.copy(alloc)?,
            parts: parts_of(alloc, &self.props.name, slice, logs.logs())?,
        })
    }

    // The groups of the tiles that have files.
    fn groups(&self, alloc: Global) -> Result<Sequence<GroupParts>, AllocError>
        ensures groups { IfOk result (λ groups.
            groups ≡ groups_among self.now.props.name self.now.buckets self.now.slices.slots.entries) }
        ensures entries { AreEntries self.now.slices }
    {
        let mut groups = Sequence::new(alloc);
        for (slice, logs) in self.slices.slots.iter() {
            self.push_group(alloc, slice, logs, &mut groups)?;
        }
        Ok(groups)
    }

    fn groups_at(
        &self,
        alloc: Global,
        t: Option<InstantTime>,
        bases_only: bool,
    ) -> Result<Sequence<GroupParts>, AllocError>
        ensures { IfOk result (λ groups. ArePartsIn self.now t bases_only groups) }
    {
        if t.is_none() || bases_only {
            return Ok(Sequence::new(alloc));
        }
        self.groups(alloc)
    }

    fn completed_at(
        &self,
        alloc: Global,
        t: Option<InstantTime>,
    ) -> Result<Sequence<InstantTime>, AllocError>
        ensures { IfOk result (λ completed. completed ≡ completed_in self.now t) }
    {
        match t {
            Some(t) => up_to(alloc, &self.completed, t),
            None => Ok(Sequence::new(alloc)),
        }
    }

    // The instant that a pin is at: the named one, else the latest.
    fn instant(&self, at: Option<InstantTime>) -> Option<InstantTime>
        ensures { result ≡ instant_in self.now at }
    {
        match at {
            Some(t) => Some(t),
            None => greatest(&self.completed),
        }
    }

    // The view of the next pin. The only error is want of memory, which is also where no number is left for the pin.
    pub(crate) fn view(
        &self,
        alloc: Global,
        at: Option<InstantTime>,
        bases_only: bool,
    ) -> Result<View, AllocError>
        ensures { IfOk result (λ view. IsViewIn self.now at bases_only view) }
    {
        if self.pins_made == u64::MAX {
            return Err(AllocError);
        }
        let t = self.instant(at);
        Ok(View {
            pin: self.pins_made + 1,
            t,
            groups: self.groups_at(alloc, t, bases_only)?,
            completed: self.completed_at(alloc, t)?,
        })
    }
}
