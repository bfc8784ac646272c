ghost use Rattle.std.specs.Prelude.{◌≡◌, ◌<◌, ◌≤◌, ◌^◌, ◌++◌, [], ◌∷◌, length, map, take, slice_get, slice_set, option_copied, IfOk};
ghost use Rattle.std.specs.Arc.{arc_value};

use crate::group::Group;
use std::alloc::{AllocError, Global};
use std::marker::Model;
use std::sync::Arc;

/// A list of groups. Copies share the groups, and the list itself while it stays as it is.
#[derive(Drop)]
pub(crate) struct Groups {
    alloc: Global,
    list: Option<Arc<Vec<Arc<Group>>>>,
}

impl Model for Groups {
    ghost use Rattle.std.specs.Prelude.{List};
    ghost use Rattle.block_host.specs.declared.block.Block.{Block};
    ghost use Rattle.block_list.specs.Grouped.{listed};

    ghost Value = { List (List Block) };

    ghost view = { λ g. listed g.list };
}

impl Groups {
    /// No group.
    pub(crate) fn new(alloc: Global) -> Groups
        ensures { result ≡ [] }
    {
        Groups { alloc, list: None }
    }

    /// The number of groups.
    pub(crate) fn len(&self) -> usize
        ensures { result ≡ length self.now }
    {
        match &self.list {
            Some(groups) => groups.len(),
            None => 0,
        }
    }

    /// The group at a place, where there is one.
    pub(crate) fn get(&self, at: usize) -> Option<&Group>
        ensures { option_copied result ≡ slice_get self.now at }
    {
        match &self.list {
            Some(groups) => match groups.get(at) {
                Some(group) => Some(group),
                None => None,
            },
            None => None,
        }
    }

    /// The same groups once more.
    pub(crate) fn share(&self) -> Result<Groups, AllocError>
        ensures { IfOk result (λ groups. groups ≡ self.now) }
    {
        let list = match &self.list {
            Some(groups) => Some(Arc::try_clone(groups)?),
            None => None,
        };
        Ok(Groups {
            alloc: self.alloc,
            list,
        })
    }

    // These groups, in a list that nobody shares.
    fn listed(alloc: Global, groups: Vec<Arc<Group>>) -> Result<Groups, AllocError>
        ensures { IfOk result (λ other. other ≡ map arc_value groups.items) }
    {
        Ok(Groups {
            alloc,
            list: Some(Arc::new(alloc, groups)?),
        })
    }

    // The list; a copy of it where it is shared.
    fn list(self) -> Result<Vec<Arc<Group>>, AllocError>
        ensures { IfOk result (λ groups. map arc_value groups.items ≡ self) }
    {
        let Groups { alloc, list } = self;
        let Some(groups) = list else {
            return Ok(Vec::new(alloc));
        };
        match Arc::try_unwrap(groups) {
            Ok(groups) => Ok(groups),
            Err(groups) => copied(alloc, &groups),
        }
    }

    /// These groups and one behind them, at most 2^40. The list is copied where it is shared.
    pub(crate) fn and(self, group: Group) -> Result<Groups, AllocError>
        ensures added { IfOk result (λ groups. groups ≡ self ++ group ∷ []) }
        ensures few { IfOk result (λ groups. length groups ≤ 2 ^ 40) }
    {
        let alloc = self.alloc;
        let mut groups = self.list()?;
        if groups.len() >= 1 << 40 {
            return Err(AllocError);
        }
        groups.push(Arc::new(alloc, group)?)?;
        Groups::listed(alloc, groups)
    }

    /// The first of these groups.
    pub(crate) fn first(&self, len: usize) -> Result<Groups, AllocError>
        ensures { IfOk result (λ groups. groups ≡ take len self.now) }
    {
        let mut groups = self.share()?.list()?;
        groups.truncate(len);
        Groups::listed(self.alloc, groups)
    }

    /// These groups with another in the place of one of them.
    pub(crate) fn replaced(&self, at: usize, group: Group) -> Result<Groups, AllocError>
        requires { at < length self.now }
        ensures { IfOk result (λ groups. groups ≡ slice_set self.now at group) }
    {
        let mut groups = self.share()?.list()?;
        groups[at] = Arc::new(self.alloc, group)?;
        Groups::listed(self.alloc, groups)
    }
}

// The same groups once more, in a list of their own.
fn copied(alloc: Global, groups: &[Arc<Group>]) -> Result<Vec<Arc<Group>>, AllocError>
    ensures { IfOk result (λ other. map arc_value other.items ≡ map arc_value groups.now) }
{
    let mut other = Vec::with_capacity(alloc, groups.len())?;
    for group in groups {
        other.push(Arc::try_clone(group)?)?;
    }
    Ok(other)
}
