ghost use Rattle.std.specs.Prelude.{◌≡◌, IfOk, OnOk, map, reverse};
ghost use Rattle.outcomes.specs.Groups.{before_groups, groups_of};
ghost use Rattle.outcomes.specs.SweepViews.{group_held, value_held};

use crate::group::Group;
use crate::value::Value;
use std::alloc::{AllocError, Global};

// Returns the groups of some values, in the order of the values. They are found from the last one to the first.
pub(crate) fn groups_of(
    alloc: Global,
    limit: u64,
    values: &[Value],
) -> Result<Vec<Group>, AllocError>
    ensures { IfOk result (λ groups. map group_held groups.items ≡ groups_of limit (map value_held values.now)) }
{
    let mut groups = Vec::new(alloc);
    let mut left = values.len();
    'values: while left > 0 {
        left -= 1;
        let value = &values[left];
        put(
            &mut groups,
            Group::of_one(alloc, limit, value.value, &value.job_outcome)?,
        )?;
    }
    groups.reverse();
    Ok(groups)
}

// Puts a group before others, which are in reverse order. It joins the last of them if both have the same text.
fn put(groups: &mut Vec<Group>, group: Group) -> Result<(), AllocError>
    ensures { OnOk result (map group_held (reverse groups.new.items)
        ≡ before_groups (group_held group) (map group_held (reverse groups.old.items))) }
{
    if let Some(last) = groups.last_mut() {
        if group.shares(last) {
            last.join(&group);
            return Ok(());
        }
    }
    groups.push(group)?;
    Ok(())
}
