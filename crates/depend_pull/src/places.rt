//! The places of what was taken: what it asks for, and for which architecture.
ghost use Rattle.std.specs.Prelude.{◌≡◌, ◌++◌, IfOk, OnOk};
ghost use Rattle.std.specs.List.{flat_map};
ghost use Rattle.package_relations.specs.Fields.{groups_of as asked_by};
ghost use Rattle.depend_pull.specs.Places.{groups_followed as followed_by, if_asked, places_for, places_of};

use crate::flags::PullFlags;
use crate::seeds::is_of_all;
use ap_text::Name;
use depends_field::Group;
use package_core::Package;
use package_relations::{RelationField, groups_of};
use std::alloc::{AllocError, Global};

/// A group that a package asks for, and an architecture that applies to the package.
#[derive(Drop)]
pub struct Place {
    /// What is asked for.
    pub group: Group,
    /// For which architecture.
    pub arch: Name,
}

/// Puts the groups that a package asks for by a field, where the field is followed.
fn push_field(
    alloc: Global,
    groups: &mut Vec<Group>,
    member: &Package,
    field: RelationField,
    is_followed: bool,
) -> Result<(), AllocError>
    ensures { OnOk result (groups.new.items ≡ groups.old.items ++ flat_map (λ one. asked_by member.now one) (if_asked is_followed field)) }
{
    if is_followed {
        groups.append(&mut groups_of(alloc, member, field)?)?;
    }
    Ok(())
}

/// The groups of a package that are followed, in their order.
fn groups_followed(
    alloc: Global,
    member: &Package,
    flags: &PullFlags,
) -> Result<Vec<Group>, AllocError>
    ensures { IfOk result (λ groups. groups.items ≡ followed_by flags.now member.now) }
{
    let mut groups = Vec::new(alloc);
    push_field(alloc, &mut groups, member, RelationField::PreDepends, true)?;
    push_field(alloc, &mut groups, member, RelationField::Depends, true)?;
    push_field(
        alloc,
        &mut groups,
        member,
        RelationField::Recommends,
        flags.recommends,
    )?;
    push_field(
        alloc,
        &mut groups,
        member,
        RelationField::Suggests,
        flags.suggests,
    )?;
    Ok(groups)
}

/// Puts a place for each architecture.
fn push_group(
    alloc: Global,
    places: &mut Vec<Place>,
    group: &Group,
    archs: &[Name],
) -> Result<(), AllocError>
    ensures { OnOk result (places.new.items ≡ places.old.items ++ places_for archs.now group.now) }
{
    for arch in archs {
        places.push(Place {
            group: group.copy(alloc)?,
            arch: arch.copy(alloc)?,
        })?;
    }
    Ok(())
}

/// Puts the places of some groups.
fn push_groups(
    alloc: Global,
    places: &mut Vec<Place>,
    groups: &[Group],
    archs: &[Name],
) -> Result<(), AllocError>
    ensures { OnOk result (places.new.items ≡ places.old.items ++ flat_map (λ group. places_for archs.now group) groups.now) }
{
    for group in groups {
        push_group(alloc, places, group, archs)?;
    }
    Ok(())
}

/// Puts the places of a package that was taken.
pub(crate) fn push_places(
    alloc: Global,
    places: &mut Vec<Place>,
    member: &Package,
    flags: &PullFlags,
    archs: &[Name],
) -> Result<(), AllocError>
    ensures { OnOk result (places.new.items ≡ places.old.items ++ places_of flags.now archs.now member.now) }
{
    let groups = groups_followed(alloc, member, flags)?;
    if is_of_all(member) {
        return push_groups(alloc, places, &groups, archs);
    }
    let own = [member.arch.copy(alloc)?];
    push_groups(alloc, places, &groups, &own)
}
