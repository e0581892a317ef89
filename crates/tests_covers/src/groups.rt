// The groups of a circle, a graph and a point whose numbers interleave, and of the projective plane.
use crate::worked::{PLANE, read};
use edge_words::WordFault;
use face_poset::Space;
use part_groups::{Group, PartField, PartGroup, field_of_part, groups_of};
use regular_check::{RegularFault, check};
use space_parts::parts_of;
use std::alloc::Global;
use std::test::Fail;

/// Vertices 1 and 3 with edges 1 and 2, vertices 2 and 5 with edges 3, 4 and 5, and vertex 4.
const THREE: &str = "[[[1,0],[1,0],[1,0],[1,0],[1,0]],[[2,1,3],[2,1,3],[2,2,5],[2,2,5],[2,2,5]]]";

/// The part of a component with its chosen field; want of memory stands for one that is not there.
fn field_of(alloc: Global, space: &Space, component: u32) -> Result<PartField, RegularFault> {
    let regular = check(alloc, space)?;
    let parts = parts_of(alloc, &regular)?;
    if component == 0 || component > parts.count() {
        return Err(RegularFault::Memory);
    }
    Ok(field_of_part(alloc, &parts, component)?)
}

#[test]
fn parts_have_chosen_fields(rt: HostRuntime) -> Result<(), Fail> {
    let space = read(rt.alloc(), THREE)?;
    let field = field_of(rt.alloc(), &space, 2)?;
    assert_eq!(rt; field.part().space().euler(), -1i64);
    assert_eq!(rt; field.field().critical(1), [2u32, 3].as_slice());
    Ok(())
}

/// The same with its presentation.
fn presented(alloc: Global, space: &Space, component: u32) -> Result<PartGroup, WordFault> {
    match field_of(alloc, space, component) {
        Ok(field) => field.present(alloc),
        Err(_) => Err(WordFault::Memory),
    }
}

#[test]
fn parts_have_presentations(rt: HostRuntime) -> Result<(), Fail> {
    let space = read(rt.alloc(), THREE)?;
    let group = presented(rt.alloc(), &space, 2)?;
    assert_eq!(rt; group.part().space().euler(), -1i64);
    assert_eq!(rt; group.field().len(), 1);
    assert_eq!(rt; group.presentation().relators(), 0);
    let (part, field, presentation) = group.into_parts();
    assert_eq!(rt; part.space().euler(), -1i64);
    assert_eq!(rt; field.len(), 1);
    assert_eq!(rt; presentation.generators(), [2u32, 3].as_slice());
    Ok(())
}

#[test]
fn relators_stand_alone(rt: HostRuntime) -> Result<(), Fail> {
    let space = read(rt.alloc(), PLANE)?;
    let alone = presented(rt.alloc(), &space, 1)?.relators_alone(rt.alloc());
    assert_eq!(rt; alone.generators(), [4u32].as_slice());
    assert_eq!(rt; alone.relators(), 1);
    Ok(())
}

/// The groups of all components.
fn groups(alloc: Global, space: &Space) -> Result<Vec<Group>, WordFault> {
    match check(alloc, space) {
        Ok(regular) => groups_of(alloc, &regular),
        Err(_) => Err(WordFault::Memory),
    }
}

#[test]
fn each_component_has_a_group(rt: HostRuntime) -> Result<(), Fail> {
    let space = read(rt.alloc(), THREE)?;
    let groups = groups(rt.alloc(), &space)?;
    assert_eq!(rt; groups.len(), 3);
    for (group, edges) in groups.iter().zip([[2u32].as_slice(), &[4, 5], &[]]) {
        assert_eq!(rt; group.edges(), edges);
        assert_eq!(rt; group.relators(), 0);
    }
    Ok(())
}
