// A tree in a graph whose links join two nodes each.
ghost use Rattle.std.specs.Prelude.{◌≡◌, ℕ, ◌≤◌, All, length, true, IfOk, OnOk};
ghost use Rattle.number_lists.specs.Words.{holds};
ghost use Rattle.number_lists.specs.Cofaces.{cells_with};
ghost use Rattle.sphere_collapses.specs.Trees.{across_of, HasEnds, IsGrowing, IsLink, IsLonger, IsTaken, IsTree};

use number_lists::{FoundNumbers, Lists, cofaces_in};
use std::alloc::{AllocError, Global};

/// A node with the link along which it was taken into a tree; both are numbered from 1.
#[derive(Clone, Copy)]
pub struct Taken {
    pub node: u32,
    pub link: u32,
}

/// A tree from a root on, as far as links lead, the nodes in the order in which they are taken. Nodes and
/// links are numbered from 1; each link is the list of its two nodes.
pub fn grow(alloc: Global, nodes: usize, links: &Lists, root: u32) -> Result<Vec<Taken>, AllocError>
    requires links { All (IsLink nodes) links.now }
    requires few { length links.now ≤ 4294967295 }
    requires first { 1 ≤ root }
    requires last { root ≤ nodes }
    ensures { IfOk result (λ tree. IsTree links.now nodes root tree.items) }
{
    let at = cofaces_in(alloc, nodes, links)?;
    let mut found = FoundNumbers::new(alloc, nodes)?;
    found.insert(root)?;
    let mut tree = Vec::new(alloc);
    let mut head = 0;
    while head < found.len() {
        let node = found.get(head);
        take_across(
            links,
            at.get(node as usize - 1),
            node,
            &mut found,
            &mut tree,
        )?;
        head += 1;
    }
    Ok(tree)
}

/// Takes the nodes across these links of a node into the tree.
fn take_across(
    links: &Lists,
    at: &[u32],
    node: u32,
    found: &mut FoundNumbers,
    tree: &mut Vec<Taken>,
) -> Result<(), AllocError>
    requires links { All (IsLink found.old.most) links.now }
    requires at { at.now ≡ cells_with links.now node }
    requires node { holds found.old.found node ≡ true }
    ensures most { found.new.most ≡ found.old.most }
    ensures grows { OnOk result
        ((root : ℕ) → IsGrowing links.now root found.old.found tree.old.items
        → IsGrowing links.now root found.new.found tree.new.items) }
    ensures longer { OnOk result (IsLonger found.old.found found.new.found) }
    ensures taken { OnOk result (All (HasEnds links.now found.new.found) at.now) }
{
    for link in at {
        let across = node_across(links.get(*link as usize - 1), node);
        take(across, *link, found, tree)?;
    }
    Ok(())
}

/// Of the two nodes of a link the one that is not this one.
fn node_across(ends: &[u32], node: u32) -> u32
    requires { length ends.now ≡ 2 }
    ensures { result ≡ across_of ends.now node }
{
    if ends[0] == node { ends[1] } else { ends[0] }
}

/// Takes a node along a link, if it is not there.
fn take(
    node: u32,
    link: u32,
    found: &mut FoundNumbers,
    tree: &mut Vec<Taken>,
) -> Result<(), AllocError>
    requires first { 1 ≤ node }
    requires last { node ≤ found.old.most }
    ensures most { found.new.most ≡ found.old.most }
    ensures taken { OnOk result (IsTaken node link found.old.found found.new.found tree.old.items tree.new.items) }
{
    if found.holds(node) {
        return Ok(());
    }
    found.insert(node)?;
    tree.push(Taken { node, link })?;
    Ok(())
}
