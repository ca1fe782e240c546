use crate::{Boxed, Items, at};
use std::alloc::{AllocError, Global};

/// A tree that leads back to itself through both types.
#[derive(Debug, Drop)]
enum Tree {
    Leaf(u64),
    Kept(Boxed<Tree>),
    Many(Items<Tree>),
}

/// The leaf `first`, and in a box the one after it.
fn leaves(alloc: Global, first: u8) -> Result<Tree, AllocError> {
    let mut trees = Items::new(alloc);
    trees.push(Tree::Leaf(u64::from(first)))?;
    let kept = Boxed::new(alloc, Tree::Leaf(u64::from(first) + 1))?;
    trees.push(Tree::Kept(kept))?;
    Ok(Tree::Many(trees))
}

fn number(tree: &Tree) -> Option<u64> {
    match tree {
        Tree::Leaf(number) => Some(*number),
        _ => None,
    }
}

#[test]
fn a_tree_leads_back_to_itself(rt: HostRuntime) {
    let Ok(Tree::Many(trees)) = leaves(rt.alloc(), 7) else {
        panic!(rt; "no memory");
    };
    assert!(rt; trees.len() == 2);
    let Some(Tree::Kept(kept)) = trees.get(1) else {
        panic!(rt; "no box");
    };
    assert!(rt; number(kept.get()) == Some(8));
}

fn filled(alloc: Global, numbers: &[u64]) -> Result<Items<u64>, AllocError> {
    Ok(Items::from_vec(Vec::from_slice(alloc, numbers)?))
}

#[test]
fn elements_move(rt: HostRuntime) {
    let (Ok(mut items), Ok(more)) = (filled(rt.alloc(), &[1, 2, 3]), filled(rt.alloc(), &[4, 5]))
    else {
        panic!(rt; "no memory");
    };
    assert!(rt; items.append(more).is_ok());
    assert!(rt; items.push(6).is_ok());
    assert!(rt; items.as_slice() == [1, 2, 3, 4, 5, 6].as_slice());
    assert!(rt; items.pop() == Some(6));
    assert!(rt; at(items.as_slice(), 4) == Some(&5));
    assert!(rt; items.into_vec().len() == 5);
}

#[test]
fn places_are_counted_from_0(rt: HostRuntime) {
    let Ok(mut items) = filled(rt.alloc(), &[1, 2, 3]) else {
        panic!(rt; "no memory");
    };
    assert!(rt; items.len() == 3);
    assert!(rt; items.replace(0, 9) == 1);
    assert!(rt; items.len() == 3);
    items.set(1, 8);
    assert!(rt; items.remove(2) == 3);
    assert!(rt; items.as_slice() == [9, 8].as_slice());
    assert!(rt; items.get(2).is_none());
    assert!(rt; !items.is_empty());
}
