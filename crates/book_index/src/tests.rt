use super::*;
use cache_terms::{Key, Tags, Target};
use flow_base::{Memory, Text};
use std::alloc::Global;
use std::test::Fail;

fn key_of(alloc: Global, sub: &str, type_name: &str) -> Result<Key, Memory> {
    Ok(Key {
        sub: Text::of(alloc, sub)?,
        type_name: Text::of(alloc, type_name)?,
        rep: Text::of(alloc, "")?,
        sel: Text::of(alloc, "")?,
    })
}

fn tags_of(alloc: Global, line: &str) -> Result<Tags, Memory> {
    let mut texts = Vec::new(alloc);
    for word in line.split(' ') {
        texts.push(Text::of(alloc, word)?)?;
    }
    Tags::of(alloc, texts)
}

fn target_of(alloc: Global, kind: &str, sub: &str, name: &str) -> Result<Target, Memory> {
    let sub = Text::of(alloc, sub)?;
    if kind == "subgraph" {
        return Ok(Target::Subgraph(sub));
    }
    let name = Text::of(alloc, name)?;
    if kind == "type" {
        return Ok(Target::OfType(sub, name));
    }
    Ok(Target::Tag(sub, name))
}

fn noted(alloc: Global) -> Result<Stamps, Memory> {
    let mut stamps = Stamps::open(alloc, 8)?;
    stamps.note(target_of(alloc, "tag", "products", "hot")?, 2);
    stamps.note(target_of(alloc, "type", "products", "Product")?, 5);
    stamps.note(target_of(alloc, "tag", "reviews", "hot")?, 7);
    Ok(stamps)
}

fn last(
    alloc: Global,
    stamps: &mut Stamps,
    sub: &str,
    type_name: &str,
    tags: &str,
) -> Result<Option<u64>, Memory> {
    let key = key_of(alloc, sub, type_name)?;
    let tags = tags_of(alloc, tags)?;
    Ok(stamps.last(&key, &tags))
}

#[test]
fn last_is_the_latest_that_covers(rt: HostRuntime) -> Result<(), Fail> {
    let alloc = rt.alloc();
    let mut stamps = noted(alloc)?;
    let table = [
        ("products", "Product", "hot x", Some(5), 4),
        ("products", "User", "x hot", Some(2), 8),
        ("products", "User", "x", None, 11),
        ("reviews", "Product", "hot", Some(7), 14),
        // too many tags, and tags in another form, are none
        (
            "reviews",
            "Product",
            "a b c d e f g h i j k l m n o p hot",
            None,
            16,
        ),
        ("reviews", "Product", "hot ", None, 18),
    ];
    for (sub, type_name, tags, want, probes) in table {
        let last = last(alloc, &mut stamps, sub, type_name, tags)?;
        assert_eq!(rt; last, want);
        assert_eq!(rt; stamps.probes(), probes);
    }
    Ok(())
}

#[test]
fn pruned_stamps_are_not_noted(rt: HostRuntime) -> Result<(), Fail> {
    let alloc = rt.alloc();
    let mut stamps = noted(alloc)?;
    stamps.prune(2);
    assert_eq!(rt; stamps.count(), 2);
    stamps.prune(7);
    assert_eq!(rt; stamps.count(), 0);
    let none = last(alloc, &mut stamps, "products", "Product", "hot x")?;
    assert_eq!(rt; none, None);
    Ok(())
}

#[test]
fn a_target_has_one_stamp(rt: HostRuntime) -> Result<(), Fail> {
    let alloc = rt.alloc();
    let mut stamps = Stamps::open(alloc, 2)?;
    stamps.note(target_of(alloc, "subgraph", "products", "")?, 2);
    stamps.note(target_of(alloc, "subgraph", "products", "")?, 5);
    assert_eq!(rt; stamps.count(), 1);
    let latest = last(alloc, &mut stamps, "products", "Product", "x")?;
    assert_eq!(rt; latest, Some(5));
    stamps.clear();
    assert_eq!(rt; stamps.count(), 0);
    assert_eq!(rt; stamps.probes(), 3);
    Ok(())
}

// One call on the index for a key, at this scope: an empty id is the public one.
fn step(
    alloc: Global,
    index: &mut KeyIndex,
    key: &Key,
    verb: &str,
    id: &str,
    position: u64,
) -> Result<Option<u64>, Memory> {
    let text = Text::of(alloc, id)?;
    let scope = if id == "" { None } else { Some(&text) };
    if verb == "put" {
        return index.put(key, scope, position);
    }
    if verb == "remove" {
        return Ok(index.remove(key, scope));
    }
    Ok(index.get(key, scope))
}

#[test]
fn positions_stand_by_key_and_scope(rt: HostRuntime) -> Result<(), Fail> {
    let alloc = rt.alloc();
    let mut index = KeyIndex::open(alloc);
    let key = key_of(alloc, "products", "Product")?;
    let table = [
        ("put", "", 1, None),
        ("put", "ada", 2, None),
        ("put", "", 3, Some(1)),
        ("get", "", 0, Some(3)),
        ("get", "bob", 0, None),
        ("remove", "ada", 0, Some(2)),
        ("get", "ada", 0, None),
        ("remove", "", 0, Some(3)),
        ("put", "", 4, None),
    ];
    for (verb, id, position, want) in table {
        let answer = step(alloc, &mut index, &key, verb, id, position)?;
        assert_eq!(rt; answer, want);
    }
    index.clear();
    assert_eq!(rt; index.get(&key, None), None);
    Ok(())
}

fn put(
    alloc: Global,
    index: &mut TagIndex,
    type_name: &str,
    tags: &str,
    position: u64,
    there: bool,
) -> Result<(), Memory> {
    let key = key_of(alloc, "products", type_name)?;
    let tags = tags_of(alloc, tags)?;
    if there {
        return index.add(&key, &tags, position);
    }
    index.remove(&key, &tags, position);
    Ok(())
}

// How many positions stand under a target, and their sum.
fn seen(
    alloc: Global,
    index: &TagIndex,
    kind: &str,
    sub: &str,
    name: &str,
) -> Result<(usize, u64), Memory> {
    let target = target_of(alloc, kind, sub, name)?;
    let under = index.under(&target);
    let mut sum = 0u64;
    for position in under {
        sum = sum.saturating_add(*position);
    }
    Ok((under.len(), sum))
}

#[test]
fn positions_stand_under_what_covers_them(rt: HostRuntime) -> Result<(), Fail> {
    let alloc = rt.alloc();
    let mut index = TagIndex::open(alloc);
    put(alloc, &mut index, "Product", "hot new", 2, true)?;
    put(alloc, &mut index, "User", "hot", 5, true)?;
    put(alloc, &mut index, "User", "hot", 5, true)?;
    let table = [
        ("subgraph", "products", "", (2, 7)),
        ("type", "products", "Product", (1, 2)),
        ("type", "products", "User", (1, 5)),
        ("tag", "products", "hot", (2, 7)),
        ("tag", "products", "new", (1, 2)),
        ("tag", "reviews", "hot", (0, 0)),
    ];
    for (kind, sub, name, want) in table {
        let seen = seen(alloc, &index, kind, sub, name)?;
        assert_eq!(rt; seen, want);
    }
    Ok(())
}

#[test]
fn removed_positions_stand_under_nothing(rt: HostRuntime) -> Result<(), Fail> {
    let alloc = rt.alloc();
    let mut index = TagIndex::open(alloc);
    put(alloc, &mut index, "Product", "hot new", 2, true)?;
    put(alloc, &mut index, "User", "hot", 5, true)?;
    put(alloc, &mut index, "Product", "hot new", 2, false)?;
    let table = [
        ("subgraph", "products", "", (1, 5)),
        ("tag", "products", "hot", (1, 5)),
        ("tag", "products", "new", (0, 0)),
    ];
    for (kind, sub, name, want) in table {
        let seen = seen(alloc, &index, kind, sub, name)?;
        assert_eq!(rt; seen, want);
    }
    index.clear();
    let none = seen(alloc, &index, "subgraph", "products", "")?;
    assert_eq!(rt; none, (0, 0));
    Ok(())
}
