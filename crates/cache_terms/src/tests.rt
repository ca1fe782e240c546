use super::*;
use flow_base::{Memory, Text};
use std::alloc::Global;
use std::test::Fail;

// The tags of the words of a line, as words again: 'many N' and 'malformed' where they do not serve.
fn tags_of_line(alloc: Global, line: &str) -> Result<String, Memory> {
    let mut texts = Vec::new(alloc);
    for word in line.split(' ') {
        texts.push(Text::of(alloc, word)?)?;
    }
    let tags = Tags::of(alloc, texts)?;
    let mut shown = String::new(alloc);
    match &tags {
        Tags::Known(known) => {
            for tag in known.as_slice() {
                shown.push_str(tag.as_str())?;
                shown.push(' ')?;
            }
        }
        Tags::Many(count) => shown = format!(in alloc; "many {count}")?,
        Tags::Malformed => shown.push_str("malformed")?,
    }
    Ok(shown)
}

#[test]
fn tags_keep_their_first_places(rt: HostRuntime) -> Result<(), Fail> {
    let alloc = rt.alloc();
    let long = "0123456789abcdef".repeat(alloc, 8)?;
    let too_long = format!(in alloc; "a {long}x")?;
    let table = [
        ("b a b c a", "b a c "),
        ("a", "a "),
        ("", "malformed"),
        ("a  b", "malformed"),
        (
            "a b c d e f g h i j k l m n o p",
            "a b c d e f g h i j k l m n o p ",
        ),
        (
            "a b c d e f g h i j k l m n o p a p",
            "a b c d e f g h i j k l m n o p ",
        ),
        ("a b c d e f g h i j k l m n o p a q", "many 17"),
        ("a b c d e f g h i j k l m n o p  q", "malformed"),
        (too_long.as_str(), "malformed"),
    ];
    for (line, want) in table {
        let shown = tags_of_line(alloc, line)?;
        assert_eq!(rt; shown.as_str(), want, "at {line}");
    }
    let longest = tags_of_line(alloc, long.as_str())?;
    assert_eq!(rt; longest.len(), 129);
    Ok(())
}

#[test]
fn the_first_reason_counts(rt: HostRuntime) -> Result<(), Fail> {
    let alloc = rt.alloc();
    let mut offer = Offer {
        value: Text::of(alloc, "value")?,
        tags: Tags::Malformed,
        verdict: Verdict {
            lifetime: 60,
            age: 60,
            private: true,
            no_store: true,
        },
        marks: Marks {
            status: 503,
            errors: true,
            absent: true,
            mutation: true,
            uncached: true,
        },
    };
    assert_eq!(rt; why(&offer, false), Some(Why::Status(503)));
    offer.marks.status = 200;
    assert_eq!(rt; why(&offer, false), Some(Why::Mutation));
    offer.marks.mutation = false;
    assert_eq!(rt; why(&offer, false), Some(Why::Uncached));
    offer.marks.uncached = false;
    assert_eq!(rt; why(&offer, false), Some(Why::Errors));
    offer.marks.errors = false;
    assert_eq!(rt; why(&offer, false), Some(Why::Absent));
    offer.marks.absent = false;
    assert_eq!(rt; why(&offer, false), Some(Why::NoStore));
    offer.verdict.no_store = false;
    let stale = Why::Stale {
        lifetime: 60,
        age: 60,
    };
    assert_eq!(rt; why(&offer, false), Some(stale));
    offer.verdict.age = 59;
    assert_eq!(rt; why(&offer, false), Some(Why::Anonymous));
    assert_eq!(rt; why(&offer, true), Some(Why::TagForm));
    offer.tags = Tags::Many(17);
    assert_eq!(rt; why(&offer, true), Some(Why::TagCount(17)));
    offer.tags = Tags::Known(TagList::new(alloc));
    assert_eq!(rt; why(&offer, true), None);
    Ok(())
}

#[test]
fn copies_cover_what_their_sources_do(rt: HostRuntime) -> Result<(), Fail> {
    let alloc = rt.alloc();
    let key = Key {
        sub: Text::of(alloc, "products")?,
        type_name: Text::of(alloc, "Item")?,
        rep: Text::of(alloc, "{\"id\":\"1\"}")?,
        sel: Text::of(alloc, "{name}")?,
    };
    assert_eq!(rt; key.bytes(), 28);
    let mut texts = Vec::new(alloc);
    texts.push(Text::of(alloc, "item-1")?).map_err(|_| Memory)?;
    let offer = Offer {
        value: Text::of(alloc, "{\"name\":\"Chair\"}")?,
        tags: Tags::of(alloc, texts)?,
        verdict: Verdict {
            lifetime: 60,
            age: 0,
            private: false,
            no_store: false,
        },
        marks: Marks {
            status: 200,
            errors: false,
            absent: false,
            mutation: false,
            uncached: false,
        },
    };
    let key = key.copy()?;
    let offer = offer.copy()?;
    assert_eq!(rt; offer.size(), 22);
    let subgraph = Target::Subgraph(Text::of(alloc, "products")?).copy()?;
    let of_type = Target::OfType(Text::of(alloc, "products")?, Text::of(alloc, "Item")?).copy()?;
    let tag = Target::Tag(Text::of(alloc, "products")?, Text::of(alloc, "item-1")?).copy()?;
    let other_tag = Target::Tag(Text::of(alloc, "reviews")?, Text::of(alloc, "item-1")?);
    assert!(rt; covers(&subgraph, &key, &offer.tags));
    assert!(rt; covers(&of_type, &key, &offer.tags));
    assert!(rt; covers(&tag, &key, &offer.tags));
    assert!(rt; !covers(&tag, &key, &Tags::Many(17)));
    assert!(rt; !covers(&other_tag, &key, &offer.tags));
    Ok(())
}
