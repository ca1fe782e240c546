ghost use Rattle.std.specs.Prelude.{◌≡◌, ◌++◌, [], Some, IfOk, map, replicate};
ghost use Rattle.std.specs.List.{list_all};
ghost use Rattle.std.specs.Option.{option_map, option_copied};
ghost use Rattle.cache_terms.specs.Tags.{tags_of};
ghost use Rattle.reply_read.specs.Kinds as kinds;
ghost use Rattle.reply_read.specs.TagTexts as spec;
ghost use Rattle.reply_read.specs.declared.replies.Sent.TheVariants as sent;

use crate::Sent;
use crate::kinds::{are_strings, is_object, is_strings, string_or};
use cache_terms::Tags;
use flow_base::{Memory, Text};
use json_tree::{Json, member};
use std::alloc::Global;

fn texts_of(alloc: Global, values: &[Json]) -> Result<Vec<Text>, Memory>
    ensures { IfOk result (λ texts. texts.items ≡ map (kinds.string_or []) values.now) }
{
    let mut texts = Vec::with_capacity(alloc, values.len())?;
    for value in values {
        texts.push(string_or(alloc, value, "")?)?;
    }
    Ok(texts)
}

/// The texts of `cacheTags`; None where it is in another form.
fn common_texts(alloc: Global, value: Option<&Json>) -> Result<Option<Vec<Text>>, Memory>
    ensures { IfOk result
        (λ found. option_map (λ v. v.items) found ≡ spec.common_texts (option_copied value.entry)) }
{
    match value {
        None => Ok(Some(Vec::new(alloc))),
        Some(Json::List(items)) => {
            if are_strings(items.as_slice()) {
                Ok(Some(texts_of(alloc, items.as_slice())?))
            } else {
                Ok(None)
            }
        }
        Some(_) => Ok(None),
    }
}

fn copy_texts(alloc: Global, texts: &[Text]) -> Result<Vec<Text>, Memory>
    ensures { IfOk result (λ copies. copies.items ≡ texts.now) }
{
    let mut copies = Vec::with_capacity(alloc, texts.len())?;
    for text in texts {
        copies.push(text.copy()?)?;
    }
    Ok(copies)
}

fn with_strings(alloc: Global, common: &[Text], own: &[Json]) -> Result<Vec<Text>, Memory>
    ensures { IfOk result (λ texts. texts.items ≡ common.now ++ map (kinds.string_or []) own.now) }
{
    let mut texts = copy_texts(alloc, common)?;
    let mut more = texts_of(alloc, own)?;
    texts.append(&mut more)?;
    Ok(texts)
}

/// The tags of a piece for which these came beside the common ones.
fn piece_tags(alloc: Global, common: &[Text], own: &Json) -> Result<Tags, Memory>
    ensures { IfOk result (λ tags. tags ≡ spec.piece_tags common.now own.now) }
{
    match own {
        Json::List(items) => Tags::of(alloc, with_strings(alloc, common, items.as_slice())?),
        _ => Tags::of(alloc, with_strings(alloc, common, &[])?),
    }
}

fn is_formed(tags: &Tags) -> bool
    ensures { result ≡ spec.is_formed tags.now }
{
    match tags {
        Tags::Malformed => false,
        Tags::Known(_) => true,
        Tags::Many(_) => true,
    }
}

fn malformed(alloc: Global, count: u64) -> Result<Vec<Tags>, Memory>
    ensures { IfOk result (λ tags. tags.items ≡ spec.malformed count) }
{
    let mut tags = Vec::new(alloc);
    for _ in 0..count {
        tags.push(Tags::Malformed).map_err(|_| Memory)?;
    }
    Ok(tags)
}

fn are_formed(tags: &[Tags]) -> bool
    ensures { result ≡ list_all spec.is_formed tags.now }
{
    tags.iter().all(|t| is_formed(t))
}

fn all_or_malformed(alloc: Global, count: u64, each: Vec<Tags>) -> Result<Vec<Tags>, Memory>
    ensures { IfOk result (λ tags. tags.items ≡ spec.all_or_malformed count each.items) }
{
    if are_formed(&each) {
        Ok(each)
    } else {
        malformed(alloc, count)
    }
}

fn repeat(alloc: Global, count: u64, one: &Tags) -> Result<Vec<Tags>, Memory>
    ensures { IfOk result (λ tags. tags.items ≡ replicate count one.now) }
{
    let mut tags = Vec::new(alloc);
    for _ in 0..count {
        tags.push(one.copy()?).map_err(|_| Memory)?;
    }
    Ok(tags)
}

fn same_tags(alloc: Global, count: u64, common: Vec<Text>) -> Result<Vec<Tags>, Memory>
    ensures { IfOk result (λ tags. tags.items ≡ replicate count (tags_of common.items)) }
{
    let one = Tags::of(alloc, common)?;
    repeat(alloc, count, &one)
}

fn own_tags(alloc: Global, common: &[Text], lists: &[Json]) -> Result<Vec<Tags>, Memory>
    ensures { IfOk result (λ tags. tags.items ≡ map (spec.piece_tags common.now) lists.now) }
{
    let mut tags = Vec::with_capacity(alloc, lists.len())?;
    for own in lists {
        tags.push(piece_tags(alloc, common, own)?)
            .map_err(|_| Memory)?;
    }
    Ok(tags)
}

fn are_lists(values: &[Json]) -> bool
    ensures { result ≡ list_all kinds.is_strings values.now }
{
    values.iter().all(|v| is_strings(v))
}

/// The tags of each entity, by its own list.
fn entity_tags(
    alloc: Global,
    count: u64,
    common: Vec<Text>,
    own: &Json,
) -> Result<Vec<Tags>, Memory>
    ensures { IfOk result (λ tags. tags.items
        ≡ spec.tags_with (sent.Entities count) common.items (Some own.now)) }
{
    match own {
        Json::List(lists) => {
            if lists.len() as u64 == count && are_lists(lists.as_slice()) {
                let each = own_tags(alloc, &common, lists.as_slice())?;
                all_or_malformed(alloc, count, each)
            } else {
                malformed(alloc, count)
            }
        }
        _ => malformed(alloc, count),
    }
}

fn tags_with(
    alloc: Global,
    sent: &Sent,
    common: Vec<Text>,
    own: Option<&Json>,
) -> Result<Vec<Tags>, Memory>
    ensures { IfOk result (λ tags. tags.items
        ≡ spec.tags_with sent.now common.items (option_copied own.entry)) }
{
    match own {
        None => {
            let each = same_tags(alloc, sent.count(), common)?;
            all_or_malformed(alloc, sent.count(), each)
        }
        Some(own) => match sent {
            Sent::Root => malformed(alloc, 1),
            Sent::Entities(count) => entity_tags(alloc, *count, common, own),
        },
    }
}

/// The tags of each piece, by the member `extensions`.
pub fn reply_tags(
    alloc: Global,
    sent: &Sent,
    extensions: Option<&Json>,
) -> Result<Vec<Tags>, Memory>
    ensures { IfOk result
        (λ tags. tags.items ≡ spec.reply_tags sent.now (option_copied extensions.entry)) }
{
    let Some(extensions) = extensions else {
        return tags_with(alloc, sent, Vec::new(alloc), None);
    };
    if !is_object(extensions) {
        return malformed(alloc, sent.count());
    }
    match common_texts(alloc, member(extensions, "cacheTags"))? {
        Some(common) => tags_with(alloc, sent, common, member(extensions, "entityCacheTags")),
        None => malformed(alloc, sent.count()),
    }
}
