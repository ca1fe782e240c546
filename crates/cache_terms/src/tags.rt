ghost use Rattle.std.specs.Prelude.{◌≡◌, ◌↔◌, ◌-◌, ◌^◌, [], min, length, sum_by, IsTrue, IfOk, Contains};
ghost use Rattle.std.specs.List.{list_all};
ghost use Rattle.cache_terms.specs.TagRules.{serves, distinct};
ghost use Rattle.cache_terms.specs.Tags.{HasTag, tags_size, tags_of};

use flow_base::{Memory, Text};
use indexmap::IndexSet;
use std::alloc::Global;
use std::marker::Model;

/// At most 16 distinct tags of 1 to 128 bytes each, which contracts see as their list.
#[derive(Debug, Drop)]
pub struct TagList {
    tags: Vec<Text>,
}

impl Model for TagList {
    ghost use Rattle.std.specs.Prelude.{List, ℕ};
    ghost use Rattle.cache_terms.specs.TagRules.{AreTags};

    ghost Value = { List (List ℕ) };

    ghost view = { λ t. t.tags.items };

    ghost invariant = { λ t. AreTags t.tags.items };
}

impl TagList {
    ghost use Rattle.std.specs.Prelude.{◌≡◌, [], IfOk};
    ghost use Rattle.cache_terms.specs.TagRules.{AreTags};

    /// No tags, taking no memory.
    pub fn new(alloc: Global) -> TagList
        ensures { result ≡ [] }
    {
        TagList {
            tags: Vec::new(alloc),
        }
    }

    /// The same tags, taking no memory.
    pub fn from_vec(tags: Vec<Text>) -> TagList
        requires { AreTags tags.items }
        ensures { result ≡ tags.items }
    {
        TagList { tags }
    }

    /// The same tags, taking no memory.
    pub fn into_vec(self) -> Vec<Text>
        ensures { result.items ≡ self }
    {
        let TagList { tags } = self;
        tags
    }

    pub fn as_slice(&self) -> &[Text]
        ensures same { result.now ≡ self.now }
        ensures rules { AreTags result.now }
    {
        self.tags.as_slice()
    }

    /// A copy. Fails only for want of memory.
    pub fn copy(&self) -> Result<TagList, Memory>
        ensures { IfOk result (λ t. t ≡ self.now) }
    {
        let tags = copy_texts(*self.tags.allocator(), &self.tags)?;
        Ok(TagList { tags })
    }
}

fn copy_texts(alloc: Global, texts: &[Text]) -> Result<Vec<Text>, Memory>
    ensures { IfOk result (λ v. v.items ≡ texts.now) }
{
    let mut copies = Vec::with_capacity(alloc, texts.len())?;
    for text in texts {
        copies.push(text.copy()?)?;
    }
    Ok(copies)
}

/// The tags of a piece, or why they do not serve.
#[derive(Debug, Drop)]
pub enum Tags {
    Known(TagList),
    /// So many distinct tags, which is more than 16.
    Many(u64),
    /// Some tag is empty or longer than 128 bytes, or the tags came in another form.
    Malformed,
}

impl Tags {
    /// The tags of a piece from the texts that came for it: Malformed where some text is empty or has
    /// over 128 bytes; else, with doubles left out, Many with their number where these are more than
    /// 16, and otherwise Known, each at its first place. Hashes each text once. Fails only for want of
    /// memory.
    pub fn of(alloc: Global, texts: Vec<Text>) -> Result<Tags, Memory>
        ensures { IfOk result (λ t. t ≡ tags_of texts.items) }
    {
        if !all_serve(&texts) {
            return Ok(Tags::Malformed);
        }
        let tags = without_doubles(alloc, texts)?;
        if tags.len() <= 16 {
            Ok(Tags::Known(TagList::from_vec(tags)))
        } else {
            Ok(Tags::Many(tags.len() as u64))
        }
    }

    /// Whether the tag is one of the known tags.
    pub fn contains(&self, tag: &Text) -> bool
        ensures { IsTrue result ↔ HasTag self.now tag.now }
    {
        match self {
            Tags::Known(tags) => has(tags.as_slice(), tag),
            Tags::Many(_) => false,
            Tags::Malformed => false,
        }
    }

    /// The bytes of the known tags.
    pub fn size(&self) -> u64
        ensures { result ≡ min (tags_size self.now) (2 ^ 64 - 1) }
    {
        match self {
            Tags::Known(tags) => total(tags.as_slice()),
            Tags::Many(_) => 0,
            Tags::Malformed => 0,
        }
    }

    /// A copy. Fails only for want of memory.
    pub fn copy(&self) -> Result<Tags, Memory>
        ensures { IfOk result (λ t. t ≡ self.now) }
    {
        match self {
            Tags::Known(tags) => Ok(Tags::Known(tags.copy()?)),
            Tags::Many(count) => Ok(Tags::Many(*count)),
            Tags::Malformed => Ok(Tags::Malformed),
        }
    }
}

fn has(tags: &[Text], tag: &Text) -> bool
    ensures { IsTrue result ↔ Contains tags.now tag.now }
{
    tags.iter().any(|t| *t == *tag)
}

fn total(tags: &[Text]) -> u64
    ensures { result ≡ min (sum_by (λ t. length t) tags.now) (2 ^ 64 - 1) }
{
    let mut size = 0u64;
    for tag in tags {
        size = size.saturating_add(tag.len() as u64);
    }
    size
}

fn all_serve(texts: &[Text]) -> bool
    ensures { result ≡ list_all serves texts.now }
{
    texts.iter().all(|text| is_tag(text))
}

fn is_tag(text: &Text) -> bool
    ensures { result ≡ serves text.now }
{
    0 < text.len() && text.len() <= 128
}

fn without_doubles(alloc: Global, texts: Vec<Text>) -> Result<Vec<Text>, Memory>
    ensures { IfOk result (λ v. v.items ≡ distinct texts.items) }
{
    let mut seen = IndexSet::new(alloc);
    for text in texts {
        seen.insert(text)?;
    }
    in_order(alloc, seen)
}

fn in_order(alloc: Global, texts: IndexSet<Text>) -> Result<Vec<Text>, Memory>
    ensures { IfOk result (λ v. v.items ≡ texts.keys) }
{
    let mut list = Vec::with_capacity(alloc, texts.len())?;
    for text in texts {
        list.push(text)?;
    }
    Ok(list)
}
