ghost use Rattle.std.specs.Prelude.{◌≡◌, ◌++◌, ◌∷◌, [], not, IfOk, OnErr, if◌then◌else◌, map};
ghost use Rattle.std.specs.Option.{option_copied};
ghost use Rattle.plan_book.specs.Book.{entry_with, has_entry, text_of};

use flow_base::{Memory, Text};
use gql_terms::Document;
use indexmap::IndexSet;
use plan_tree::Plan;
use std::alloc::Global;
use tree_items::at;

/// A document with the plan that answers it, and the canonical text of the document, by which it is found.
#[derive(Debug, Drop)]
pub struct Entry {
    pub text: Text,
    pub document: Document,
    pub plan: Plan,
}

/// Entries in their order, no two with one text. They are found by an index on their texts.
#[derive(Drop)]
pub struct PlanBook {
    pub entries: Vec<Entry>,
    texts: IndexSet<Text>,
    pub ghost indexed: { texts.keys ≡ map text_of entries.items },
}

impl PlanBook {
    /// A book without entries. Takes no memory.
    pub fn new(alloc: Global) -> PlanBook
        ensures entries { result.entries.items ≡ [] }
    {
        PlanBook {
            entries: Vec::new(alloc),
            texts: IndexSet::new(alloc),
        }
    }

    /// Adds an entry, and says whether it did: not where its text is in the book already. Fails only for want of memory;
    /// then the book is unchanged.
    pub fn add(&mut self, entry: Entry) -> Result<bool, Memory>
        ensures added { IfOk result (λ b. b ≡ not (has_entry entry.text self.old.entries.items)) }
        ensures entries { IfOk result (λ b. self.new.entries.items
            ≡ (if b then self.old.entries.items ++ entry ∷ [] else self.old.entries.items)) }
        ensures err { OnErr result (self.new.entries.items ≡ self.old.entries.items) }
    {
        if self.texts.contains(&entry.text) {
            return Ok(false);
        }
        let text = entry.text.copy()?;
        self.texts.reserve(1)?;
        self.entries.push(entry)?;
        let _ = self.texts.insert(text).unwrap();
        Ok(true)
    }

    /// The entry with this text, and None exactly where there is none. Takes time in the length of the text alone.
    pub fn find(&self, text: &Text) -> Option<&Entry>
        ensures { option_copied result ≡ entry_with text.now self.now.entries.items }
    {
        let Some(index) = self.texts.get_index_of(text) else {
            return None;
        };
        at(&self.entries, index)
    }
}
