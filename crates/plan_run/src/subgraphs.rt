ghost use Rattle.std.specs.Prelude.{◌≡◌};
ghost use Rattle.plan_run.specs.Subgraphs.{found_by};

use flow_base::Text;

/// A subgraph of a site: its name, and whether nothing of it is kept.
#[derive(Debug, Drop)]
pub struct Subgraph {
    pub name: Text,
    pub uncached: bool,
}

/// The number of the first subgraph with this name, and whether nothing of it is kept.
pub fn find(subgraphs: &[Subgraph], name: &Text) -> Option<(u64, bool)>
    ensures { result ≡ found_by subgraphs.now name.now }
{
    for i in 0..subgraphs.len() {
        if subgraphs[i].name == *name {
            return Some((i as u64, subgraphs[i].uncached));
        }
    }
    None
}
