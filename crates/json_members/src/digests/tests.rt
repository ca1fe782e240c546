use super::digest;
use flow_base::Text;
use std::alloc::Global;

fn digest_of(alloc: Global, name: &str) -> Option<u64> {
    let text = Text::of(alloc, name).ok()?;
    Some(digest(&text))
}

/// Two names of one digest, and a name whose digest is that of an empty slot.
#[test]
fn names_that_digests_do_not_tell(rt: HostRuntime) {
    let one = digest_of(rt.alloc(), "kjgqfmbuimeynkyqHTv1oXUTuyK4HY7P");
    let other = digest_of(rt.alloc(), "kjgqfmbuimeynkyqYZkjI4QudwVon53q");
    let none = digest_of(rt.alloc(), "oboitxvtubhldxamGT8n|PFX12345678");
    assert!(rt; one == Some(0x5fd4_a45b_5c8b_7f5a) && other == one && none == Some(0));
}
