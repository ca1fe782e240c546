use cache_terms::Target;
use flow_base::Memory;
use std::marker::Model;

/// An invalidation for which the room is made, which contracts see as its target: that of its event, and that of the
/// stamp for the settles that come late.
#[derive(Drop)]
pub struct Notice {
    target: Target,
    stamp: Target,
}

impl Model for Notice {
    ghost use Rattle.std.specs.Prelude.{◌≡◌};
    ghost use Rattle.cache_terms.specs.declared.keys.Target.{Target};

    ghost Value = { Target };

    ghost view = { λ n. n.target };

    ghost invariant = { λ n. n.stamp ≡ n.target };
}

impl Notice {
    ghost use Rattle.std.specs.Prelude.{◌≡◌, IfOk};

    /// Fails only for want of memory.
    pub fn of(target: &Target) -> Result<Notice, Memory>
        ensures { IfOk result (λ n. n ≡ target.now) }
    {
        Ok(Notice {
            target: target.copy()?,
            stamp: target.copy()?,
        })
    }

    /// The same target twice, taking no memory.
    pub(crate) fn into_targets(self) -> (Target, Target)
        ensures target { result.0 ≡ self }
        ensures stamp { result.1 ≡ self }
    {
        let Notice { target, stamp } = self;
        (target, stamp)
    }
}
