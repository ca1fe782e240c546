ghost use Rattle.cache_model.specs.Laws.{FollowsRefl, FollowsTrans, WithoutRefl, WithoutTrans};
ghost use Rattle.cache_model.specs.Laws.{WithoutFollows, ByFollows, ByWithout};

/// A state follows itself.
pub fn follows_refl()
    ensures { FollowsRefl }
{}

/// What follows a later state follows the earlier one.
pub fn follows_trans()
    ensures { FollowsTrans }
{}

/// A state adds nothing to itself.
pub fn without_refl()
    ensures { WithoutRefl }
{}

/// Where a caller adds nothing twice, it adds nothing.
pub fn without_trans()
    ensures { WithoutTrans }
{}

/// A state without a caller's events follows.
pub fn without_follows()
    ensures { WithoutFollows }
{}

/// A state by one caller follows.
pub fn by_follows()
    ensures { ByFollows }
{}

/// A state by one caller is without each other.
pub fn by_without()
    ensures { ByWithout }
{}
