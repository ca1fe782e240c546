ghost use Rattle.std.specs.Prelude.{ℕ, List, Option};
ghost use Rattle.cache_terms.specs.declared.keys.Key.{Key};
ghost use Rattle.line_base.specs.Lines as lines;
ghost use Rattle.cache_seam.specs.Seen.{Seen, pass_of};
ghost use Rattle.fetch_asks.specs.declared.ask.Ask.{Ask};
ghost use Rattle.piece_fetch.specs.declared.fetched.Fetched.{Fetched};
ghost use Rattle.piece_fetch.specs.Fetching.{DoesFetch, HasEach};
ghost use Rattle.piece_fetch.specs.Justified.{AreFound};

use recorded_hits::{looks_find_what_is_recorded, recorded_hits_stay};

/// A law: each piece that a fetch shows as a hit was recorded by an earlier fetch as cacheable, fresh, public or of the
/// same caller, with no covering invalidation between that fetch's start and the lookup. So it stands in the journal that
/// is seen when the fetch is done.
pub fn found_pieces_are_recorded()
    ensures { (ask : Ask) (keys : List Key) (id : Option (List ℕ)) (number : ℕ) (old new : Seen)
        (l m : lines.Line) (before after : Option (List ℕ)) (f : Fetched)
        (h : DoesFetch ask keys id number old new l m before after f) →
        AreFound new.journal (pass_of old) id h.now keys f.pieces.items f.origins.items }
{
    looks_find_what_is_recorded();
    recorded_hits_stay();
}

/// A law: a fetch gives one piece, one origin and one time for each key.
pub fn each_key_has_its_piece()
    ensures { (ask : Ask) (keys : List Key) (id : Option (List ℕ)) (number : ℕ) (old new : Seen)
        (l m : lines.Line) (before after : Option (List ℕ)) (f : Fetched) →
        DoesFetch ask keys id number old new l m before after f → HasEach keys f }
{}
