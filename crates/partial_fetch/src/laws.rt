ghost use Rattle.std.specs.Prelude.{ℕ, List, Option};
ghost use Rattle.line_base.specs.Lines as lines;
ghost use Rattle.cache_seam.specs.Seen.{Seen};
ghost use Rattle.router_config.specs.declared.site.Site.{Site};
ghost use Rattle.router_config.specs.declared.config.Request.{Request};
ghost use Rattle.partial_fetch.specs.declared.answer.Answer.{Answer};
ghost use Rattle.partial_fetch.specs.Answering.{Answers};
ghost use Rattle.partial_fetch.specs.Headline.{KeepsPromise};

use plan_run::found_pieces_stand;

/// A law, with nothing to run: whatever a request did over a cache, a line and a clock, its answer is as promised.
pub fn each_piece_stands()
    ensures { (site : Site) (request : Request) (old new : Seen) (l m : lines.Line)
        (before after : Option (List ℕ)) (a : Answer) →
        Answers site request old new l m before after a → KeepsPromise site request new l m a }
{
    found_pieces_stand();
}
