use cache_book::Book;
use std::marker::Model;
use turn_lock::Storied;

/// What lies in the lock: the book, which handle took the last turn, and how many handles there are.
#[derive(Drop)]
pub(crate) struct StoriedBook {
    pub(crate) book: Book,
    pub(crate) last: Option<u32>,
    pub(crate) members: u32,
}

impl Model for StoriedBook {
    ghost use Rattle.cache_seam.specs.Objects.{KeepsObjects};
    ghost use Rattle.shared_book.specs.Sharing.{Shared, IsNumbered};

    ghost Value = { Shared };

    ghost view = { λ s. record { book = s.book; last = s.last; members = s.members } };

    ghost invariant = { λ s. KeepsObjects s.book × IsNumbered s.last s.members };
}

impl Storied for StoriedBook {
    ghost use Rattle.std.proofs.Common.{refl, sym, ap, ◌∙◌};
    ghost use Rattle.std.proofs.lemmas.Option.{none-some};
    ghost use Rattle.std.specs.Prelude.{unwrap_or};
    ghost use Rattle.cache_model.proofs.StoryLaws as laws;
    ghost use Rattle.shared_book.specs.Sharing.{BookFollows, WithoutTurn, ByTurn};

    ghost follows = { BookFollows };

    ghost without = { WithoutTurn };

    ghost by = { ByTurn };

    ghost follows_refl = { λ a. laws.follows_refl a.book };

    ghost follows_trans = { λ a b c ab bc. laws.follows_trans a.book b.book c.book ab bc };

    ghost without_refl = { λ k a. record {
      book = laws.without_refl k a.book;
      own = λ is. refl;
      nobody = λ is. refl;
      members = refl;
    } };

    // Where nothing came after b, the last turn is the one before b.
    ghost without_trans = { λ k a b c ab bc. record {
      book = laws.without_trans k a.book b.book c.book ab.book bc.book;
      own = λ is. bc.own is ∙ ab.own (sym (ap (λ s. s.last) (bc.own is)) ∙ is);
      nobody = λ is. bc.nobody is ∙ ab.nobody (sym (ap (λ s. s.last) (bc.nobody is)) ∙ is);
      members = bc.members ∙ ab.members;
    } };

    ghost without_follows = { λ k a b ab. laws.without_follows k a.book b.book ab.book };

    ghost by_follows = { λ k a b ab. laws.by_follows k a.book b.book ab.book };

    ghost by_without = { λ j k a b ab apart. record {
      book = laws.by_without j k a.book b.book ab.book apart;
      own = λ is. absurd (apart (ap (λ last. unwrap_or last 0) (sym is ∙ ab.last)));
      nobody = λ is. absurd (none-some k (sym is ∙ ab.last));
      members = ab.members;
    } };
}
