//! What the contracts of a search see of its searcher.

ghost use Rattle.std.specs.Prelude.{ℕ, ⊤, Bool, false, true, Option, None};
ghost use Rattle.regex_meaning.specs.{Tree.{Tree}, Text.{Text}};
ghost use Rattle.regress_search.specs.CostsOfSearches.{Failures, WorkCosts};

/// What contracts see of a searcher: its tree, its text, and the limits on its steps and its work.
///
/// All members are ghosts. The law `is_text` is a member of the traits below this one, because only
/// a trait with functions can have laws that an `impl` proves by the laws of its bounds.
pub trait SearchState {
    // The tree of the pattern.
    ghost tree: { Self → Tree };

    // The text.
    ghost text: { Self → Text };

    // The steps that are left; `None` if they are not counted.
    ghost budget: { Self → Option ℕ } = { λ _. None };

    // Whether the last search or attempt reached the step limit.
    ghost out_of_steps: { Self → Bool } = { λ _. false };

    // Whether the work limit suffices for attempts in ascending order of offsets, each at `ahead`
    // or later.
    ghost enough: { Self → Bool } = { λ _. true };

    // The least offset of the next such attempt.
    ghost ahead: { Self → ℕ } = { λ _. 0 };

    // Whether the last search or attempt reached the work limit.
    ghost out_of_work: { Self → Bool } = { λ _. false };

    // The work that is left, if work is counted.
    ghost left: { Self → ℕ } = { λ _. 0 };

    // Whether work is counted.
    ghost counts_work: { Bool } = { false };

    // The failures that are known. The costs of attempts depend on them.
    ghost failures: { Self → Failures } = { λ _ _ _ _. false };

    // What attempts cost, if work is counted, and whether starts may be skipped (see
    // `CostsOfSearches`).
    ghost costs: { WorkCosts } = { record { of_attempt = λ _ _ _ _ _ _. ⊤; may_skip = false } };
}
