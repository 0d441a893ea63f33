//! What runs are that are walked.
ghost use Rattle.std.specs.Prelude.{◌≡◌, ℕ, suc, List, None, [], ◌∷◌};
ghost use Rattle.tm_base.specs.declared.place.Place as placed;
ghost use Rattle.tm_syntax.specs.Tree.{row_of};
ghost use Rattle.tm_syntax.specs.Scopes.Parts.{body_stmts};
ghost use Rattle.tm_syntax.specs.Scopes.Pauses.{call_depth};
ghost use Rattle.tm_syntax.specs.Design.{DesignTree};
ghost use Rattle.tm_syntax.specs.Design.Cells.{Called};
ghost use Rattle.tm_sem.specs.Run.{stopped};
ghost use Rattle.tm_sem.specs.Value as run;
ghost use Rattle.tm_flat.specs.BitRun.{body_ending, reader, row_ending};
ghost use Rattle.tm_flat.specs.Positions.{row_after};
ghost use Rattle.tm_flat.specs.Sample.{place_at, sample, turn};
ghost use Rattle.tm_flat_stmts.specs.Statements.{reads};
ghost use Rattle.tm_flat_stmts.specs.Choices.{choice_bit};
ghost use Rattle.tm_flat_bodies.specs.Trial.{sample_memory, sample_scope, sample_turned};
ghost use Rattle.tm_flat_bodies.specs.Walks.{readers_at};

/// Where calls may nest as deep as the text lets them, a walk's runs are those that read their choices as bits; and
/// what they do in a called body is what runs do that know one level of calls less.
pub fn walks_lead_where_runs_do()
    ensures whole { (d : DesignTree) (first : ℕ) (v : List ℕ)
        → reads (readers_at (call_depth d.spec) first d) v ≡ reader d (choice_bit first v) }
    ensures called { (d : DesignTree) (depth first : ℕ) (v : List ℕ) (c : Called) (trail : List placed.Place) (k : ℕ)
        (m : run.Memory) → body_ending (suc depth) d (choice_bit first v) c trail k m
        ≡ row_ending (reads (readers_at depth first d) v) c.scope trail (row_of (body_stmts c.body)) k m }
{}

/// On a small design a turn of the process reads its choices in text order, each with its most significant bit first,
/// calls its procedure, and stops at its pause; nothing is reached behind it.
pub fn a_turn_stops_at_its_pause()
    ensures stops { row_ending (reads (readers_at 1 5 sample)
        (0 ∷ 0 ∷ 0 ∷ 0 ∷ 0 ∷ 1 ∷ 0 ∷ 0 ∷ 0 ∷ 1 ∷ 0 ∷ 1 ∷ [])) sample_scope [] (row_of turn) 0 sample_memory
        ≡ stopped (place_at 7 93) [] sample_turned }
    ensures ends { row_after (readers_at 1 5 sample).after sample sample_scope (row_of turn) 0 ≡ None }
{}
