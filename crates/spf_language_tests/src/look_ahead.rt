//! The test that a grammar is LL(1), on ambiguous grammars that it has to refuse and on clear ones that it has to accept.
//!
//! Each part of the test, and of what it computes, is needed here: without any one of them some clause fails.

ghost use Rattle.std.specs.Prelude.{◌≡◌, true, false, [], ◌∷◌};
ghost use Rattle.spf_lex.specs.BundleWords.{same_kind};
ghost use Rattle.spf_lex.specs.Grammar.{Nothing, One, Then, Or, Many, optional, sequence};
ghost use Rattle.spf_lex.specs.LookAhead.{is_clear};
ghost use Rattle.spf_lex.specs.declared.kind.Kind.TheVariants as kind;

/// Law: a choice is refused where the next token doesn't tell which side to read.
#[tactic(auto, unfolding(spf_lex::specs::LookAhead::is_clear, spf_lex::specs::LookAhead::nullable, spf_lex::specs::LookAhead::first, spf_lex::specs::LookAhead::extension))]
pub fn ambiguous_choices_are_refused()
    // both sides begin with a `+`
    ensures same_start { is_clear same_kind (Or (sequence (kind.Plus ∷ kind.Minus ∷ [])) (One kind.Plus)) ≡ false }
    // a side is itself a choice, and one of its two begins as the other side does
    ensures left { is_clear same_kind (Or (Or (One kind.Plus) (One kind.Minus)) (One kind.Plus)) ≡ false }
    ensures right { is_clear same_kind (Or (Or (One kind.Plus) (One kind.Minus)) (One kind.Minus)) ≡ false }
    // a side begins with a repetition of what the other side is
    ensures repetition { is_clear same_kind (Or (Many (One kind.Name)) (One kind.Name)) ≡ false }
    // a side begins with what the other is, but for an optional `-`
    ensures behind_optional { is_clear same_kind (Or (Then (optional (One kind.Minus)) (One kind.Name)) (One kind.Name)) ≡ false }
    // both sides may be empty
    ensures both_empty { is_clear same_kind (Or (Many (One kind.Name)) (optional (One kind.Number))) ≡ false }
    ensures nothing_twice { is_clear same_kind (Or (Or Nothing (One kind.Name)) Nothing) ≡ false }
{}

/// Law: a sequence is refused where the next token doesn't tell whether the first part goes on or the second begins.
#[tactic(auto, unfolding(spf_lex::specs::LookAhead::is_clear, spf_lex::specs::LookAhead::nullable, spf_lex::specs::LookAhead::first, spf_lex::specs::LookAhead::extension))]
pub fn ambiguous_sequences_are_refused()
    // an optional part in front of what it begins with
    ensures optional_part { is_clear same_kind (Then (optional (One kind.Minus)) (sequence (kind.Minus ∷ kind.Number ∷ []))) ≡ false }
    ensures nothing_first { is_clear same_kind (Then (Or Nothing (One kind.Minus)) (One kind.Minus)) ≡ false }
    // a repetition whose parts begin as what follows it, or may end in it
    ensures repetition { is_clear same_kind (Then (Many (One kind.Name)) (One kind.Name)) ≡ false }
    ensures last_part { is_clear same_kind (Then (Many (Then (One kind.Name) (optional (One kind.Comma)))) (One kind.Comma)) ≡ false }
    // an optional part, with something between that may be empty
    ensures across_empty { is_clear same_kind (Then (Then (optional (One kind.Minus)) (Many (One kind.Comma))) (One kind.Minus)) ≡ false }
    // a choice of which one side may end in what follows
    ensures first_side { is_clear same_kind (Then (Or (Then (One kind.Name) (optional (One kind.Comma))) (One kind.Number)) (One kind.Comma)) ≡ false }
    ensures second_side { is_clear same_kind (Then (Or (One kind.Number) (Then (One kind.Name) (optional (One kind.Comma)))) (One kind.Comma)) ≡ false }
{}

/// Law: a repetition is refused where its parts may be empty, or where the next token doesn't tell whether a part goes on or
/// the next one begins.
#[tactic(auto, unfolding(spf_lex::specs::LookAhead::is_clear, spf_lex::specs::LookAhead::nullable, spf_lex::specs::LookAhead::first, spf_lex::specs::LookAhead::extension))]
pub fn ambiguous_repetitions_are_refused()
    ensures empty_parts { is_clear same_kind (Many (optional (One kind.Name))) ≡ false }
    ensures no_parts { is_clear same_kind (Many Nothing) ≡ false }
    // a part is a name or two
    ensures longer_part { is_clear same_kind (Many (Then (One kind.Name) (optional (One kind.Name)))) ≡ false }
{}

/// Law: an ambiguity is found wherever it stands in a grammar.
#[tactic(auto, unfolding(spf_lex::specs::LookAhead::is_clear, spf_lex::specs::LookAhead::nullable, spf_lex::specs::LookAhead::first, spf_lex::specs::LookAhead::extension))]
pub fn ambiguities_are_found_inside()
    ensures first_part { is_clear same_kind (Then (Or (One kind.Plus) (One kind.Plus)) (One kind.Semicolon)) ≡ false }
    ensures second_part { is_clear same_kind (Then (One kind.Semicolon) (Or (One kind.Plus) (One kind.Plus))) ≡ false }
    ensures first_side { is_clear same_kind (Or (Or (One kind.Plus) (One kind.Plus)) (One kind.Semicolon)) ≡ false }
    ensures second_side { is_clear same_kind (Or (One kind.Semicolon) (Or (One kind.Plus) (One kind.Plus))) ≡ false }
    ensures repeated { is_clear same_kind (Many (Or (One kind.Plus) (One kind.Plus))) ≡ false }
{}

/// Law: grammars in which the next token tells how to go on are accepted.
#[tactic(auto, unfolding(spf_lex::specs::LookAhead::is_clear, spf_lex::specs::LookAhead::nullable, spf_lex::specs::LookAhead::first, spf_lex::specs::LookAhead::extension))]
pub fn clear_grammars_are_accepted()
    // names, each with numbers behind it and a `;`; the numbers may have a sign
    ensures entries { is_clear same_kind (Many (Then (One kind.Name)
        (Then (Many (Then (optional (One kind.Minus)) (Or (One kind.One) (One kind.Number)))) (One kind.Semicolon)))) ≡ true }
    // names with signs between them, perhaps with a `-` in front
    ensures sum { is_clear same_kind (Then (optional (One kind.Minus))
        (Then (One kind.Name) (Many (Then (Or (One kind.Plus) (One kind.Minus)) (One kind.Name))))) ≡ true }
    // names with commas between them, and then a `;` or a `-`
    ensures list { is_clear same_kind (Then (Then (One kind.Name) (Many (sequence (kind.Comma ∷ kind.Name ∷ []))))
        (Or (One kind.Semicolon) (One kind.Minus))) ≡ true }
{}
